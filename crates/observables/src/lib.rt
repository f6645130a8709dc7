//! What modules measure, as one list: the monitors of each family at fixed places, and the observables that a CMIS module describes
//! itself (pages 20h to 2Ch); with exact amounts, limits and flags.
#![tactic(auto)]

mod amount;
mod banks;
mod descriptor;
mod fixed;
mod instance;
mod instances;
mod laws;
mod limits;
mod monitor;
mod monitored;
mod names;
mod numbers;
mod observable;
mod observation;
mod observations;
mod pages;
mod quantity;
mod scientific;
mod tables;
mod words;

pub use amount::{Amount, steps};
pub use banks::{bank_count, lanes_of_bank, statistics_banks};
pub use descriptor::Descriptor;
pub use fixed::{Fixed, Places};
pub use instance::{INSTANCES, Instance, instance_at, next_instance};
pub use instances::all_instances;
pub use laws::{
    each_amount_is_exact, each_instance_has_a_place, each_monitor_has_a_place, fixed_is_exact,
    scientific_is_exact,
};
pub use limits::{flags_of, limits_in_set};
pub use names::{figure_name, lane_of, quantity_name, scope_name, unit_name};
pub use numbers::{figure_number, quantity_number, side_number, unit_number};
pub use observable::{Figure, Observable, Side, observable_of};
pub use observation::{MONITOR_PLACES, Observation, Subject, observation_at};
pub use observations::{all_observations, next_observation};
pub use pages::{absent_page, advertised_pages, has_observables};
pub use quantity::{Format, Quantity, QuantityRow, Scope, Unit, quantity_row};
pub use scientific::Scientific;
