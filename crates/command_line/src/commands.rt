//! The program's commands: each reads its whole input and writes one answer.
mod check_command;
mod command;
mod inactive;
mod inputs;
mod metrics_command;
mod outcome;
mod over_bus;
mod plan_command;
mod planning_inputs;
mod provision_command;
mod report_commands;
mod session;

pub use command::run;
