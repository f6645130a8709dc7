use applications::{Advert, AppWeights};
use plan_certificate::Plan;

/// What a plan is wanted for: a module, by what it advertises and by whether it pairs first lanes; what its paths weigh; and the
/// paths that each plan has to hold.
#[derive(Clone, Copy)]
pub struct Problem<'a> {
    pub advert: &'a Advert,
    pub weights: &'a AppWeights,
    pub kept: &'a Plan,
}
