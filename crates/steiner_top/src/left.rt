use lift_back::{Reduced, Step};

// What steps leave of an instance, and the steps.
#[derive(Drop)]
pub struct Left {
    pub steps: Vec<Step>,
    pub reduced: Reduced,
}
