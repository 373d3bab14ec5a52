// The machine that makes the steps of the rules: pending places, the work, and one act at a time.

#![tactic(auto)]

mod acts;
mod run;
mod state;

pub use run::{Stand, go_on, start};
pub use state::{Ending, Frame, Machine, Pending, Place, Rule, Work};
