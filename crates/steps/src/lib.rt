// An S line, as far as the alternatives that it adds: checks 8, 9 and 11 to 14. (Check 6 was asked
// when the line was taken apart.)
#![tactic(auto)]

mod asking;
mod checks;
mod inferring;
mod reading;

pub use asking::{Asked, ask};
pub use inferring::{Inference, infer};
