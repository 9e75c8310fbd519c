// Configuration space: what a read gives, and what a write leaves.
#![tactic(auto)]

mod lanes;
mod reading;
mod writing;

pub use reading::read;
pub use writing::write;
