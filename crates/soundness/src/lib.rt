// Refusal 10: the hub handed in is sound. The tests of a slot's parts, then of the whole hub.
#![tactic(auto)]

mod absent;
mod parts;
mod runs;
mod setup;
mod slots;
mod whole;

pub use setup::{accepted, total};
pub use whole::sound;
