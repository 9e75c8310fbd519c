// One ring: the target's switches, and what a delivery leaves.
#![tactic(auto)]

mod lent;
mod rings;
mod switches;

use lent::pass_local;
pub use rings::ring;
use switches::{gate_of, opens, passed_gate};
