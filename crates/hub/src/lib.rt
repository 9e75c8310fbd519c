// The calls of the hub. Each answers for any input, refuses by the number of the rules, and promises the parts of `step`.
// Words and region are two parameters everywhere: the C interface lends them apart, and some calls have the words alone.
// Id, offset and width are apart too: so C's calls and the constructors of `Act` take them.
#![tactic(auto)]

mod announcing;
mod joining;
mod queries;
mod reads;
mod reasons;
mod refusals;
mod shared;
mod writes;

pub use announcing::{disconnect, register_write, reset};
pub use joining::{connect, set_up};
pub use queries::{is_connected, is_sound};
pub use reads::{configuration_read, msix_read, register_read, section_question};
pub use reasons::Refusal;
pub use shared::{load, store};
pub use writes::{configuration_write, msix_write};
