// The hub as an array of words that the host lends: the only crate that knows where what stands. Each contract speaks of the
// hub that the words are.
#![tactic(auto)]

// `Known` and `fits` stay clauses, here and in gate, deliveries and hub: a struct would borrow the words, which these calls go on to
// change. `Entries`, and `Slots` of soundness, are for words that are only read.

mod columns;
mod entries;
mod header;
mod parts;
mod peers;
mod sizes;
mod slots;

pub use columns::{entries_only, entries_reset};
pub use entries::{Entries, entry, put_entry};
pub use header::{joined, put_settings, settings};
pub use peers::{peer, put_peer};
pub use sizes::{Counts, counts_of, fits, hub_words};
pub use slots::{put_fresh, put_reset, put_zero};

// The words of the largest hub. The formula of `hub_words` once more: a constant calls no function.
pub const MAX_HUB_WORDS: usize = 10
    + 8 * device::MAX_PEERS
    + 4 * (device::MAX_PEERS * device::MAX_VECTORS);
