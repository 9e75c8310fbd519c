// Several words of the hub at once.
ghost use Rattle.std.specs.Prelude.{◌≡◌, ℕ, ◌+◌, ◌*◌, ◌<◌, ◌≤◌, length, replicate};
ghost use Rattle.words.specs.Parts.{peer_from, entry_from, entry_words, Copied};

use device::{Entry, Peer};

// By hand, here and in `entry_from`, for the reason given at `header::settings_words`.
pub fn peer_from(hub: &[u32], at: usize) -> Peer
    requires { at + 8 ≤ length hub.now }
    ensures { result ≡ peer_from hub.now at }
{
    Peer {
        connected: hub[at],
        command: hub[at + 1],
        bar0: hub[at + 2],
        bar1: hub[at + 3],
        privileged: hub[at + 4],
        message: hub[at + 5],
        interrupt: hub[at + 6],
        state: hub[at + 7],
    }
}

pub fn entry_from(hub: &[u32], at: usize, step: usize) -> Entry
    requires { at + 3 * step < length hub.now }
    ensures { result ≡ entry_from hub.now at step }
{
    Entry {
        low: hub[at],
        high: hub[at + step],
        payload: hub[at + 2 * step],
        control: hub[at + 3 * step],
    }
}

// Stores an entry's words from a place on, each a step further.
pub fn put_entry(hub: &mut [u32], at: usize, step: usize, e: Entry)
    requires apart { 0 < step }
    requires inside { at + 3 * step < length hub.old }
    ensures { Copied hub.old hub.new (λ k. at + k * step) (entry_words e) 4 }
{
    hub[at] = e.low;
    hub[at + step] = e.high;
    hub[at + 2 * step] = e.payload;
    hub[at + 3 * step] = e.control;
}

// The same value in all words of a part.
// Not the slice's own `fill`: that stores the last word apart, and a set-up of a hub of 4 peers takes 1.05 of the time with it.
pub fn fill(part: &mut [u32], value: u32)
    ensures { part.new ≡ replicate (length part.old) value }
{
    for word in part.iter_mut() {
        *word = value;
    }
}
