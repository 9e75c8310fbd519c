// The MSI-X region: where an offset lies, and the words of an entry, read and written.
#![tactic(auto)]

ghost use Rattle.std.specs.Prelude.{◌≡◌};
ghost use Rattle.device.specs.Msix.{in_table, entry_word, with_word};

use device::{Entry, Settings};

// An offset lies in an entry of a vector that the device has.
#[tactic(auto, unfolding(device::specs::Msix::in_table))]
pub fn in_table(s: Settings, at: u64) -> bool
    ensures { result ≡ in_table s at }
{
    at / 16 < s.vectors
}

// The word of an entry that an offset names. A number, here and in `with_word`: `entry_word` and `with_word` of the definitions take it.
#[tactic(auto, unfolding(device::specs::Msix::entry_word))]
pub fn word(e: Entry, k: u64) -> u32
    ensures { result ≡ entry_word e k }
{
    match k {
        0 => e.low,
        1 => e.high,
        2 => e.payload,
        _ => e.control,
    }
}

// An entry with one word stored to: fixed bits stay 0, and the words of address high and data have none.
#[tactic(auto, unfolding(device::specs::Msix::with_word))]
pub fn with_word(e: Entry, k: u64, value: u32) -> Entry
    ensures { result ≡ with_word e k value }
{
    match k {
        0 => Entry {
            low: value & 0xFFFFFFFC,
            ..e
        },
        1 => Entry { high: value, ..e },
        2 => Entry {
            payload: value,
            ..e
        },
        3 => Entry {
            control: value & 0x00000001,
            ..e
        },
        _ => e,
    }
}
