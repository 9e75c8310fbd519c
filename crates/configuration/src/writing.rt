// What a write leaves: only the bits of the mask change, and only in the register of the word that it lies in.
ghost use Rattle.std.specs.Prelude.{◌≡◌, ◌+◌, ◌%◌, ◌≤◌};
ghost use Rattle.device.specs.Configuration.{configuration_written};
ghost use Rattle.configuration.specs.Parts.{word_written};

use super::lanes;
use super::lanes::Stored;
use device::{Peer, Settings};

// The word at an offset written. The masks could depend on the settings; none does today.
#[tactic(auto, unfolding(crate::specs::Parts::word_written, device::specs::Configuration::mask_of, device::specs::Configuration::mask_at, device::specs::Configuration::mask_in, device::specs::Configuration::masks))]
fn write_word(s: Settings, p: Peer, at: u64, stored: Stored) -> Peer
    ensures { result ≡ word_written s p at stored.bits stored.new }
{
    match at {
        0x04 => Peer {
            command: stored.merged(0x0406, p.command),
            ..p
        },
        0x10 => Peer {
            bar0: stored.merged(0xFFFFF000, p.bar0),
            ..p
        },
        0x14 => Peer {
            bar1: stored.merged(0xFFFFF000, p.bar1),
            ..p
        },
        0x40 => Peer {
            privileged: stored.merged_last(0x01, p.privileged),
            ..p
        },
        0x60 => Peer {
            message: stored.merged_last(0xC0, p.message),
            ..p
        },
        _ => p,
    }
}

// A write of some bytes of one word: the low bytes of the value, from the lowest.
#[tactic(auto, using(crate::proofs::WriteLaws::written_word))]
pub fn write(s: Settings, p: Peer, at: u64, width: u64, value: u64) -> Peer
    requires { at % 4 + width ≤ 4 }
    ensures { result ≡ configuration_written s p at width value }
{
    let place = at % 4;
    let stored = Stored {
        bits: lanes::enabled(place, width),
        new: value << (8 * place),
    };
    write_word(s, p, at - place, stored)
}
