// What a read gives: the aligned word that it lies in, shifted down and cut to its width.
ghost use Rattle.std.specs.Prelude.{◌≡◌, ◌+◌, ◌-◌, ◌*◌, ◌%◌, ◌≤◌, ◌<◌, ◌^◌};
ghost use Rattle.device.specs.Configuration.{configuration_read};

use super::lanes;
use device::{Peer, Settings};

// Two registers of two bytes in one word.
fn halves(low: u64, high: u64) -> u64
    ensures { result ≡ low % 65536 + 65536 * (high % 65536) }
{
    low % 65536 + 65536 * (high % 65536)
}

// Three bytes, and a register of one byte as the word's last.
fn with_last(first: u64, last: u32) -> u64
    requires { first < 2 ^ 24 }
    ensures { result ≡ first + 16777216 * (last % 256) }
{
    first + 16777216 * (u64::from(last) % 256)
}

// The aligned word at an offset. Message Control reports V - 1 as the table size.
fn word(s: Settings, p: Peer, at: u64) -> u64
    requires { at % 4 ≡ 0 }
    ensures { result ≡ configuration_read s p at 4 }
{
    match at {
        0x00 => 0x4106110A,
        0x04 => halves(u64::from(p.command), 0x0010),
        0x08 => 0xFF000000 + 256 * (s.protocol % 65536),
        0x10 => u64::from(p.bar0),
        0x14 => u64::from(p.bar1),
        0x2C => halves(s.vendor, s.subsystem),
        0x34 => 0x40,
        0x40 => with_last(0x206009, p.privileged),
        0x44 => s.table % 4294967296,
        0x48 => s.common % 4294967296,
        0x4C => s.common / 4294967296,
        0x50 => s.output % 4294967296,
        0x54 => s.output / 4294967296,
        0x58 => s.base % 4294967296,
        0x5C => s.base / 4294967296,
        0x60 => with_last(
            0x11 + 65536 * (s.vectors.saturating_sub(1) % 256),
            p.message,
        ),
        0x64 => 0x00000001,
        0x68 => 0x00000801,
        _ => 0,
    }
}

// A read of some bytes of one word, little-endian: an aligned access of 1, 2 or 4 bytes lies in one.
// Arguments one by one, here and in `write`: the hub's `Caller`, which holds who reads, stands above this crate.
pub fn read(s: Settings, p: Peer, at: u64, width: u64) -> u64
    requires { at % 4 + width ≤ 4 }
    ensures is { result ≡ configuration_read s p at width }
    ensures fits { result < 2 ^ 32 }
{
    let place = at % 4;
    let whole = word(s, p, at - place);
    (whole >> (8 * place)) & lanes::enabled(0, width)
}
