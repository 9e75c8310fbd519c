// A record's bytes, which stand at the front of an array with room for the longest, and its fields, little-endian.
ghost use Rattle.std.specs.Prelude.{◌≡◌, ◌+◌, ◌≤◌, length, take, drop};
ghost use Rattle.playback.specs.Log.{field, settings_in, longest_record};

use device::Settings;

#[derive(Clone, Copy)]
pub struct Fields<'a> {
    pub bytes: &'a [u8; super::RECORD_BYTES],
}

impl<'a> Fields<'a> {
    // The bytes that a player holds.
    pub fn of(held: &'a [u8]) -> Fields<'a>
        requires { length held.now ≡ longest_record }
        ensures { result.bytes.now ≡ held.now }
    {
        Fields {
            bytes: held.as_array().unwrap(),
        }
    }

    fn part<const N: usize>(self, at: usize) -> [u8; N]
        requires { at + N ≤ longest_record }
        ensures { result ≡ take N (drop at self.entry.bytes.now) }
    {
        let bytes = self.bytes;
        *bytes[at..at + N].as_array().unwrap()
    }

    // Of the peer that calls.
    pub fn id(self) -> u64
        ensures { result ≡ field 1 2 self.entry.bytes.now }
    {
        u64::from(u16::from_le_bytes(self.part(1)))
    }

    // In a space of 256 or 4096 bytes.
    pub fn offset(self) -> u64
        ensures { result ≡ field 3 2 self.entry.bytes.now }
    {
        u64::from(u16::from_le_bytes(self.part(3)))
    }

    pub fn shared_offset(self) -> u64
        ensures { result ≡ field 3 4 self.entry.bytes.now }
    {
        u64::from(u32::from_le_bytes(self.part(3)))
    }

    // Of an access to configuration space.
    pub fn width(self) -> u64
        ensures { result ≡ field 5 1 self.entry.bytes.now }
    {
        u64::from(u8::from_le_bytes(self.part(5)))
    }

    // A value to be written stands behind the offset, or behind the width.
    pub fn value(self, at: usize) -> u32
        requires { at + 4 ≤ longest_record }
        ensures { result ≡ field at 4 self.entry.bytes.now }
    {
        u32::from_le_bytes(self.part(at))
    }

    pub fn settings(self) -> Settings
        ensures { result ≡ settings_in self.entry.bytes.now }
    {
        Settings {
            peers: u64::from(u16::from_le_bytes(self.part(1))),
            vectors: u64::from(u16::from_le_bytes(self.part(3))),
            table: u64::from(u32::from_le_bytes(self.part(5))),
            common: u64::from_le_bytes(self.part(9)),
            output: u64::from_le_bytes(self.part(17)),
            base: u64::from_le_bytes(self.part(25)),
            protocol: u64::from(u16::from_le_bytes(self.part(33))),
            vendor: u64::from(u16::from_le_bytes(self.part(35))),
            subsystem: u64::from(u16::from_le_bytes(self.part(37))),
        }
    }
}
