// What the hub's words and the region hold before and after a call.
use std::fmt;

// Room for the largest hub and one word too many.
pub const MEMORY_WORDS: usize = words::MAX_HUB_WORDS + 1;

// Room for a region that is one byte too long.
pub const REGION_BYTES: usize = 36865;

pub type Memory = [u32; MEMORY_WORDS];

pub type Region = [u8; REGION_BYTES];

// The region, the words and a buffer before a call that is to replace them or keep them whole.
pub const OLD_BYTE: u8 = 0xA5;

pub const OLD_WORD: u32 = 0x5A5A5A5A;

pub fn all_are<T: PartialEq + Drop>(items: &[T], value: T) -> bool {
    items.iter().all(|x| *x == value)
}

// The first and the last place where the region differs from what it was.
#[derive(Drop)]
pub struct Change {
    first: usize,
    last: usize,
}

impl Change {
    pub fn between(before: &Region, after: &Region) -> Option<Self> {
        let first = before.iter().zip(after).position(|(x, y)| x != y)?;
        // From the end, and no `rposition` of the pairs, which takes several times as long.
        let mut back = before.iter().rev().zip(after.iter().rev());
        let behind = back.position(|(x, y)| x != y)?;
        Some(Self {
            first,
            last: REGION_BYTES - 1 - behind,
        })
    }
}

impl fmt::Display for Change {
    fn fmt<W: fmt::Write>(&self, f: &mut fmt::Formatter<W>) -> fmt::Result {
        let Self { first, last } = self;
        write!(f, ", bytes {first} to {last} changed")
    }
}
