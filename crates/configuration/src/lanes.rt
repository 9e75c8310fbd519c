// The bytes that an access takes of the aligned word that it lies in, and what a write leaves of them.
ghost use Rattle.std.specs.Prelude.{◌≡◌, ◌+◌, ◌≤◌, ◌<◌};
ghost use Rattle.std.specs.Int.Bits.{bit_and};
ghost use Rattle.configuration.specs.Parts.{lanes, merge_word, merge_last};

// The bits of the byte lanes that an access of `width` bytes enables, `place` bytes into the word.
pub fn enabled(place: u64, width: u64) -> u64
    requires { place + width ≤ 4 }
    ensures { result ≡ lanes place width }
{
    ((1 << (8 * width)) - 1) << (8 * place)
}

// A write as its word sees it: the bits of the enabled lanes, and the value at its place.
#[derive(Clone, Copy)]
pub struct Stored {
    pub bits: u64,
    pub new: u64,
}

impl Stored {
    // The old word with the mask's bits, in the enabled lanes, taken from the new one.
    pub fn merged(self, mask: u32, old: u32) -> u32
        ensures { result ≡ merge_word (bit_and self.bits mask) old self.new }
    {
        let m = self.bits & u64::from(mask);
        (old & !(m as u32)) | ((self.new & m) as u32)
    }

    // The same for a register that is the last byte of its word. With that lane off it stays as it is, any bits above a byte too.
    // No call of `merged`, which would keep those bits with the lane on: `merge_last` drops them.
    pub fn merged_last(self, mask: u32, old: u32) -> u32
        requires { mask < 256 }
        ensures { result ≡ merge_last self.bits mask old self.new }
    {
        if self.bits < 16777216 {
            return old;
        }
        (old & (255 - mask)) | (((self.new / 16777216) & u64::from(mask)) as u32)
    }
}
