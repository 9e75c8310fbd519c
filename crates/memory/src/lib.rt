// The shared region's bytes: cleared, loaded, stored, and the four bytes of a State Table entry.
#![tactic(auto)]

ghost use Rattle.std.specs.Prelude.{◌≡◌, ◌+◌, ◌*◌, ◌≤◌, length, take, drop, replicate};
ghost use Rattle.std.proofs.lemmas.List.Edits.{sets};
ghost use Rattle.common.specs.Bytes.{bytes};

pub fn clear(region: &mut [u8])
    ensures { region.new ≡ replicate (length region.old) 0 }
{
    region.fill(0);
}

// Byte by byte, and not the slice's own `copy_from_slice`: that calls the host's memmove, and a host supplies memset alone.
fn copy(part: &mut [u8], bytes: &[u8])
    requires { length bytes.now ≡ length part.old }
    ensures { part.new ≡ bytes.now }
{
    for (k, byte) in bytes.iter().enumerate() {
        part[k] = *byte;
    }
}

// Fills the buffer with the bytes from an offset on.
pub fn load(region: &[u8], offset: usize, buffer: &mut [u8])
    requires { offset + length buffer.old ≤ length region.now }
    ensures { buffer.new ≡ take (length buffer.old) (drop offset region.now) }
{
    let end = offset + buffer.len();
    copy(buffer, &region[offset..end]);
}

// Stores bytes from an offset on, and changes no other byte.
#[tactic(auto, using(common::proofs::StoredLaws::part_back))]
pub fn store(region: &mut [u8], offset: usize, stored: &[u8])
    requires { offset + length stored.now ≤ length region.old }
    ensures { region.new ≡ sets region.old offset stored.now }
{
    let end = offset + stored.len();
    copy(&mut region[offset..end], stored);
}

// A word's four bytes, little-endian.
#[tactic(auto, using(common::proofs::StoredLaws::four_bytes))]
fn put_word(entry: &mut [u8], value: u32)
    requires { length entry.old ≡ 4 }
    ensures { «entry».new ≡ bytes 4 value }
{
    entry.copy_from_slice(&value.to_le_bytes());
}

// The State Table entry of a peer takes a value: its four bytes are lent on from the middle of the region.
#[tactic(auto, using(common::proofs::StoredLaws::part_back, common::proofs::ByteLaws::length_bytes))]
pub fn put_state(region: &mut [u8], id: usize, value: u32)
    requires { 4 * id + 4 ≤ length region.old }
    ensures { region.new ≡ sets region.old (4 * id) (bytes 4 value) }
{
    let from = 4 * id;
    let to = from + 4;
    put_word(&mut region[from..to], value);
}
