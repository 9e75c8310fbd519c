// A record's bytes: those held and those of the input, and the signed number that the last eight make.
ghost use Rattle.std.specs.Prelude.{◌≡◌, ◌<◌, [], ◌∷◌, get_or};
ghost use Rattle.common.specs.Bytes.{number};
ghost use Rattle.common.specs.Lists.{tabulate};
ghost use Rattle.reader.specs.Parts.{placed, told, IdOf};
ghost use Rattle.reader.specs.Records.{signed, record_of, without_descriptor, with_descriptor};
ghost use Rattle.reader.specs.Steps.{is_version, is_memory};

// One byte of kind, and a number of eight.
pub const RECORD_BYTES: usize = 9;

// A whole record.
#[derive(Clone, Copy)]
pub struct Record {
    pub kind: u8,
    pub number: i64,
}

// The byte at place k: one of the input, where its bytes behind those held reach so far, else the one that was there.
fn place(bytes: [u8; 8], held: usize, input: &[u8], k: usize) -> u8
    requires { k < 8 }
    ensures { result ≡ placed bytes held input.now k }
{
    if k < held {
        return bytes[k];
    }
    input.get(k - held).copied().unwrap_or(bytes[k])
}

// The eight bytes with the input behind those held, as far as there is room. Place by place: with `copy_from_slice` the library calls
// the host's memcpy, where it calls nothing of the host's so (include/ivshmem_protocol.h), and a record in two pieces takes 1.18 of
// the time.
pub fn gathered(bytes: [u8; 8], held: usize, input: &[u8]) -> [u8; 8]
    ensures { result ≡ tabulate 8 (placed bytes held input.now) }
{
    let mut gathered = bytes;
    for k in 0..8 {
        gathered[k] = place(bytes, held, input, k);
    }
    gathered
}

// Two's complement of 64 bits. By hand, since the rules of the project name this form.
fn as_signed(x: u64) -> i64
    ensures { result ≡ signed x }
{
    if x < 0x8000_0000_0000_0000 {
        return x as i64;
    }
    -1 - ((0xFFFF_FFFF_FFFF_FFFF - x) as i64)
}

// The number behind the kind, its last byte apart.
fn number(bytes: [u8; 8], last: u8) -> i64
    ensures { result ≡ signed (number (get_or bytes 1 0 ∷ get_or bytes 2 0 ∷ get_or bytes 3 0 ∷ get_or bytes 4 0
        ∷ get_or bytes 5 0 ∷ get_or bytes 6 0 ∷ get_or bytes 7 0 ∷ last ∷ [])) }
{
    let number = u64::from_le_bytes([
        bytes[1], bytes[2], bytes[3], bytes[4], bytes[5], bytes[6], bytes[7], last,
    ]);
    as_signed(number)
}

impl Record {
    // Of its first eight bytes and its last.
    pub fn whole(bytes: [u8; 8], last: u8) -> Record
        ensures { told result ≡ record_of (get_or bytes 0 0) (signed (number (get_or bytes 1 0 ∷ get_or bytes 2 0 ∷ get_or bytes 3 0
            ∷ get_or bytes 4 0 ∷ get_or bytes 5 0 ∷ get_or bytes 6 0 ∷ get_or bytes 7 0 ∷ last ∷ []))) }
    {
        Record {
            kind: bytes[0],
            number: number(bytes, last),
        }
    }

    pub fn without_descriptor(self) -> bool
        ensures { result ≡ without_descriptor (told self) }
    {
        self.kind == 0
    }

    pub fn with_descriptor(self) -> bool
        ensures { result ≡ with_descriptor (told self) }
    {
        self.kind == 1
    }

    pub fn is_version(self) -> bool
        ensures { result ≡ is_version (told self).value }
    {
        self.number == 0
    }

    pub fn is_memory(self) -> bool
        ensures { result ≡ is_memory (told self).value }
    {
        self.number == -1
    }

    // The id that the number is, if it is one. By two comparisons: with `u8::try_from` a record takes 1.08 of the time.
    pub fn id(self) -> Option<u8>
        ensures { IdOf (told self).value result }
    {
        let named = (0 <= self.number) & (self.number < super::IDS as i64);
        if named {
            return Some(self.number as u8);
        }
        None
    }
}
