// Plays a log: it is fed in pieces, cut anywhere, and its answers are written to a lent buffer. Hub, region and the bytes held of a
// record that is not whole yet are lent too, and the rest of the progress goes in and comes back. No call copies the hub.
// Everywhere what is lent and the progress are parameters: a struct of the references needs a clause for each that it still is the
// caller's.
#![tactic(auto)]

mod answers;
mod calls;
mod fields;
mod kinds;
mod records;

ghost use Rattle.std.specs.Prelude.{◌≡◌, ℕ, ◌≤◌, List, length, IfOk, OnOk, OnErr};
ghost use Rattle.playback.specs.Answers.{longest};
ghost use Rattle.playback.specs.Player.{fed, fresh};
ghost use Rattle.playback.specs.Promises.{anew, Lent, Goes, Feeds, Refuses, Ends, player_in, is_lent, refusal_of, refusal_number, refusal_in};

use fields::Fields;
use std::error::Error;
use std::fmt;

// Where a player stands, beside what its lent memory holds: `player_in` and `anew` of specs/Promises.antt take its numbers and its
// flag so.
#[derive(Clone, Copy)]
pub struct Progress {
    // the words and the bytes of the lent memory that are the hub and its region: none without an accepted set-up
    pub words: usize,
    pub bytes: usize,
    // the bytes held of a record that is not whole yet
    pub held: usize,
    // an unknown kind has come
    pub stopped: bool,
}

impl Progress {
    // Nothing held, no hub: whatever the lent memory holds.
    pub fn start() -> Progress
        ensures fresh { (hub region held : List ℕ) → player_in hub region held result ≡ fresh }
        ensures none { result ≡ anew }
    {
        Progress {
            words: 0,
            bytes: 0,
            held: 0,
            stopped: false,
        }
    }
}

// The answer to a piece: the progress, the bytes taken of the piece, and the bytes written to the front of the buffer.
#[derive(Clone, Copy)]
pub struct Report {
    pub progress: Progress,
    pub taken: usize,
    pub written: usize,
}

// Why nothing is taken.
#[derive(Clone, Copy, Debug, PartialEq, Eq)]
pub enum Refusal {
    OtherMemory = 10,
    ShortBuffer = 11,
}

impl Refusal {
    pub fn number(self) -> u32
        ensures { result ≡ refusal_number self }
    {
        self as u32
    }
}

impl fmt::Display for Refusal {
    fn fmt<W: fmt::Write>(&self, f: &mut fmt::Formatter<W>) -> fmt::Result {
        f.write_str(match self {
            Refusal::OtherMemory =>
                "the lent memory has other lengths, or the progress does not lie within it",
            Refusal::ShortBuffer => "the buffer has no room for the longest answer",
        })
    }
}

impl Error for Refusal {}

// What a whole record leaves: no `Report`, since its bytes are always taken.
#[derive(Clone, Copy)]
struct Taken {
    progress: Progress,
    written: usize,
}

// The bytes of the longest record, a set-up's, and of the largest region.
pub const RECORD_BYTES: usize = 39;

pub const REGION_BYTES: usize = 32768;

// Done, and a delivery to each peer.
const LONGEST_ANSWER: usize = 1 + 17 * device::MAX_PEERS;

// No answer has more bytes. The number is a constant beside it, since the length of an array calls no function.
pub fn longest_answer() -> usize
    ensures { result ≡ longest }
{
    LONGEST_ANSWER
}

// The lent memory has the lengths that any log needs, and the progress lies within it.
fn lent(hub: &[u32], region: &[u8], held: &[u8], p: Progress) -> bool
    ensures { result ≡ is_lent hub.now region.now held.now p }
{
    (hub.len() == words::hub_words(device::max_peers(), device::max_vectors()))
        & (region.len() == REGION_BYTES)
        & (held.len() == RECORD_BYTES)
        & (p.words <= hub.len())
        & (p.bytes <= region.len())
        & (p.held < held.len())
}

// The memory first, then a buffer's room for the longest answer.
fn admit(hub: &[u32], region: &[u8], held: &[u8], p: Progress, room: usize) -> Result<(), Refusal>
    ensures is { refusal_in result ≡ refusal_of hub.now region.now held.now p room }
    ensures facts { OnOk result (Lent hub.now region.now held.now p × (longest ≤ room)) }
{
    if !lent(hub, region, held, p) {
        return Err(Refusal::OtherMemory);
    }
    if room < longest_answer() {
        return Err(Refusal::ShortBuffer);
    }
    Ok(())
}

// One byte more: the bytes written. The progress is changed where it stands: handed on by value it is copied, with its padding, for each
// byte.
fn take_byte(
    hub: &mut [u32],
    region: &mut [u8],
    held: &mut [u8],
    p: &mut Progress,
    byte: u8,
    out: &mut [u8],
) -> usize
    requires lent { Lent hub.old region.old held.old p.old }
    requires room { longest ≤ length out.old }
    ensures { Goes hub.new region.new held.new out.old out.new p.new result (fed (player_in hub.old region.old held.old p.old) byte) }
{
    if p.stopped {
        return 0;
    }
    let at = p.held;
    held[at] = byte;
    let n = at + 1;
    if n < records::length(held[0]) {
        p.held = n;
        return 0;
    }
    match out.first_chunk_mut() {
        Some(room) => {
            let t = records::answer(hub, region, Fields::of(held), *p, room);
            *p = t.progress;
            t.written
        }
        None => unreachable!(),
    }
}

// Takes the bytes of a piece, all of them or as many as the buffer has room for, and writes their answers.
fn feed_lent(
    hub: &mut [u32],
    region: &mut [u8],
    held: &mut [u8],
    progress: Progress,
    piece: &[u8],
    out: &mut [u8],
) -> Report
    requires lent { Lent hub.old region.old held.old progress }
    requires room { longest ≤ length out.old }
    ensures { Feeds (player_in hub.old region.old held.old progress) hub.new
        region.new held.new piece.now out.old out.new result }
{
    let last = out.len() - longest_answer();
    let mut progress = progress;
    let mut written = 0;
    for (taken, byte) in piece.iter().enumerate() {
        // Tested by number: where an array is taken of a part of the buffer, nothing is known of that part afterwards.
        if last < written {
            return Report {
                progress,
                taken,
                written,
            };
        }
        let more = take_byte(hub, region, held, &mut progress, *byte, &mut out[written..]);
        written += more;
    }
    Report {
        progress,
        taken: piece.len(),
        written,
    }
}

// Feeds a piece: its bytes are taken, all of them or as many as the buffer has room for, and what they are answered by is written
// to the front of the buffer. A caller writes that out, and feeds the rest of the piece.
pub fn feed(
    hub: &mut [u32],
    region: &mut [u8],
    held: &mut [u8],
    progress: Progress,
    piece: &[u8],
    out: &mut [u8],
) -> Result<Report, Refusal>
    ensures number { refusal_in result ≡ refusal_of hub.old region.old held.old progress (length out.old) }
    ensures refused { OnErr result (Refuses hub.old hub.new region.old region.new held.old held.new out.old out.new) }
    ensures fed { IfOk result (λ r. Feeds (player_in hub.old region.old held.old progress)
        hub.new region.new held.new piece.now out.old out.new r) }
{
    admit(hub, region, held, progress, out.len())?;
    Ok(feed_lent(hub, region, held, progress, piece, out))
}

// The end of the input: 84 inside a record. The bytes written.
pub fn finish(
    hub: &[u32],
    region: &[u8],
    held: &[u8],
    progress: Progress,
    out: &mut [u8],
) -> Result<usize, Refusal>
    ensures { Ends hub.now region.now held.now out.old out.new progress result }
{
    admit(hub, region, held, progress, out.len())?;
    if progress.stopped | (progress.held == 0) {
        return Ok(0);
    }
    out[0] = 0x84;
    Ok(1)
}
