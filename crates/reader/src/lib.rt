// Reads what the server of the older ivshmem device sends to its clients: records of nine bytes, cut anywhere. A call takes bytes
// through the end of one record at the most. The vector counts are lent, and the rest of the progress goes in and comes back.
#![tactic(auto)]

mod records;
mod refusals;
mod steps;

ghost use Rattle.std.specs.Prelude.{◌≡◌};
ghost use Rattle.reader.specs.Parts.{step_number};
ghost use Rattle.reader.specs.Reading.{state, gives, answered, refusal, read, accepted};

use records::Record;
pub use refusals::Refusal;
use steps::{Known, Step};

// The ids that are accepted are those below this number, and each has a count; the most vectors that can be configured.
pub const IDS: usize = 64;

pub const MOST_VECTORS: u64 = 16;

// How far the reader has come, beside the counts. All zero is the start. It crosses to C (`ivshmem_protocol_read`), so that it has
// a number for the step, a 0 for no id, and a count beside the bytes.
#[repr(C)]
#[derive(Clone, Copy)]
pub struct Progress {
    // the number of the step that is due (`Step` in steps.rt)
    pub due: u32,
    // our own id, 0 until it is known
    pub own: u32,
    // how many bytes of a record that is not whole are held, and the bytes
    pub held: usize,
    pub bytes: [u8; 8],
}

// What a record says.
#[derive(Clone, Copy)]
pub enum Message {
    // No whole record yet: more bytes are wanted. One of the messages and no `Option`, since C reads it as message 0 (`numbers_of`).
    More,
    // the version is 0
    Version,
    // our own id
    Id(u8),
    // the shared memory's descriptor came with it
    Memory,
    // the descriptor of a vector: whose, and how many it has now
    Vector(u8, u8),
    // the same beyond the configured number: nothing is counted
    Extra(u8, u8),
    // a peer has left
    Disconnected(u8),
    // this record, or an earlier one, is not allowed at its step
    Closed,
}

// What a call answers that is not refused: the message, the bytes taken of the input, and the progress.
#[derive(Drop)]
pub struct Answer {
    pub message: Message,
    pub taken: usize,
    pub progress: Progress,
}

// A call that is not refused, with the step that is due.
fn accepted(step: Step, progress: Progress, counts: &mut [u8], vectors: u64, input: &[u8]) -> Answer
    requires due { progress.due ≡ step_number step }
    requires good { refusal vectors (state progress counts.old) ≡ 0 }
    ensures { gives result.message result.taken (state result.progress counts.new) ≡ accepted vectors (state progress counts.old) input.now }
{
    let held = progress.held;
    let bytes = records::gathered(progress.bytes, held, input);
    let wanted = records::RECORD_BYTES - held;
    if input.len() < wanted {
        return Answer {
            message: Message::More,
            taken: input.len(),
            progress: Progress {
                held: held + input.len(),
                bytes,
                ..progress
            },
        };
    }
    let heard = Record::whole(bytes, input[wanted - 1]);
    let mut known = Known {
        step,
        own: progress.own,
        counts,
        vectors,
    };
    let message = known.read_record(heard);
    Answer {
        message,
        taken: wanted,
        progress: Progress {
            due: known.step.number(),
            own: known.own,
            held: 0,
            bytes: [0; 8],
        },
    }
}

// Takes the input's bytes through the end of the first whole record, and answers what it says. Without one all of them are held,
// and the answer is that more is wanted. A refused call changes nothing.
pub fn read(
    progress: Progress,
    counts: &mut [u8],
    vectors: u64,
    input: &[u8],
) -> Result<Answer, Refusal>
    ensures { answered result progress counts.new ≡ read vectors (state progress counts.old) input.now }
{
    let step = refusals::due(progress, counts, vectors)?;
    Ok(accepted(step, progress, counts, vectors, input))
}
