// The calls with which a host reads what the server of the older ivshmem device sends, or is that server;
// crates/ivshmem_protocol_c exports them. Numbers are plain and memory is lent.
#![tactic(auto)]

ghost use Rattle.std.specs.Prelude.{◌≡◌, length};
ghost use Rattle.ivshmem_protocol.specs.Promises.{ReadsInNumbers, numbers_of};
ghost use Rattle.server.specs.Serving.{Serves, started, join, leave};

use reader::{Answer, Message, Progress};
use server::{Served, Server, Started};

// A message in numbers: its own number, the id that it names, and the vectors that the id has then.
#[derive(Drop)]
pub struct MessageNumbers {
    pub message: u32,
    pub id: u32,
    pub count: u32,
}

// The answer to a call: a refusal's number or 0, the message in numbers, the bytes taken of the input, and the progress. It crosses
// to C (`ivshmem_protocol_read`), which has no Result.
#[repr(C)]
#[derive(Drop)]
pub struct ReadNumbers {
    pub number: u32,
    pub message: u32,
    pub id: u32,
    pub count: u32,
    pub taken: usize,
    pub progress: Progress,
}

impl MessageNumbers {
    fn new(message: u32, id: u8, count: u8) -> MessageNumbers
        ensures { result ≡ record { message = message; id = id; count = count } }
    {
        MessageNumbers {
            message,
            id: u32::from(id),
            count: u32::from(count),
        }
    }
}

impl From<Message> for MessageNumbers {
    ghost from_gives = { λ m n. n ≡ numbers_of m };

    fn from(m: Message) -> MessageNumbers {
        match m {
            Message::More => MessageNumbers::new(0, 0, 0),
            Message::Version => MessageNumbers::new(1, 0, 0),
            Message::Id(id) => MessageNumbers::new(2, id, 0),
            Message::Memory => MessageNumbers::new(3, 0, 0),
            Message::Vector(id, count) => MessageNumbers::new(4, id, count),
            Message::Extra(id, count) => MessageNumbers::new(5, id, count),
            Message::Disconnected(id) => MessageNumbers::new(6, id, 0),
            Message::Closed => MessageNumbers::new(7, 0, 0),
        }
    }
}

// The number of this interface. It stands in the function's name, so that what was compiled for another one does not link.
pub fn ivshmem_protocol_interface_1() -> u32
    ensures { result ≡ 1 }
{
    1
}

// `reader::read`, in numbers; beside a refusal's number nothing is said, and the progress is the one that was handed in.
pub fn ivshmem_protocol_read(
    progress: Progress,
    counts: &mut [u8],
    vectors: u64,
    input: &[u8],
) -> ReadNumbers
    ensures { ReadsInNumbers vectors progress counts.old counts.new input.now result }
{
    let (number, answer) = match reader::read(progress, counts, vectors, input) {
        Ok(answer) => (0, answer),
        Err(refusal) => (
            refusal.number(),
            Answer {
                message: Message::More,
                taken: 0,
                progress,
            },
        ),
    };
    let said = MessageNumbers::from(answer.message);
    ReadNumbers {
        number,
        message: said.message,
        id: said.id,
        count: said.count,
        taken: answer.taken,
        progress: answer.progress,
    }
}

// `server::start`, its answer in numbers.
pub fn ivshmem_protocol_start(vectors: u64) -> Started
    ensures { result ≡ started vectors }
{
    Started::from(server::start(vectors))
}

// `server::join`, its answer in numbers.
pub fn ivshmem_protocol_join(server: Server, buffer: &mut [u8]) -> Served
    ensures { Serves (join server (length buffer.old)) buffer.old buffer.new result }
{
    Served::of(server, server::join(server, buffer))
}

// `server::leave`, its answer in numbers.
pub fn ivshmem_protocol_leave(server: Server, id: u64, buffer: &mut [u8]) -> Served
    ensures { Serves (leave server id (length buffer.old)) buffer.old buffer.new result }
{
    Served::of(server, server::leave(server, id, buffer))
}
