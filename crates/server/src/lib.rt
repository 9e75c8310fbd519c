// Writes what the server of the older ivshmem device sends to its clients as they join and leave. The state goes in and comes back,
// and the messages are written to the front of a lent buffer.
#![tactic(auto)]

mod clients;
mod messages;
mod notices;
mod refusals;

ghost use Rattle.std.specs.Prelude.{◌≡◌, ◌≤◌, ◌<◌, true, false, length, Ok, MatchResult};
ghost use Rattle.reader.specs.Sizes.{ids};
ghost use Rattle.server.specs.Clients.{is_joined};
ghost use Rattle.server.specs.Messages.{buffer_bytes};
ghost use Rattle.server.specs.Serving.{in_range, started, refusal, refusal_number, started_as, served_as, join_as, leave_as, join, leave, Serves};

use clients::Clients;
use messages::{Message, Said, Writer};
use notices::Notice;
pub use refusals::Refusal;

// The room that every call wants: that of the largest join.
pub const BUFFER_BYTES: usize = 20350;

// Bit i of `joined` is 1 where id i is joined: a plain number and no `Clients`, since C has this struct.
#[repr(C)]
#[derive(Clone, Copy)]
pub struct Server {
    pub joined: u64,
    pub vectors: u64,
}

// An accepted call: the id that joined or left, how many messages there are, and the state.
#[derive(Clone, Copy)]
pub struct Accepted {
    pub id: u8,
    pub messages: usize,
    pub server: Server,
}

// What C gets for a start: a refusal's number or 0, and the state.
#[repr(C)]
#[derive(Drop)]
pub struct Started {
    pub number: u32,
    pub server: Server,
}

impl From<Result<Server, Refusal>> for Started {
    ghost from_gives = { λ start s. s ≡ started_as start };

    // A refused start has a state that every call refuses.
    fn from(start: Result<Server, Refusal>) -> Started {
        match start {
            Ok(server) => Started { number: 0, server },
            Err(refusal) => Started {
                number: refusal.number(),
                server: Server {
                    joined: 0,
                    vectors: 0,
                },
            },
        }
    }
}

// What C gets for a call: a refusal's number or 0, the id that joined or left, how many messages there are, and the state.
#[repr(C)]
#[derive(Drop)]
pub struct Served {
    pub number: u32,
    pub id: u32,
    pub messages: usize,
    pub server: Server,
}

impl Served {
    // A refused call leaves the state that it was handed.
    pub fn of(server: Server, call: Result<Accepted, Refusal>) -> Served
        ensures { result ≡ served_as server call }
    {
        match call {
            Ok(accepted) => Served {
                number: 0,
                id: u32::from(accepted.id),
                messages: accepted.messages,
                server: accepted.server,
            },
            Err(refusal) => Served {
                number: refusal.number(),
                id: 0,
                messages: 0,
                server,
            },
        }
    }
}

// A function of its own, since `start` and `check` both ask it, and it is the definition server/Serving.in_range.
#[tactic(auto, unfolding(crate::specs::Serving::in_range, reader::specs::Sizes::most_vectors))]
fn in_range(vectors: u64) -> bool
    ensures { result ≡ in_range vectors }
{
    1 <= vectors && vectors <= reader::MOST_VECTORS
}

// A server that nobody has joined.
#[tactic(auto, unfolding(crate::specs::Serving::started))]
pub fn start(vectors: u64) -> Result<Server, Refusal>
    ensures { started_as result ≡ started vectors }
{
    if in_range(vectors) {
        return Ok(Server { joined: 0, vectors });
    }
    Err(Refusal::VectorsOutOfRange)
}

// First a number of vectors outside its range is refused, then a buffer that is too small.
fn check(server: Server, room: usize) -> Result<(), Refusal>
    ensures { MatchResult result (λ _. refusal server room ≡ 0) (λ r. refusal server room ≡ refusal_number r) }
{
    if !in_range(server.vectors) {
        return Err(Refusal::StateUnsound);
    }
    if room < BUFFER_BYTES {
        return Err(Refusal::BufferTooSmall);
    }
    Ok(())
}

impl Writer<'_> {
    ghost use Rattle.server.specs.Parts.{HasRoom, Writes, start_bytes, join_bytes};

    // The version, the joiner's own id, and the memory.
    fn put_start(&mut self, id: u8)
        requires { HasRoom self.old (start_bytes id) }
        ensures { Writes self.old self.new (start_bytes id) }
    {
        for said in [Said::Version, Said::Id(id), Said::Memory] {
            self.put(Message { client: id, said });
        }
    }

    // All messages of a join.
    fn put_join(&mut self, joined: Clients, id: u8, vectors: usize)
        requires { HasRoom self.old (join_bytes joined.0 id vectors) }
        ensures { Writes self.old self.new (join_bytes joined.0 id vectors) }
    {
        let known = Notice::ToJoiner(id, vectors);
        let own = Message {
            client: id,
            said: Said::Vector(id),
        };
        let joiner = Notice::OfJoiner(id, vectors);
        self.put_start(id);
        self.put_notices(joined, known);
        self.put_times(own, vectors);
        self.put_notices(joined, joiner);
    }
}

// A join with an id that is free.
fn join_as(server: Server, id: u8, out: &mut [u8]) -> Accepted
    requires { (in_range server.vectors ≡ true) × (id < ids) × (is_joined server.joined id ≡ false) × (buffer_bytes ≤ length out.old) }
    ensures { Serves (join_as server id) out.old out.new (served_as server (Ok result)) }
{
    let joined = Clients(server.joined);
    let mut writer = Writer { out, messages: 0 };
    writer.put_join(joined, id, server.vectors as usize);
    Accepted {
        id,
        messages: writer.messages,
        server: Server {
            joined: joined.with(id).0,
            ..server
        },
    }
}

// The leave of an id that is joined.
fn leave_as(server: Server, id: u8, out: &mut [u8]) -> Accepted
    requires { (is_joined server.joined id ≡ true) × (buffer_bytes ≤ length out.old) }
    ensures { Serves (leave_as server id) out.old out.new (served_as server (Ok result)) }
{
    let staying = Clients(server.joined).without(id);
    let mut writer = Writer { out, messages: 0 };
    writer.put_notices(staying, Notice::OfLeaver(id));
    Accepted {
        id,
        messages: writer.messages,
        server: Server {
            joined: staying.0,
            ..server
        },
    }
}

// A client joins with the lowest free id, and is told what it has to know first; then the others are told of it. A refused call
// changes nothing.
pub fn join(server: Server, out: &mut [u8]) -> Result<Accepted, Refusal>
    ensures { Serves (join server (length out.old)) out.old out.new (served_as server result) }
{
    check(server, out.len())?;
    let id = Clients(server.joined)
        .lowest_free()
        .ok_or(Refusal::NoneFree)?;
    Ok(join_as(server, id, out))
}

// A client leaves, and those that stay are told. A refused call changes nothing.
pub fn leave(server: Server, id: u64, out: &mut [u8]) -> Result<Accepted, Refusal>
    ensures { Serves (leave server id (length out.old)) out.old out.new (served_as server result) }
{
    check(server, out.len())?;
    if !Clients(server.joined).contains(id) {
        return Err(Refusal::NotJoined);
    }
    Ok(leave_as(server, id as u8, out))
}
