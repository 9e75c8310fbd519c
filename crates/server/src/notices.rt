// Messages for each client that is joined, ids ascending.
ghost use Rattle.std.specs.Prelude.{◌≡◌, ◌<◌};
ghost use Rattle.reader.specs.Sizes.{ids};
ghost use Rattle.server.specs.Clients.{joined_at, clients};
ghost use Rattle.server.specs.Parts.{notice_times, notice_to, notices_bytes};

use super::clients::Clients;
use super::messages::{Message, Said, Writer};

// What is said of one client and each of the others.
#[derive(Clone, Copy)]
pub enum Notice {
    // the joiner is told each other client's vectors
    ToJoiner(u8, usize),
    // each other client is told the joiner's vectors
    OfJoiner(u8, usize),
    // each other client is told that this one has left
    OfLeaver(u8),
}

impl Notice {
    // How many times each message comes: once for each vector.
    #[tactic(auto, unfolding(crate::specs::Parts::notice_times))]
    fn times(self) -> usize
        ensures { result ≡ notice_times self }
    {
        match self {
            Notice::ToJoiner(_, vectors) | Notice::OfJoiner(_, vectors) => vectors,
            Notice::OfLeaver(_) => 1,
        }
    }

    #[tactic(auto, unfolding(crate::specs::Parts::notice_to))]
    fn message(self, other: u8) -> Message
        ensures { result ≡ notice_to self other }
    {
        match self {
            Notice::ToJoiner(joiner, _) => Message {
                client: joiner,
                said: Said::Vector(other),
            },
            Notice::OfJoiner(joiner, _) => Message {
                client: other,
                said: Said::Vector(joiner),
            },
            Notice::OfLeaver(leaver) => Message {
                client: other,
                said: Said::Gone(leaver),
            },
        }
    }
}

impl Writer<'_> {
    ghost use Rattle.server.specs.Parts.{HasRoom, Writes};

    // The messages for one client, if it is joined.
    fn put_notice(&mut self, joined: Clients, notice: Notice, client: u64)
        requires id { client < ids }
        requires room { HasRoom self.old (notices_bytes notice (joined_at joined.0 client)) }
        ensures { Writes self.old self.new (notices_bytes notice (joined_at joined.0 client)) }
    {
        if joined.contains(client) {
            self.put_times(notice.message(client as u8), notice.times());
        }
    }

    // The messages for each client, up to the last one that is joined.
    pub fn put_notices(&mut self, joined: Clients, notice: Notice)
        requires { HasRoom self.old (notices_bytes notice (clients joined.0)) }
        ensures { Writes self.old self.new (notices_bytes notice (clients joined.0)) }
    {
        for client in 0..joined.end() {
            self.put_notice(joined, notice, client);
        }
    }
}
