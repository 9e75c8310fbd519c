// Messages in a lent buffer: one byte of client id, and a record of nine.
ghost use Rattle.std.specs.Prelude.{◌≡◌};
ghost use Rattle.reader.specs.Records.{Record};
ghost use Rattle.server.specs.Messages.{unsigned};
ghost use Rattle.server.specs.Parts.{record_of_said, written, written_times};

const SENT_BYTES: usize = 10;

// What a message says.
#[derive(Clone, Copy)]
pub enum Said {
    Version,
    // the client's own id
    Id(u8),
    Memory,
    // a vector of the client with this id
    Vector(u8),
    // the client with this id has left
    Gone(u8),
}

impl Said {
    // The kind of its record: 1 with a descriptor.
    fn kind(self) -> u8
        ensures { result ≡ (record_of_said self).kind }
    {
        match self {
            Said::Version | Said::Id(_) | Said::Gone(_) => 0,
            Said::Memory | Said::Vector(_) => 1,
        }
    }

    // The 64 bits of its number: an id, or -1.
    #[tactic(auto, unfolding(crate::specs::Messages::unsigned))]
    fn number(self) -> u64
        ensures { result ≡ unsigned (record_of_said self).value }
    {
        match self {
            Said::Version => 0,
            Said::Memory => u64::MAX,
            Said::Id(id) | Said::Vector(id) | Said::Gone(id) => u64::from(id),
        }
    }
}

// A message for one client.
#[derive(Clone, Copy)]
pub struct Message {
    pub client: u8,
    pub said: Said,
}

// The lent buffer, and how many messages stand at its front.
#[derive(Drop)]
pub struct Writer<'a> {
    pub out: &'a mut [u8],
    pub messages: usize,
}

impl Writer<'_> {
    ghost use Rattle.server.specs.Parts.{HasRoom, Writes};

    // One message more.
    pub fn put(&mut self, message: Message)
        requires { HasRoom self.old (written message) }
        ensures { Writes self.old self.new (written message) }
    {
        let at = SENT_BYTES * self.messages;
        let number = message.said.number();
        self.out[at] = message.client;
        self.out[at + 1] = message.said.kind();
        self.out[at + 2..at + SENT_BYTES].copy_from_slice(&number.to_le_bytes());
        self.messages += 1;
    }

    // The same message several times.
    pub fn put_times(&mut self, message: Message, times: usize)
        requires { HasRoom self.old (written_times times message) }
        ensures { Writes self.old self.new (written_times times message) }
    {
        for _ in 0..times {
            self.put(message);
        }
    }
}
