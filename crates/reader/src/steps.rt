// What one whole record does, by the step that is due.
ghost use Rattle.std.specs.Prelude.{◌≡◌, ◌<◌, ◌≤◌, length};
ghost use Rattle.reader.specs.Sizes.{ids, most_vectors};

use super::Message;
use super::records::Record;
use super::refusals::Refusal;

// What has to come next. Their order is that of the numbers in a progress.
#[derive(Clone, Copy, PartialEq, Eq, PartialOrd, Ord)]
pub enum Step {
    Version,
    Id,
    Memory,
    Peers,
    Closed,
}

impl Step {
    ghost use Rattle.reader.specs.Parts.{step_number};

    pub fn number(self) -> u32
        ensures { result ≡ step_number self }
    {
        self as u32
    }
}

impl TryFrom<u32> for Step {
    type Error = Refusal;

    ghost use Rattle.reader.specs.Parts.{Numbers};

    ghost try_from_gives = { λ n r. Numbers n r };

    fn try_from(number: u32) -> Result<Step, Refusal> {
        match number {
            0 => Ok(Step::Version),
            1 => Ok(Step::Id),
            2 => Ok(Step::Memory),
            3 => Ok(Step::Peers),
            4 => Ok(Step::Closed),
            _ => Err(Refusal::Progress),
        }
    }
}

// What is known of the server, with the most vectors that an id may have.
#[derive(Drop)]
pub struct Known<'a> {
    pub step: Step,
    pub own: u32,
    pub counts: &'a mut [u8],
    pub vectors: u64,
    ghost counts_of_ids: { length counts.now ≡ ids },
    ghost vectors_in_range: { vectors ≤ most_vectors },
}

impl Known<'_> {
    ghost use Rattle.reader.specs.Parts.{Leaves, known_by, told};
    ghost use Rattle.reader.specs.Steps.{closes, version_step, id_step, memory_step, adds, removes, peers_step, read_record};

    // Our id and the counts stay.
    fn close(&mut self) -> Message
        ensures { Leaves self.old self.new result (closes (known_by self.old)) }
    {
        self.step = Step::Closed;
        Message::Closed
    }

    #[tactic(auto, unfolding(crate::specs::Steps::version_step), using(crate::proofs::LeaveLaws::leaves_same))]
    fn version_due(&mut self, heard: Record) -> Message
        ensures { Leaves self.old self.new result (version_step (known_by self.old) (told heard)) }
    {
        let ok = heard.is_version() & heard.without_descriptor();
        if !ok {
            return self.close();
        }
        self.step = Step::Id;
        Message::Version
    }

    fn id_due(&mut self, heard: Record) -> Message
        ensures { Leaves self.old self.new result (id_step (known_by self.old) (told heard)) }
    {
        let Some(id) = heard.id() else {
            return self.close();
        };
        if !heard.without_descriptor() {
            return self.close();
        }
        self.step = Step::Memory;
        self.own = u32::from(id);
        Message::Id(id)
    }

    fn memory_due(&mut self, heard: Record) -> Message
        ensures { Leaves self.old self.new result (memory_step (known_by self.old) (told heard)) }
    {
        let ok = heard.is_memory() & heard.with_descriptor();
        if !ok {
            return self.close();
        }
        self.step = Step::Peers;
        Message::Memory
    }

    // One vector more, up to the configured number.
    fn add(&mut self, id: u8) -> Message
        requires { id < ids }
        ensures { Leaves self.old self.new result (adds self.old.vectors (known_by self.old) id) }
    {
        let at = usize::from(id);
        let count = self.counts[at];
        if u64::from(count) < self.vectors {
            self.counts[at] = count + 1;
            return Message::Vector(id, count + 1);
        }
        Message::Extra(id, count)
    }

    // Another peer with vectors has left.
    fn remove(&mut self, id: u8) -> Message
        requires { id < ids }
        ensures { Leaves self.old self.new result (removes (known_by self.old) id) }
    {
        let at = usize::from(id);
        let count = self.counts[at];
        let ok = (u32::from(id) != self.own) & (0 < count);
        if !ok {
            return self.close();
        }
        self.counts[at] = 0;
        Message::Disconnected(id)
    }

    fn peers_due(&mut self, heard: Record) -> Message
        ensures { Leaves self.old self.new result (peers_step self.old.vectors (known_by self.old) (told heard)) }
    {
        let Some(id) = heard.id() else {
            return self.close();
        };
        if heard.with_descriptor() {
            return self.add(id);
        }
        if heard.without_descriptor() {
            return self.remove(id);
        }
        self.close()
    }

    // One whole record.
    pub fn read_record(&mut self, heard: Record) -> Message
        ensures { Leaves self.old self.new result (read_record self.old.vectors (known_by self.old) (told heard)) }
    {
        match self.step {
            Step::Version => self.version_due(heard),
            Step::Id => self.id_due(heard),
            Step::Memory => self.memory_due(heard),
            Step::Peers => self.peers_due(heard),
            Step::Closed => self.close(),
        }
    }
}
