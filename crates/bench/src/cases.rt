// One line of the input: a case, which is written again with its answer, or what the cases below it are lent.
use super::calls;
use super::calls::{Lent, low_word};
use super::input::{Numbers, numbers};
use super::kinds::Kind;
use super::print::{Section, done, say};
use super::state::{Change, MEMORY_WORDS, Memory, OLD_BYTE, OLD_WORD, REGION_BYTES, Region};

// Words of the memory, bytes of the region, records of a delivery table.
#[derive(Clone, Copy)]
struct Lengths {
    words: usize,
    bytes: usize,
    records: u64,
}

#[derive(Clone, Copy)]
struct Case {
    kind: Kind,
    numbers: Numbers,
}

impl Case {
    // None for a comment and an empty line.
    fn of(line: &[u8]) -> Option<Self> {
        Kind::of(line).map(|kind| Self {
            kind,
            numbers: numbers(line),
        })
    }

    // What is lent from this line on; of a hub's first words alone, for this line.
    fn lengths(self, before: Lengths) -> Lengths {
        let Self { kind, numbers } = self;
        match (kind, numbers) {
            (Kind::SetUp | Kind::Again, [bytes, words, ..]) => Lengths {
                words: words as usize,
                bytes: bytes as usize,
                records: device::MAX_PEERS as u64,
            },
            (Kind::Lend | Kind::Words, [records, words, ..]) => Lengths {
                words: words as usize,
                records,
                ..before
            },
            (Kind::Lent, [records, bytes, ..]) => Lengths {
                bytes: bytes as usize,
                records,
                ..before
            },
            (Kind::Cut, [words, ..]) => Lengths {
                words: words as usize,
                ..before
            },
            _ => before,
        }
    }

    // What is written between the case and its answer.
    fn middle(self) -> &'static str {
        match self.kind {
            Kind::Lent | Kind::Lend | Kind::Words | Kind::Made => "",
            _ => ": ",
        }
    }

    fn on_hub(self, rt: &impl Print, hub: &mut [u32]) {
        let Self { kind, numbers } = self;
        match (kind, numbers) {
            (Kind::Connect, [id, ..]) => say(rt, done(hub::connect(hub, id))),
            (Kind::Read(space), _) => say(rt, calls::read(space, hub, numbers)),
            (Kind::Question, [length, offset, id, ..]) => {
                say(rt, Section(hub::section_question(hub, id, offset, length)));
            }
            (Kind::Changed | Kind::Cut, _) => calls::every(rt, hub),
            _ => {}
        }
    }

    fn answer(self, rt: &impl Print, lent: &mut Lent<'_>) {
        let Self { kind, numbers } = self;
        match (kind, numbers) {
            (Kind::SetUp | Kind::Again, _) => lent.set_up(rt, numbers),
            (Kind::Write(space), _) => lent.write(rt, space, numbers),
            (Kind::Reset, [id, ..]) => lent.reset(rt, id),
            (Kind::Disconnect, [id, ..]) => lent.disconnect(rt, id),
            (Kind::Load, _) => lent.load(rt, numbers),
            (Kind::Store, _) => lent.store(rt, numbers),
            _ => self.on_hub(rt, lent.hub),
        }
    }

    // What is written last: whether the words, or words and region, are as they were.
    fn ending(self, words_kept: bool, region_kept: bool) -> &'static str {
        match self.kind {
            Kind::Connect | Kind::Changed | Kind::Cut if words_kept => ", words kept\n",
            Kind::Write(_) | Kind::Reset | Kind::Disconnect | Kind::Store
                if words_kept && region_kept => { ", unchanged\n" }
            Kind::Lent => " ",
            Kind::Lend => "",
            _ => "\n",
        }
    }
}

// The memory and the region, and how much of them the cases are lent.
#[derive(Drop)]
pub struct Bench {
    memory: Memory,
    region: Region,
    lengths: Lengths,
}

impl Bench {
    pub fn new() -> Self {
        Self {
            memory: [0; MEMORY_WORDS],
            region: [0; REGION_BYTES],
            lengths: Lengths {
                words: 0,
                bytes: 0,
                records: 0,
            },
        }
    }

    // A line that is no case says nothing.
    pub fn run(&mut self, rt: &impl Print, line: &[u8]) {
        if let Some(case) = Case::of(line) {
            self.answer(rt, line, case);
        }
    }

    // What stands after `@` is not written. Not inlined, since the copies of memory and region would be cleared for each comment too.
    #[inline(never)]
    fn answer(&mut self, rt: &impl Print, line: &[u8], case: Case) {
        let end = line.iter().position(|b| *b == b'@').unwrap_or(line.len());
        let _ = rt.write_all(&line[..end]);
        say(rt, case.middle());
        let lengths = self.lengths;
        self.lengths = case.lengths(lengths);
        let [place, ..] = case.numbers;
        let held = self.memory.get(place as usize).copied();
        self.prepare(case);
        self.call(rt, case);
        match case.kind {
            Kind::Changed => if let Some(word) = self.memory.get_mut(place as usize)
                && let Some(held) = held
            {
                *word = held;
            },
            Kind::Cut => self.lengths = lengths,
            _ => {}
        }
    }

    // What the memory and the region hold before the call, and the word that is put by hand: what it is to be, and its place.
    fn prepare(&mut self, case: Case) {
        match case.kind {
            Kind::SetUp => {
                self.memory = [OLD_WORD; MEMORY_WORDS];
                self.region = [OLD_BYTE; REGION_BYTES];
            }
            Kind::Again => self.region = [OLD_BYTE; REGION_BYTES],
            Kind::Made | Kind::Changed => {
                let [place, value, ..] = case.numbers;
                if let Some(word) = self.memory.get_mut(place as usize) {
                    *word = low_word(value);
                }
            }
            _ => {}
        }
    }

    // On the parts of the memory and of the region that are lent. After a call on words that are changed or cut, they are as before it.
    fn call(&mut self, rt: &impl Print, case: Case) {
        let memory = self.memory;
        let region = self.region;
        let Lengths {
            words,
            bytes,
            records,
        } = self.lengths;
        if let Some(hub) = self.memory.get_mut(..words)
            && let Some(region) = self.region.get_mut(..bytes)
        {
            let mut lent = Lent {
                hub,
                region,
                records,
            };
            case.answer(rt, &mut lent);
        }
        let change = Change::between(&region, &self.region);
        let ending = case.ending(self.memory == memory, change.is_none());
        if case.kind == Kind::Store
            && let Some(change) = change
        {
            say(rt, change);
        }
        say(rt, ending);
        if matches!(case.kind, Kind::Changed | Kind::Cut) {
            self.memory = memory;
        }
    }
}
