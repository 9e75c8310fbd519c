// One call for each kind of case, and the answer that is written after the case.
use super::input::Numbers;
use super::kinds::Space;
use super::print::{Answer, Bytes, Section, Word, done, say, served, value};
use super::state::{OLD_BYTE, OLD_WORD, all_are};
use device::Settings;

// Room for the longest load and store.
const ROOM: usize = 4097;

// The low 32 bits: `as` takes no number that it would cut, and no method of the library cuts one.
pub fn low_word(n: u64) -> u32 {
    (n % 0x100000000) as u32
}

// The name of the first of two values that all items have, or of none.
fn left<T: PartialEq + Drop>(
    items: &[T],
    (first, first_name): (T, &'static str),
    (second, second_name): (T, &'static str),
    other_name: &'static str,
) -> &'static str {
    if all_are(items, first) {
        first_name
    } else if all_are(items, second) {
        second_name
    } else {
        other_name
    }
}

// The parts of the memory and of the region that a call is lent, and the records of the delivery table.
#[derive(Drop)]
pub struct Lent<'a> {
    pub hub: &'a mut [u32],
    pub region: &'a mut [u8],
    pub records: u64,
}

impl Lent<'_> {
    // After the set-up's numbers come the lengths of what is lent.
    pub fn set_up(&mut self, rt: &impl Print, numbers: Numbers) {
        let [_, _, base, output, common, table, vectors, peers] = numbers;
        let settings = Settings {
            peers,
            vectors,
            table,
            common,
            output,
            base,
            protocol: 0,
            vendor: 0,
            subsystem: 0,
        };
        let done = done(hub::set_up(self.hub, self.region, settings));
        let words = left(self.hub, (0, "zero"), (OLD_WORD, "kept"), "set");
        let bytes = left(self.region, (OLD_BYTE, "kept"), (0, "zero"), "changed");
        say(rt, format_args!("{done}, words {words}, region {bytes}"));
    }

    pub fn write(&mut self, rt: &impl Print, space: Space, numbers: Numbers) {
        let [value, width, offset, id, ..] = numbers;
        let word = low_word(value);
        match space {
            Space::Configuration => {
                let answer = hub::configuration_write(self.hub, id, offset, width, word);
                say(rt, done(answer));
            }
            Space::Registers => {
                let answer = hub::register_write(
                    self.hub,
                    self.region,
                    self.records,
                    id,
                    offset,
                    width,
                    word,
                );
                say(rt, served(self.hub, answer));
            }
            Space::Msix => {
                let answer = hub::msix_write(self.hub, id, offset, width, word);
                say(rt, done(answer));
            }
        }
    }

    pub fn reset(&mut self, rt: &impl Print, id: u64) {
        let answer = hub::reset(self.hub, self.region, self.records, id);
        say(rt, served(self.hub, answer));
    }

    pub fn disconnect(&mut self, rt: &impl Print, id: u64) {
        let answer = hub::disconnect(self.hub, self.region, self.records, id);
        say(rt, served(self.hub, answer));
    }

    pub fn load(&self, rt: &impl Print, numbers: Numbers) {
        let [length, offset, id, ..] = numbers;
        let mut room = [OLD_BYTE; ROOM];
        let Some(buffer) = room.get_mut(..length as usize) else {
            return;
        };
        let answer = hub::load(self.hub, self.region, id, offset, buffer);
        say(rt, done(answer));
        if answer.is_ok() {
            say(rt, Bytes(buffer));
        } else if all_are(buffer, OLD_BYTE) {
            say(rt, ", buffer kept");
        }
    }

    // A short store's bytes count up from the first, so that their order shows; a long one's are all the same.
    pub fn store(&mut self, rt: &impl Print, numbers: Numbers) {
        let [byte, length, offset, id, ..] = numbers;
        let first = (byte % 128) as u8;
        let mut room = [first; ROOM];
        if length <= 8 {
            for (place, b) in room.iter_mut().zip(first..first + 8) {
                *place = b;
            }
        }
        if let Some(bytes) = room.get(..length as usize) {
            let hub = &mut *self.hub;
            let answer = hub::store(hub, self.region, id, offset, bytes);
            say(rt, done(answer));
        }
    }
}

pub fn read(space: Space, hub: &[u32], numbers: Numbers) -> Answer<Word> {
    let [width, offset, id, ..] = numbers;
    value(match space {
        Space::Configuration => hub::configuration_read(hub, id, offset, width),
        Space::Registers => hub::register_read(hub, id, offset, width),
        Space::Msix => hub::msix_read(hub, id, offset, width),
    })
}

// A connect and every read, of words that may be no hub.
pub fn every(rt: &impl Print, hub: &mut [u32]) {
    let connected = done(hub::connect(hub, 1));
    say(rt, format_args!("connect {connected}"));
    let configuration = value(hub::configuration_read(hub, 0, 0, 4));
    let register = value(hub::register_read(hub, 0, 0, 4));
    let msix = value(hub::msix_read(hub, 0, 0, 4));
    let section = Section(hub::section_question(hub, 0, 0, 4));
    say(
        rt,
        format_args!(", configuration {configuration}, register {register}"),
    );
    say(rt, format_args!(", MSI-X {msix}, question {section}"));
}
