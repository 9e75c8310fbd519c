// What the guests and the host do: each act is one call of the hub or a few, and one line. The first refusal ends an act.
use super::guest::Guest;
use super::log::{Log, Summary};
use super::print::{Bytes, Delivered, Printer, Value};
use deliveries::Deliveries;
use device::Settings;
use hub::Refusal;
use std::fmt::Display;

const PEERS: u16 = 4;

const VECTORS: u16 = 2;

// The bytes of each section.
const SECTION: u64 = 4096;

// Where the guests find the shared region: at 4 GiB, beyond their own memory.
const BASE: u64 = 0x100000000;

// As many words as the set-up asks for. Arrays, since their lengths need no proof when they are lent.
const HUB_WORDS: usize = (10 + 8 * PEERS + 4 * (PEERS * VECTORS)) as usize;

// The State Table, the common section and one output section for each guest.
const REGION_BYTES: usize = (SECTION * (2 + PEERS as u64)) as usize;

// The records of the delivery table that would be lent.
const RECORDS: u64 = PEERS as u64;

// Offsets in configuration space.
const COMMAND: u64 = 0x04;

const PRIVILEGED_CONTROL: u64 = 0x43;

const MESSAGE_CONTROL: u64 = 0x62;

// The registers of a guest, at their offsets.
#[derive(Clone, Copy)]
enum Register {
    Id = 0x00,
    InterruptControl = 0x08,
    Doorbell = 0x0C,
    State = 0x10,
}

// A hub with its shared region, and what has happened in a run.
#[derive(Drop)]
pub struct Terminal<'a, R: Print> {
    hub: [u32; HUB_WORDS],
    region: [u8; REGION_BYTES],
    log: Log,
    printer: Printer<'a, R>,
}

impl<'a, R: Print> Terminal<'a, R> {
    pub fn new(rt: &'a R) -> Self {
        Self {
            hub: [0; HUB_WORDS],
            region: [0; REGION_BYTES],
            log: Log::new(),
            printer: Printer::new(rt),
        }
    }

    // A run begins with an empty log and with step 1, on the hub and the region as they are.
    pub fn begin(&mut self, title: &str) {
        self.log = Log::new();
        self.printer.restart();
        self.printer.line(title);
    }

    pub fn set_up(&mut self) {
        let settings = Settings {
            peers: u64::from(PEERS),
            vectors: u64::from(VECTORS),
            table: SECTION,
            common: SECTION,
            output: SECTION,
            base: BASE,
            protocol: 1,
            vendor: 0,
            subsystem: 0,
        };
        let done = hub::set_up(&mut self.hub, &mut self.region, settings);
        let what = format_args!("set up {PEERS} peers with {VECTORS} vectors");
        self.printer.step("host", what, done.map(|()| ""));
    }

    // One entry of the MSI-X table, unmasked: an address for each guest's processor, and data that tells the vectors apart.
    fn set_entry(&mut self, guest: Guest, vector: u16) -> Result<(), Refusal> {
        let id = guest.id();
        let own = guest as u32;
        let at = u64::from(vector) * 16;
        let address = 0xFEE00000 + own * 0x1000;
        let payload = 0x40 + own * 16 + u32::from(vector);
        for (offset, word) in [(0, address), (8, payload), (12, 0)] {
            hub::msix_write(&mut self.hub, id, at + offset, 4, word)?;
        }
        Ok(())
    }

    // Memory space and bus master in Command, MSI-X enable, two entries, Interrupt Control.
    fn switch_on(&mut self, guest: Guest) -> Result<(), Refusal> {
        let id = guest.id();
        hub::configuration_write(&mut self.hub, id, COMMAND, 2, 0x0006)?;
        hub::configuration_write(&mut self.hub, id, MESSAGE_CONTROL, 2, 0x8000)?;
        for vector in 0..VECTORS {
            self.set_entry(guest, vector)?;
        }
        self.write(guest, Register::InterruptControl, 1)?;
        Ok(())
    }

    fn read(&self, guest: Guest, register: Register) -> Result<u32, Refusal> {
        hub::register_read(&self.hub, guest.id(), register as u64, 4)
    }

    fn write(
        &mut self,
        guest: Guest,
        register: Register,
        value: u32,
    ) -> Result<Deliveries, Refusal> {
        hub::register_write(
            &mut self.hub,
            &mut self.region,
            RECORDS,
            guest.id(),
            register as u64,
            4,
            value,
        )
    }

    fn enter(&mut self, guest: Guest) -> Result<u32, Refusal> {
        hub::connect(&mut self.hub, guest.id())?;
        self.switch_on(guest)?;
        self.read(guest, Register::Id)
    }

    pub fn join(&mut self, guest: Guest) {
        let id = self.enter(guest);
        self.printer
            .step(guest, "connect, switch on, read ID", id.map(Value));
    }

    // Bit 0 of Privileged Control is one-shot mode.
    fn set_one_shot(&mut self, guest: Guest, on: bool) -> Result<u32, Refusal> {
        let id = guest.id();
        hub::configuration_write(&mut self.hub, id, PRIVILEGED_CONTROL, 1, u32::from(on))?;
        hub::configuration_read(&self.hub, id, PRIVILEGED_CONTROL, 1)
    }

    pub fn one_shot(&mut self, guest: Guest, on: bool) {
        let control = self.set_one_shot(guest, on);
        self.printer.step(
            guest,
            "write Privileged Control, read it",
            control.map(Value),
        );
    }

    pub fn interrupt_control(&mut self, guest: Guest) {
        let control = self.read(guest, Register::InterruptControl);
        self.printer
            .step(guest, "read Interrupt Control", control.map(Value));
    }

    pub fn store(&mut self, guest: Guest, what: &str, offset: u64, bytes: &[u8]) {
        let stored = hub::store(&self.hub, &mut self.region, guest.id(), offset, bytes);
        let bytes = Bytes(bytes);
        self.printer
            .step(guest, format_args!("{what}{bytes}"), stored.map(|()| ""));
    }

    pub fn load(&mut self, guest: Guest, what: &str, offset: u64, buffer: &mut [u8]) {
        let loaded = hub::load(&self.hub, &self.region, guest.id(), offset, buffer);
        self.printer
            .step(guest, what, loaded.map(|()| Bytes(buffer)));
    }

    // Whether the guest may store to the section at the offset.
    pub fn ask(&mut self, guest: Guest, what: &str, offset: u64) {
        let section = hub::section_question(&self.hub, guest.id(), offset, SECTION);
        let right = section.map(|s| if s.store {
            ", may store"
        } else {
            ", may not store"
        });
        self.printer.step(guest, what, right);
    }

    // The line of a call that may ring, and its deliveries. A refused one rings nobody.
    fn served(
        &mut self,
        who: impl Display + Drop,
        what: impl Display + Drop,
        answer: Result<Deliveries, Refusal>,
    ) {
        let list = answer.unwrap_or(deliveries::none());
        let messages = self.log.add(&self.hub, &list);
        self.printer
            .step(who, what, answer.map(|_| Delivered(messages)));
    }

    // The customer presses 'order'. The Doorbell takes an id in its upper half, and a vector in its lower.
    pub fn press(&mut self) {
        let ring = (Guest::Orders as u32) << 16 | 1;
        let answer = self.write(Guest::Touch, Register::Doorbell, ring);
        self.served(Guest::Touch, "press, ring orders with vector 1", answer);
    }

    // A slab is cut for each order that was delivered, and their number announced.
    pub fn cut(&mut self) {
        let slabs = (self.log.count(Guest::Orders, 1) % 256) as u32;
        let answer = self.write(Guest::Orders, Register::State, slabs);
        self.served(
            Guest::Orders,
            format_args!("cut slabs, store State {slabs}"),
            answer,
        );
    }

    // The planner announces that it is saving. A State that it holds already rings nobody.
    pub fn save(&mut self) {
        let answer = self.write(Guest::Planner, Register::State, 1);
        self.served(Guest::Planner, "save, store State 1", answer);
    }

    // After a delivery in one-shot mode: interrupts on again.
    pub fn rearm(&mut self) {
        let answer = self.write(Guest::Orders, Register::InterruptControl, 1);
        self.served(Guest::Orders, "write 1 to Interrupt Control", answer);
    }

    pub fn reset(&mut self, guest: Guest) {
        let answer = hub::reset(&mut self.hub, &mut self.region, RECORDS, guest.id());
        self.served("host", format_args!("reset {guest}"), answer);
    }

    pub fn disconnect(&mut self, guest: Guest) {
        let answer = hub::disconnect(&mut self.hub, &mut self.region, RECORDS, guest.id());
        self.served("host", format_args!("disconnect {guest}"), answer);
    }

    // The deliveries that each guest got.
    pub fn report(&self) {
        for guest in Guest::ALL {
            self.printer.line(Summary {
                log: &self.log,
                guest,
            });
        }
    }
}
