// The deliveries of one run, in order.
ghost use Rattle.std.specs.Prelude.{◌<◌, IfSome};

use super::guest::Guest;
use deliveries::Deliveries;
use device::{Delivery, Vector};
use std::fmt;

// More than a run has.
const ROOM: usize = 32;

// A delivery, and the guest that it went to: none where the id is no guest's.
#[derive(Clone, Copy)]
pub struct Message {
    pub guest: Option<Guest>,
    pub delivery: Delivery,
}

impl fmt::Display for Message {
    fn fmt<W: fmt::Write>(&self, f: &mut fmt::Formatter<W>) -> fmt::Result {
        let Delivery {
            address,
            payload,
            vector: Vector(vector),
            ..
        } = self.delivery;
        write!(f, "(vector {vector}, {address:08X}h, {payload:08X}h)")
    }
}

// An array and no Vec, so that no run ends where memory runs out.
#[derive(Clone, Copy)]
pub struct Log {
    // None behind the last
    messages: [Option<Message>; ROOM],
}

impl Log {
    pub fn new() -> Self {
        Self {
            messages: [None; ROOM],
        }
    }

    fn room(&self) -> Option<usize>
        ensures { IfSome result (λ k. k < 32) }
    {
        self.messages.iter().position(|m| m.is_none())
    }

    // Logs the deliveries of a call, made from the hub that it left, and returns them.
    pub fn add(&mut self, hub: &[u32], list: &Deliveries) -> &[Option<Message>] {
        let before = self.room().unwrap_or(ROOM);
        for id in list.delivered() {
            if let Some(place) = self.room() {
                self.messages[place] = Some(Message {
                    guest: Guest::with_id(*id),
                    delivery: deliveries::sent(hub, *id, list.vector),
                });
            }
        }
        &self.messages[before..]
    }

    // How many deliveries a guest got, of the vectors from `least` on.
    pub fn count(&self, guest: Guest, least: u16) -> usize {
        self.messages
            .iter()
            .flatten()
            .filter(|m| m.guest == Some(guest) && m.delivery.vector.0 >= least)
            .count()
    }
}

// All that a guest got.
#[derive(Clone, Copy)]
pub struct Summary<'a> {
    pub log: &'a Log,
    pub guest: Guest,
}

impl fmt::Display for Summary<'_> {
    fn fmt<W: fmt::Write>(&self, f: &mut fmt::Formatter<W>) -> fmt::Result {
        let guest = self.guest;
        let count = self.log.count(guest, 0);
        write!(f, "{guest} got {count}:")?;
        for message in self
            .log
            .messages
            .iter()
            .flatten()
            .filter(|m| m.guest == Some(guest))
        {
            write!(f, " {message}")?;
        }
        Ok(())
    }
}
