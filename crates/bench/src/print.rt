// What the program writes.
use deliveries::Deliveries;
use device::{Delivery, PeerId, SectionAnswer, SectionKind, Vector};
use hub::Refusal;
use std::fmt;

// A write that fails is let go, and the program goes on.
pub fn say(rt: &impl Print, what: impl fmt::Display + Drop) {
    let _ = rt.print(what);
}

// What a call answers, or the number of its refusal.
#[derive(Clone, Copy)]
pub struct Answer<T>(Result<T, Refusal>);

impl<T: fmt::Display> fmt::Display for Answer<T> {
    fn fmt<W: fmt::Write>(&self, f: &mut fmt::Formatter<W>) -> fmt::Result {
        match &self.0 {
            Ok(value) => write!(f, "{value}"),
            Err(refusal) => write!(f, "refused {}", refusal.number()),
        }
    }
}

// The answer to a call that reads nothing.
pub fn done(answer: Result<(), Refusal>) -> Answer<&'static str> {
    Answer(answer.map(|()| "taken"))
}

#[derive(Clone, Copy)]
pub struct Word(u32);

impl fmt::Display for Word {
    fn fmt<W: fmt::Write>(&self, f: &mut fmt::Formatter<W>) -> fmt::Result {
        write!(f, "{:08X}h", self.0)
    }
}

pub fn value(answer: Result<u32, Refusal>) -> Answer<Word> {
    Answer(answer.map(Word))
}

#[derive(Clone, Copy)]
struct SectionName(SectionKind);

impl fmt::Display for SectionName {
    fn fmt<W: fmt::Write>(&self, f: &mut fmt::Formatter<W>) -> fmt::Result {
        match self.0 {
            SectionKind::Nothing => write!(f, "no section"),
            SectionKind::StateTable => write!(f, "State Table"),
            SectionKind::ReadWrite => write!(f, "R/W"),
            SectionKind::Output(PeerId(owner)) => write!(f, "output of {owner}"),
        }
    }
}

// The answer to the section question. A refusal names no section and lets nothing be stored.
#[derive(Clone, Copy)]
pub struct Section(pub Result<SectionAnswer, Refusal>);

impl fmt::Display for Section {
    fn fmt<W: fmt::Write>(&self, f: &mut fmt::Formatter<W>) -> fmt::Result {
        let done = done(self.0.map(|_| ()));
        let SectionAnswer { kind, store } = self.0.unwrap_or(SectionAnswer {
            kind: SectionKind::Nothing,
            store: false,
        });
        let may_store = if store { "yes" } else { "no" };
        let name = SectionName(kind);
        write!(f, "{done}, {name}, {may_store}")
    }
}

#[derive(Clone, Copy)]
struct Sent(Delivery);

impl fmt::Display for Sent {
    fn fmt<W: fmt::Write>(&self, f: &mut fmt::Formatter<W>) -> fmt::Result {
        let Delivery {
            address,
            payload,
            target: PeerId(target),
            vector: Vector(vector),
        } = self.0;
        write!(f, " ({target}, {vector}, {address:016X}h, {payload:08X}h)")
    }
}

// The deliveries of a call, in ring order, made from the hub that the call left.
#[derive(Clone, Copy)]
pub struct Delivered<'a> {
    hub: &'a [u32],
    list: Deliveries,
}

impl fmt::Display for Delivered<'_> {
    fn fmt<W: fmt::Write>(&self, f: &mut fmt::Formatter<W>) -> fmt::Result {
        let ids = self.list.delivered();
        write!(f, "taken")?;
        if !ids.is_empty() {
            write!(f, ", delivered")?;
        }
        for id in ids {
            let sent = Sent(deliveries::sent(self.hub, *id, self.list.vector));
            write!(f, "{sent}")?;
        }
        Ok(())
    }
}

pub fn served(hub: &[u32], answer: Result<Deliveries, Refusal>) -> Answer<Delivered<'_>> {
    Answer(answer.map(|list| Delivered { hub, list }))
}

// The bytes of a short buffer, or the one value that all bytes of a long one have.
#[derive(Clone, Copy)]
pub struct Bytes<'a>(pub &'a [u8]);

impl fmt::Display for Bytes<'_> {
    fn fmt<W: fmt::Write>(&self, f: &mut fmt::Formatter<W>) -> fmt::Result {
        write!(f, ",")?;
        match self.0 {
            [first, others @ ..] if others.len() >= 8 => {
                if others.iter().all(|b| b == first) {
                    write!(f, " all {first:02X}")
                } else {
                    write!(f, " several values")
                }
            }
            short => {
                for b in short {
                    write!(f, " {b:02X}")?;
                }
                Ok(())
            }
        }
    }
}
