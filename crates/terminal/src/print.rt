// The lines of a run, and what an accepted call adds to its line.
use super::log::Message;
use hub::Refusal;
use std::fmt;
use std::fmt::Display;

// The output, and the number of the last step.
#[derive(Drop)]
pub struct Printer<'a, R: Print> {
    rt: &'a R,
    steps: u64,
}

impl<'a, R: Print> Printer<'a, R> {
    pub fn new(rt: &'a R) -> Self {
        Self { rt, steps: 0 }
    }

    pub fn restart(&mut self) {
        self.steps = 0;
    }

    // A write that fails is let go, and the program goes on.
    pub fn line(&self, text: impl Display + Drop) {
        let _ = self.rt.println(text);
    }

    // A step's line: its number, who acts, what is done, and the answer. 0 says that all calls of the step were accepted.
    pub fn step(
        &mut self,
        who: impl Display + Drop,
        what: impl Display + Drop,
        answer: Result<impl Display + Drop, Refusal>,
    ) {
        self.steps = self.steps.saturating_add(1);
        let step = self.steps;
        match answer {
            Ok(more) => self.line(format_args!("{step} {who}: {what}: answer 0{more}")),
            Err(refusal) => self.line(format_args!(
                "{step} {who}: {what}: answer {}",
                refusal.number()
            )),
        }
    }
}

// The value of a read.
#[derive(Clone, Copy)]
pub struct Value(pub u32);

impl Display for Value {
    fn fmt<W: fmt::Write>(&self, f: &mut fmt::Formatter<W>) -> fmt::Result {
        write!(f, ", value {}", self.0)
    }
}

// The bytes of a load or a store.
#[derive(Clone, Copy)]
pub struct Bytes<'a>(pub &'a [u8]);

impl Display for Bytes<'_> {
    fn fmt<W: fmt::Write>(&self, f: &mut fmt::Formatter<W>) -> fmt::Result {
        f.write_str(", bytes")?;
        for byte in self.0 {
            write!(f, " {byte}")?;
        }
        Ok(())
    }
}

// The deliveries of a call, in ring order.
#[derive(Clone, Copy)]
pub struct Delivered<'a>(pub &'a [Option<Message>]);

impl Display for Delivered<'_> {
    fn fmt<W: fmt::Write>(&self, f: &mut fmt::Formatter<W>) -> fmt::Result {
        f.write_str(", delivered: ")?;
        if !matches!(self.0, [Some(_), ..]) {
            return f.write_str("nothing");
        }
        for (place, message) in self.0.iter().flatten().enumerate() {
            let separator = if place == 0 { "" } else { ", " };
            let Message { guest, delivery } = message;
            f.write_str(separator)?;
            match guest {
                Some(guest) => write!(f, "{guest}")?,
                None => f.write_str("host")?,
            }
            write!(f, " vector {}", delivery.vector.0)?;
        }
        Ok(())
    }
}
