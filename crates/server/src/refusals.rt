// Why a start or a call is refused.
ghost use Rattle.std.specs.Prelude.{◌≡◌};
ghost use Rattle.server.specs.Serving.{refusal_number};

use std::error::Error;
use std::fmt;

#[derive(Clone, Copy, Debug, PartialEq, Eq)]
pub enum Refusal {
    // of a start
    VectorsOutOfRange,
    // of a leave: nobody has the id
    NotJoined,
    // of a state with a number of vectors outside its range
    StateUnsound,
    BufferTooSmall,
    // of a join: all ids are joined
    NoneFree,
}

impl Refusal {
    pub fn number(self) -> u32
        ensures { result ≡ refusal_number self }
    {
        match self {
            Refusal::VectorsOutOfRange => 1,
            Refusal::NotJoined => 4,
            Refusal::StateUnsound => 10,
            Refusal::BufferTooSmall => 11,
            Refusal::NoneFree => 12,
        }
    }
}

impl fmt::Display for Refusal {
    fn fmt<W: fmt::Write>(&self, f: &mut fmt::Formatter<W>) -> fmt::Result {
        f.write_str(match self {
            Refusal::VectorsOutOfRange => "the number of vectors is out of range",
            Refusal::NotJoined => "the id is not joined",
            Refusal::StateUnsound => "the state is not sound",
            Refusal::BufferTooSmall => "the buffer is too small",
            Refusal::NoneFree => "no id is free",
        })
    }
}

impl Error for Refusal {}
