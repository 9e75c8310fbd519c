// Why a call is refused.
ghost use Rattle.std.specs.Prelude.{◌≡◌};

use std::error::Error;
use std::fmt;

// In the order of their numbers, which are those of the rules.
#[derive(Clone, Copy, Debug, PartialEq, Eq)]
pub enum Refusal {
    BadSetting = 1,
    BadRegion = 2,
    NoSuchPeer = 3,
    NotConnected = 4,
    Connected = 5,
    BadWidth = 6,
    Misaligned = 7,
    OutOfRange = 8,
    ReadOnly = 9,
    UnsoundHub = 10,
    ShortTable = 11,
}

impl Refusal {
    ghost use Rattle.hub.specs.Answered.{number_of};

    pub fn number(self) -> u32
        ensures { result ≡ number_of self }
    {
        self as u32
    }
}

impl fmt::Display for Refusal {
    fn fmt<W: fmt::Write>(&self, f: &mut fmt::Formatter<W>) -> fmt::Result {
        f.write_str(match self {
            Refusal::BadSetting => "a set-up number is outside its range",
            Refusal::BadRegion => "the region's length is not the total of the set-up",
            Refusal::NoSuchPeer => "there is no peer with this id",
            Refusal::NotConnected => "the peer is not connected",
            Refusal::Connected => "the peer is already connected",
            Refusal::BadWidth => "this width is not allowed here",
            Refusal::Misaligned => "the offset is not a multiple of the width",
            Refusal::OutOfRange => "the range is not whole inside one space or section",
            Refusal::ReadOnly => "the peer may not store to this section",
            Refusal::UnsoundHub =>
                "the words are not a sound hub, or not as many as the set-up asks for",
            Refusal::ShortTable => "the delivery table has fewer records than there are peers",
        })
    }
}

impl Error for Refusal {}
