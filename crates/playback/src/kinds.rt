// The kinds of records.
ghost use Rattle.std.specs.Prelude.{◌≡◌};
ghost use Rattle.playback.specs.Log.{record_length};
ghost use Rattle.playback.specs.Kinds.{kind_number, Decodes};

// By their byte.
#[derive(Clone, Copy, Debug, PartialEq, Eq)]
pub enum Kind {
    SetUp = 0x00,
    Connect = 0x01,
    Disconnect = 0x02,
    Reset = 0x03,
    ConfigurationRead = 0x04,
    ConfigurationWrite = 0x05,
    RegisterRead = 0x06,
    RegisterWrite = 0x07,
    MsixRead = 0x08,
    MsixWrite = 0x09,
    Load = 0x0A,
    Store = 0x0B,
}

// A byte that is no kind.
#[derive(Clone, Copy, Debug, PartialEq, Eq)]
pub struct UnknownKind;

impl TryFrom<u8> for Kind {
    type Error = UnknownKind;

    ghost try_from_gives = { Decodes };

    fn try_from(byte: u8) -> Result<Kind, UnknownKind> {
        Ok(match byte {
            0x00 => Kind::SetUp,
            0x01 => Kind::Connect,
            0x02 => Kind::Disconnect,
            0x03 => Kind::Reset,
            0x04 => Kind::ConfigurationRead,
            0x05 => Kind::ConfigurationWrite,
            0x06 => Kind::RegisterRead,
            0x07 => Kind::RegisterWrite,
            0x08 => Kind::MsixRead,
            0x09 => Kind::MsixWrite,
            0x0A => Kind::Load,
            0x0B => Kind::Store,
            _ => return Err(UnknownKind),
        })
    }
}

impl Kind {
    // The bytes of the kind's records: the kind itself and the body.
    pub fn record_length(self) -> usize
        ensures { result ≡ record_length (kind_number self) }
    {
        match self {
            Kind::SetUp => super::RECORD_BYTES,
            Kind::Connect => 1 + 2,
            Kind::Disconnect => 1 + 2,
            Kind::Reset => 1 + 2,
            Kind::ConfigurationRead => 1 + 5,
            Kind::ConfigurationWrite => 1 + 9,
            Kind::RegisterRead => 1 + 4,
            Kind::RegisterWrite => 1 + 8,
            Kind::MsixRead => 1 + 4,
            Kind::MsixWrite => 1 + 8,
            Kind::Load => 1 + 6,
            Kind::Store => 1 + 7,
        }
    }
}
