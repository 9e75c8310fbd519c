// Which case a line is, by the words that it begins with.

#[derive(Clone, Copy, PartialEq, Eq)]
pub enum Kind {
    // a call to which a region and a table of the lengths in front of it are lent
    Lent,
    // the words and the records that the cases below are lent, without a line and with one
    Lend,
    Words,
    SetUp,
    Again,
    Connect,
    Read(Space),
    Write(Space),
    Reset,
    Disconnect,
    Question,
    Load,
    Store,
    // the first words of the hub alone; a word of it that is another; that is made another
    Cut,
    Changed,
    Made,
}

#[derive(Clone, Copy, PartialEq, Eq)]
pub enum Space {
    Configuration,
    Registers,
    Msix,
}

static NAMES: [(&str, Kind); 17] = [
    ("@", Kind::Lend),
    ("lent", Kind::Lent),
    ("set-up", Kind::SetUp),
    ("again", Kind::Again),
    ("connect ", Kind::Connect),
    ("disconnect", Kind::Disconnect),
    ("reset", Kind::Reset),
    ("question", Kind::Question),
    ("load", Kind::Load),
    ("store", Kind::Store),
    ("words", Kind::Cut),
    ("configuration r", Kind::Read(Space::Configuration)),
    ("register r", Kind::Read(Space::Registers)),
    ("MSI-X r", Kind::Read(Space::Msix)),
    ("configuration w", Kind::Write(Space::Configuration)),
    ("register w", Kind::Write(Space::Registers)),
    ("MSI-X w", Kind::Write(Space::Msix)),
];

impl Kind {
    // None for a comment and an empty line.
    pub fn of(line: &[u8]) -> Option<Self> {
        match line {
            [] | [b'#', ..] => None,
            [..=b'9', ..] => Some(Self::Words),
            _ => Some(Self::named(line).unwrap_or(Self::put_by_hand(line))),
        }
    }

    fn named(line: &[u8]) -> Option<Self> {
        NAMES
            .iter()
            .find(|(name, _)| line.starts_with(name.as_bytes()))
            .map(|(_, kind)| *kind)
    }

    // The names of the words that a case puts by hand are many, and `=` tells whether it is for this case alone.
    fn put_by_hand(line: &[u8]) -> Self {
        if line.contains(&b'=') {
            Self::Changed
        } else {
            Self::Made
        }
    }
}
