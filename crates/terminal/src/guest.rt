// The guests. Each has the id of its place here.
use std::fmt;

#[derive(Clone, Copy, PartialEq, Eq)]
pub enum Guest {
    Touch,
    Planner,
    Orders,
    Card,
}

impl Guest {
    pub const ALL: [Guest; 4] = [Guest::Touch, Guest::Planner, Guest::Orders, Guest::Card];

    pub fn id(self) -> u64 {
        self as u64
    }

    pub fn with_id(id: u8) -> Option<Guest> {
        Guest::ALL.get(usize::from(id)).copied()
    }
}

impl fmt::Display for Guest {
    fn fmt<W: fmt::Write>(&self, f: &mut fmt::Formatter<W>) -> fmt::Result {
        f.write_str(match self {
            Guest::Touch => "touch",
            Guest::Planner => "planner",
            Guest::Orders => "orders",
            Guest::Card => "card",
        })
    }
}
