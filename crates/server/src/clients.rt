// The ids that are joined.
ghost use Rattle.std.specs.Prelude.{◌≡◌, ◌≤◌, ◌<◌, true, false, SomeIff};
ghost use Rattle.reader.specs.Sizes.{ids};
ghost use Rattle.server.specs.Clients.{is_joined, joined_below, clients, lowest_free, joined_with, joined_without};

// The ids are those below this number.
const IDS: u64 = reader::IDS as u64;

// Bit i is 1 where id i is joined.
#[derive(Clone, Copy)]
pub struct Clients(pub u64);

impl Clients {
    #[tactic(auto, using(crate::proofs::JoinedLaws::is_bit, crate::proofs::JoinedLaws::joined_beyond), unfolding(reader::specs::Sizes::ids))]
    pub fn contains(self, id: u64) -> bool
        ensures { result ≡ is_joined self.0 id }
    {
        id < IDS && (self.0 >> id) % 2 == 1
    }

    // The number behind the last id that is joined.
    #[tactic(auto, using(crate::proofs::FreeLaws::end_of), unfolding(reader::specs::Sizes::ids))]
    pub fn end(self) -> u64
        ensures within { result ≤ ids }
        ensures all { clients self.0 ≡ joined_below result self.0 }
    {
        IDS - u64::from(self.0.leading_zeros())
    }

    // The lowest id that is free, if one is.
    #[tactic(auto, using(crate::proofs::FreeLaws::lowest_counted), unfolding(reader::specs::Sizes::ids))]
    pub fn lowest_free(self) -> Option<u8>
        ensures { SomeIff result (lowest_free self.0 < ids) (lowest_free self.0) }
    {
        let free = u64::from(self.0.trailing_ones());
        if free < IDS { Some(free as u8) } else { None }
    }

    // With one id more, which was free.
    pub fn with(self, id: u8) -> Self
        requires { (id < ids) × (is_joined self.0 id ≡ false) }
        ensures { result.0 ≡ joined_with self.0 id }
    {
        Self(self.0 + (1 << id))
    }

    // Without one that was joined.
    pub fn without(self, id: u8) -> Self
        requires { is_joined self.0 id ≡ true }
        ensures { result.0 ≡ joined_without self.0 id }
    {
        Self(self.0 - (1 << id))
    }
}
