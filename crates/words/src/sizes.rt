// How many words a hub has: the first two say how many peers and vectors there are.
ghost use Rattle.std.specs.Prelude.{true, ◌≡◌, ◌+◌, ◌*◌, ◌≤◌};
ghost use Rattle.device.specs.Sizes.{max_peers, max_vectors};
ghost use Rattle.words.specs.Layout.{hub_words, hub_of, entry_start};
ghost use Rattle.words.specs.Layout;

// A hub's numbers of peers and vectors: no more than a hub can have, so that no product of them wraps.
#[derive(Clone, Copy)]
pub struct Counts {
    pub peers: usize,
    pub vectors: usize,
    ghost few: { peers ≤ max_peers },
    ghost less: { vectors ≤ max_vectors },
}

impl Counts {
    // The first two words of a hub.
    pub(crate) fn stored(hub: &[u32]) -> Self
        requires { Layout.fits hub.now ≡ true }
        ensures { (result.peers ≡ (hub_of hub.now).settings.peers) × (result.vectors ≡ (hub_of hub.now).settings.vectors) }
    {
        Counts {
            peers: hub[0] as usize,
            vectors: hub[1] as usize,
        }
    }

    // How many words a column of entries has.
    pub(crate) fn column(self) -> usize
        ensures { result ≡ self.peers * self.vectors }
    {
        self.peers * self.vectors
    }

    // Where an entry's word of the first column stands.
    pub(crate) fn entry_start(self, i: usize, v: usize) -> usize
        requires { (i ≤ self.peers) × (v ≤ self.vectors) }
        ensures { result ≡ entry_start self.peers self.vectors 0 i v }
    {
        10 + 8 * self.peers + (i * self.vectors + v)
    }
}

pub fn hub_words(peers: usize, vectors: usize) -> usize
    requires { (peers ≤ max_peers) × (vectors ≤ max_vectors) }
    ensures { result ≡ hub_words peers vectors }
{
    10 + 8 * peers + 4 * (peers * vectors)
}

// There are as many words as the first two ask for. Their ranges are tested first, so that no product wraps.
pub fn fits(hub: &[u32]) -> bool
    ensures { result ≡ Layout.fits hub.now }
{
    if hub.len() < 10 {
        return false;
    }
    let peers = hub[0] as usize;
    let vectors = hub[1] as usize;
    if device::max_peers() < peers {
        return false;
    }
    if device::max_vectors() < vectors {
        return false;
    }
    hub.len() == hub_words(peers, vectors)
}

// None of both where the words are no hub: `deliveries::sent` answers for any words, and its clause `sent_at` says zeros for these.
pub fn counts_of(hub: &[u32]) -> Counts
    ensures { (result.peers ≡ (hub_of hub.now).settings.peers) × (result.vectors ≡ (hub_of hub.now).settings.vectors) }
{
    let sized = fits(hub);
    if sized {
        return Counts::stored(hub);
    }
    Counts {
        peers: 0,
        vectors: 0,
    }
}
