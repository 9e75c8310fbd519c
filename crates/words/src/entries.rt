// The MSI-X entries, in four columns.
ghost use Rattle.std.specs.Prelude.{◌≡◌, ◌<◌};
ghost use Rattle.device.specs.World.{slot_at, entry_at, with_slot, with_entry};
ghost use Rattle.words.specs.Layout.{hub_of, Known, KnownVector};

use super::sizes::Counts;
use device::Entry;

// The entries of words whose numbers of peers and vectors are in hand, so that a loop reads them once.
#[derive(Clone, Copy)]
pub struct Entries<'a> {
    pub hub: &'a [u32],
    pub counts: Counts,
    ghost peers: { counts.peers ≡ (hub_of hub.now).settings.peers },
    ghost vectors: { counts.vectors ≡ (hub_of hub.now).settings.vectors },
}

impl<'a> Entries<'a> {
    // Of any words: there are none where the words are no hub.
    pub fn of(hub: &'a [u32]) -> Self
        ensures { hub_of result.hub.now ≡ hub_of hub.now }
    {
        let counts = super::sizes::counts_of(hub);
        Entries { hub, counts }
    }

    fn known(&self, i: usize, v: usize) -> Entry
        requires known { Known self.now.hub.now i }
        requires vector { KnownVector self.now.hub.now v }
        ensures { result ≡ entry_at (slot_at (hub_of self.now.hub.now) i) v }
    {
        let at = self.counts.entry_start(i, v);
        super::parts::entry_from(self.hub, at, self.counts.column())
    }

    // For any id and vector: zeros where there is no such entry, as the clause `sent_at` of `deliveries::sent` says.
    pub fn at(&self, i: usize, v: usize) -> Entry
        ensures { result ≡ entry_at (slot_at (hub_of self.now.hub.now) i) v }
    {
        let there = (i < self.counts.peers) & (v < self.counts.vectors);
        if there {
            return self.known(i, v);
        }
        Entry {
            low: 0,
            high: 0,
            payload: 0,
            control: 0,
        }
    }
}

pub fn entry(hub: &[u32], i: usize, v: usize) -> Entry
    requires known { Known hub.now i }
    requires vector { KnownVector hub.now v }
    ensures { result ≡ entry_at (slot_at (hub_of hub.now) i) v }
{
    let counts = Counts::stored(hub);
    Entries { hub, counts }.known(i, v)
}

// `put_entry` with the numbers of peers and vectors in hand, so that the loop of a reset reads them once: 0.93 of the time of a
// disconnect at 4 by 4.
pub fn put_entry_in(hub: &mut [u32], counts: Counts, i: usize, v: usize, e: Entry)
    requires peers { counts.peers ≡ (hub_of hub.old).settings.peers }
    requires vectors { counts.vectors ≡ (hub_of hub.old).settings.vectors }
    requires known { Known hub.old i }
    requires vector { KnownVector hub.old v }
    ensures { hub_of hub.new ≡ with_slot (hub_of hub.old) i (with_entry (slot_at (hub_of hub.old) i) v e) }
{
    super::parts::put_entry(hub, counts.entry_start(i, v), counts.column(), e);
}

pub fn put_entry(hub: &mut [u32], i: usize, v: usize, e: Entry)
    requires known { Known hub.old i }
    requires vector { KnownVector hub.old v }
    ensures { hub_of hub.new ≡ with_slot (hub_of hub.old) i (with_entry (slot_at (hub_of hub.old) i) v e) }
{
    let counts = Counts::stored(hub);
    put_entry_in(hub, counts, i, v, e);
}
