// Whole slots and whole hubs.
ghost use Rattle.std.specs.Prelude.{◌≡◌, length, replicate};
ghost use Rattle.device.specs.SetUp.{fresh_hub};
ghost use Rattle.device.specs.World.{with_slot, reset_slot};
ghost use Rattle.words.specs.Layout.{hub_words, hub_of, Known, Storable};

use super::sizes::Counts;
use device::{Entry, Peer, Settings};

// A peer's registers and entries at their reset values, connected (1) or not (0): the number is the word's, as `reset_slot` and
// `Peer::reset` take it.
pub fn put_reset(hub: &mut [u32], i: usize, connected: u32)
    requires { Known hub.old i }
    ensures { hub_of hub.new ≡ with_slot (hub_of hub.old) i (reset_slot (hub_of hub.old).settings.vectors connected) }
{
    super::put_peer(hub, i, Peer::reset(connected));
    let counts = Counts::stored(hub);
    for v in 0..counts.vectors {
        super::entries::put_entry_in(hub, counts, i, v, Entry::reset());
    }
}

// A hub with these settings and nobody connected: but for the settings every word is 0, and 1 in the column of controls.
pub fn put_fresh(hub: &mut [u32], s: Settings)
    requires size { length hub.old ≡ hub_words s.peers s.vectors }
    requires small { Storable s }
    ensures { hub_of hub.new ≡ fresh_hub s }
{
    let size = s.peers as usize * s.vectors as usize;
    let start = 10 + 8 * s.peers as usize + 3 * size;
    super::parts::fill(&mut hub[..start], 0);
    super::put_settings(hub, s);
    super::parts::fill(&mut hub[start..start + size], Entry::CONTROL);
}

// All words zero, whatever their number.
pub fn put_zero(hub: &mut [u32])
    ensures { hub.new ≡ replicate (length hub.old) 0 }
{
    super::parts::fill(hub, 0);
}
