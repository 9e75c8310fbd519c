// The whole hub: the registers of every peer, collected by or and tested once, then the entries. Most hubs have all peers connected,
// or none: then the entries are one run, which is known once the peers are counted. Where few are missing, all entries are tested
// for their fixed bits, which reset values pass too, and the absent peers for reset values; else run by run.
ghost use Rattle.std.specs.Prelude.{◌≡◌, ◌+◌, ◌<◌};
ghost use Rattle.device.specs.Sound;
ghost use Rattle.words.specs.Layout.{hub_of};
ghost use Rattle.soundness.specs.Scanned.{Seen, Uniform, slots_sound};

use super::parts;
use super::runs::Standing;
use super::slots::Slots;
use device::Peer;

// The peers passed so far: their registers together, and how many are connected.
#[derive(Clone, Copy)]
struct Peers {
    all: Peer,
    connected: usize,
}

// The slots of a hub all of whose peers are passed.
#[derive(Drop)]
struct Counted<'a> {
    slots: Slots<'a>,
    peers: Peers,
    ghost seen: { Seen slots.hub.now slots.settings slots.settings.peers peers },
}

fn see_peer(slots: &Slots, i: usize, seen: Peers) -> Peers
    requires known { i < slots.now.settings.peers }
    requires passed { Seen slots.now.hub.now slots.now.settings i seen }
    ensures { Seen slots.now.hub.now slots.now.settings (i + 1) result }
{
    let p = slots.peer(i);
    Peers {
        all: parts::together(seen.all, p),
        connected: seen.connected + usize::from(p.connected == 1),
    }
}

impl<'a> Counted<'a> {
    fn of(slots: Slots<'a>) -> Self
        ensures { result.slots ≡ slots.entry }
    {
        let mut peers = Peers {
            all: Peer::reset(0),
            connected: 0,
        };
        for i in 0..slots.peers() {
            peers = see_peer(&slots, i, peers);
        }
        Counted { slots, peers }
    }

    // Some peers are connected, and some are not.
    fn mixed_sound(&self) -> bool
        requires { self.now.peers.connected ≡ self.now.slots.settings.peers → ⊥ }
        ensures { result ≡ slots_sound self.now.slots.hub.now self.now.slots.settings }
    {
        let peers = self.slots.peers();
        let fixed = parts::peer_fixed(self.peers.all);
        if peers <= 2 * self.peers.connected {
            let entries = self.slots.entries_fixed(0, peers);
            let absent = self.slots.absent_sound();
            return fixed & entries & absent;
        }
        let runs = self.slots.runs_sound();
        fixed & runs
    }

    // Two returns alike: with one function for both, the loop over the peers is not vectorised, and the whole takes a quarter longer.
    fn sound(&self) -> bool
        ensures { result ≡ slots_sound self.now.slots.hub.now self.now.slots.settings }
    {
        let peers = self.slots.peers();
        let connected = self.peers.connected;
        if connected == peers {
            let fixed = parts::peer_fixed(self.peers.all);
            return fixed & self.slots.run_sound(0, peers, Standing::Connected);
        }
        if connected == 0 {
            let reset = parts::peer_reset(self.peers.all);
            return reset & self.slots.run_sound(0, peers, Standing::Absent);
        }
        self.mixed_sound()
    }
}

pub fn sound(hub: &[u32]) -> bool
    ensures { result ≡ Sound.sound (hub_of hub.now) }
{
    if !words::fits(hub) {
        return false;
    }
    let settings = words::settings(hub);
    if !super::accepted(settings) {
        return false;
    }
    Counted::of(Slots { hub, settings }).sound()
}
