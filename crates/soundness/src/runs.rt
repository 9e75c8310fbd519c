// The entries of neighbours that are all connected, or all not, are tested together: in each column they stand in one run of words.
ghost use Rattle.std.specs.Prelude.{◌&&◌, ◌≡◌, ◌+◌, ◌≤◌, ◌<◌, MatchOption, eqb};
ghost use Rattle.common.specs.Tests.{below};
ghost use Rattle.device.specs.Sound.{entry_fixed};
ghost use Rattle.words.specs.Layout.{hub_of};
ghost use Rattle.words.specs.Runs.{Run, run_of};
ghost use Rattle.soundness.specs.Scanned.{Failed, Scanned, Uniform, absent_registers, entries_from, entries_sound, stands};

use super::parts;
use super::slots::Slots;
use device::Peer;

// Whether a peer is connected, or all peers of a run are.
#[derive(Clone, Copy, PartialEq)]
pub enum Standing {
    Connected,
    Absent,
}

impl Standing {
    pub fn of(p: Peer) -> Self
        ensures { stands result ≡ eqb p.connected 1 }
    {
        if p.connected == 1 {
            return Self::Connected;
        }
        Self::Absent
    }
}

// A run of peers that are all connected, or all not, up to where a pass over the peers stands.
#[derive(Clone, Copy)]
pub struct Scan {
    pub from: usize,
    pub standing: Standing,
}

impl<'a> Slots<'a> {
    // No fixed bit is set in the entries of the peers from one id up to another.
    pub fn entries_fixed(&self, from: usize, to: usize) -> bool
        requires { Run self.now.hub.now from to }
        ensures { result ≡ run_of (hub_of self.now.hub.now) from to entry_fixed }
    {
        words::entries_only(self.hub, from, to, 0xFFFFFFFC, 0x00000001)
    }

    // The entries of a run that ends before an id.
    pub fn run_sound(&self, from: usize, to: usize, standing: Standing) -> bool
        requires { Uniform self.now.hub.now from to standing }
        ensures { result ≡ entries_from (hub_of self.now.hub.now) from to }
    {
        if to <= from {
            return true;
        }
        match standing {
            Standing::Connected => self.entries_fixed(from, to),
            Standing::Absent => words::entries_reset(self.hub, from, to),
        }
    }

    // One peer more. Where it ends the run, the run's entries are tested.
    fn scan_peer(&self, i: usize, scan: Scan) -> Option<Scan>
        requires known { i < self.now.settings.peers }
        requires passed { Scanned self.now.hub.now i scan }
        ensures { MatchOption result (Failed self.now.hub.now (i + 1)) (Scanned self.now.hub.now (i + 1)) }
    {
        let p = self.peer(i);
        let used = self.connected(i);
        let reset = parts::peer_reset(p);
        let ok = used | reset;
        if !ok {
            return None;
        }
        let standing = Standing::of(p);
        if standing == scan.standing {
            return Some(scan);
        }
        let run = self.run_sound(scan.from, i, scan.standing);
        run.then_some(Scan { from: i, standing })
    }

    pub fn runs_sound(&self) -> bool
        ensures { result ≡ (below self.now.settings.peers (absent_registers self.now.hub.now) && below self.now.settings.peers (entries_sound (hub_of self.now.hub.now))) }
    {
        let peers = self.peers();
        let mut scan = Scan {
            from: 0,
            standing: Standing::Connected,
        };
        for i in 0..peers {
            let Some(longer) = self.scan_peer(i, scan) else {
                return false;
            };
            scan = longer;
        }
        self.run_sound(scan.from, peers, scan.standing)
    }
}
