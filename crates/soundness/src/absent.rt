// The peers that are not connected, run by run: their registers and entries hold reset values.
ghost use Rattle.std.specs.Prelude.{◌≡◌, ◌<◌};
ghost use Rattle.common.specs.Tests.{below};
ghost use Rattle.soundness.specs.Absent.{Here, NextAbsent, Vacant, absent_slot, gap_reset};
ghost use Rattle.soundness.specs.Scanned.{joined};

use super::parts;
use super::slots::Slots;
use device::Peer;

// A run of ids whose peers are not connected: where it begins and ends, and the registers of its peers together.
#[derive(Clone, Copy)]
struct Gap {
    from: usize,
    to: usize,
    all: Peer,
}

impl<'a> Slots<'a> {
    pub fn connected(&self, i: usize) -> bool
        requires { i < self.now.settings.peers }
        ensures { result ≡ joined self.now.hub.now i }
    {
        self.peer(i).connected == 1
    }

    // The first id from one on whose peer is not connected.
    fn next_absent(&self, from: usize) -> Option<usize>
        ensures { NextAbsent self.now.hub.now from self.now.settings.peers result }
    {
        (from..self.peers()).find(|i| !self.connected(*i))
    }

    fn gap_from(&self, from: usize) -> Gap
        requires { Here self.now.hub.now self.now.settings.peers from }
        ensures start { result.from ≡ from }
        ensures run { Vacant self.now.hub.now self.now.settings.peers result }
    {
        let peers = self.peers();
        let mut gap = Gap {
            from,
            to: from + 1,
            all: self.peer(from),
        };
        for i in from + 1..peers {
            if self.connected(i) {
                return gap;
            }
            let p = self.peer(i);
            gap.to = i + 1;
            gap.all = parts::together(gap.all, p);
        }
        gap
    }

    fn gap_reset(&self, gap: Gap) -> bool
        requires { Vacant self.now.hub.now self.now.settings.peers gap }
        ensures { result ≡ gap_reset self.now.hub.now gap.from gap.to }
    {
        let entries = words::entries_reset(self.hub, gap.from, gap.to);
        parts::peer_reset(gap.all) & entries
    }

    pub fn absent_sound(&self) -> bool
        ensures { result ≡ below self.now.settings.peers (absent_slot self.now.hub.now) }
    {
        let mut next = self.next_absent(0);
        while let Some(from) = next {
            let gap = self.gap_from(from);
            if !self.gap_reset(gap) {
                return false;
            }
            next = self.next_absent(gap.to);
        }
        true
    }
}
