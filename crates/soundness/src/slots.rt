// The slots of a hub: its words, and the settings that stand in them.
ghost use Rattle.std.specs.Prelude.{◌≡◌, ◌<◌, ◌≤◌, ◌^◌};
ghost use Rattle.device.specs.World.{slot_at};
ghost use Rattle.words.specs.Layout.{hub_of};

use device::{Peer, Settings};

#[derive(Clone, Copy)]
pub struct Slots<'a> {
    pub hub: &'a [u32],
    pub settings: Settings,
    ghost same: { settings ≡ (hub_of hub.now).settings },
}

impl<'a> Slots<'a> {
    pub fn peers(&self) -> usize
        ensures value { result ≡ self.now.settings.peers }
        ensures few { result ≤ 2 ^ 16 }
    {
        self.settings.peers as usize
    }

    pub fn peer(&self, i: usize) -> Peer
        requires { i < self.now.settings.peers }
        ensures { result ≡ (slot_at (hub_of self.now.hub.now) i).peer }
    {
        words::peer(self.hub, i)
    }
}
