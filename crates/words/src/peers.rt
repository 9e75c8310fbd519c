// Eight words for each peer.
ghost use Rattle.std.specs.Prelude.{◌≡◌};
ghost use Rattle.device.specs.World.{slot_at, with_slot, with_peer};
ghost use Rattle.words.specs.Layout.{hub_of, Known};

use device::Peer;

pub fn peer(hub: &[u32], i: usize) -> Peer
    requires { Known hub.now i }
    ensures { result ≡ (slot_at (hub_of hub.now) i).peer }
{
    super::parts::peer_from(hub, 10 + 8 * i)
}

pub fn put_peer(hub: &mut [u32], i: usize, p: Peer)
    requires { Known hub.old i }
    ensures { hub_of hub.new ≡ with_slot (hub_of hub.old) i (with_peer (slot_at (hub_of hub.old) i) p) }
{
    // By hand: the array and `Peer` are of other crates, so no `From` can stand here, nor in crate device, whose source is what its
    // theorems speak of.
    let values = [
        p.connected,
        p.command,
        p.bar0,
        p.bar1,
        p.privileged,
        p.message,
        p.interrupt,
        p.state,
    ];
    let start = 10 + 8 * i;
    hub[start..start + 8].copy_from_slice(&values);
}
