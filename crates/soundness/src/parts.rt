// A peer's registers: fixed bits where it is connected, reset values where it is not. Both can be tested of several peers
// together.
ghost use Rattle.std.specs.Prelude.{◌≡◌};
ghost use Rattle.common.specs.Bytes;
ghost use Rattle.device.specs.declared.Settings;
ghost use Rattle.device.specs.Sound;
ghost use Rattle.soundness.specs.Together;

use device::Peer;

// No bit is set but those of the mask.
fn only(mask: u32, x: u32) -> bool
    ensures { result ≡ Bytes.only mask x }
{
    x & mask == x
}

// The masks are the same for all settings.
pub fn peer_fixed(p: Peer) -> bool
    ensures { (s : Settings.Settings) → result ≡ Sound.peer_fixed s p }
{
    only(0x0406, p.command)
        & only(0xFFFFF000, p.bar0)
        & only(0xFFFFF000, p.bar1)
        & only(0x01, p.privileged)
        & only(0xC0, p.message)
        & only(0x01, p.interrupt)
}

// Not `p == Peer::reset(0)`: a derive would stand in crate device, whose source is what its theorems speak of.
pub fn peer_reset(p: Peer) -> bool
    ensures { result ≡ Sound.peer_reset p }
{
    (p.connected == 0)
        & (p.command == 0)
        & (p.bar0 == 0)
        & (p.bar1 == 0)
        & (p.privileged == 0)
        & (p.message == 0)
        & (p.interrupt == 0)
        & (p.state == 0)
}

// The bits that are set in the registers of either peer. Not `impl BitOr`: it would stand in crate device, whose source is what its
// theorems speak of.
pub fn together(a: Peer, b: Peer) -> Peer
    ensures { result ≡ Together.together a b }
{
    Peer {
        connected: a.connected | b.connected,
        command: a.command | b.command,
        bar0: a.bar0 | b.bar0,
        bar1: a.bar1 | b.bar1,
        privileged: a.privileged | b.privileged,
        message: a.message | b.message,
        interrupt: a.interrupt | b.interrupt,
        state: a.state | b.state,
    }
}
