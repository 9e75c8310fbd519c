// The register region: what a read gives, and the registers with one of them stored to.
#![tactic(auto)]

ghost use Rattle.std.specs.Prelude.{◌≡◌, ◌<◌, ◌^◌};
ghost use Rattle.std.specs.Int.Bits.{bit_and};
ghost use Rattle.device.specs.Effect.{with_state, state_value, changes, rung_peer, rung_vector};
ghost use Rattle.device.specs.Ring.{with_interrupt};
ghost use Rattle.device.specs.Registers.{memory_on, register_at, register_value, register_read};

use device::{Peer, PeerId, Settings, Vector};

// What the register region and the MSI-X region read while Command bit 1 is off.
pub const UNMAPPED: u64 = 0xFFFFFFFF;

// Command bit 1, Memory Space.
#[tactic(auto, unfolding(device::specs::Registers::memory_on))]
pub fn memory_on(p: Peer) -> bool
    ensures { result ≡ memory_on p }
{
    p.command / 2 % 2 == 1
}

// The Doorbell, at 0x0C, reads 0, as what is no register does.
#[tactic(auto, unfolding(device::specs::Registers::register_read, device::specs::Registers::register_value, device::specs::Registers::register_at))]
pub fn read(s: Settings, who: u64, p: Peer, at: u64) -> u64
    requires { (who < 2 ^ 32) × (s.peers < 2 ^ 32) }
    ensures is { result ≡ register_read s who p at }
    ensures fits { result < 2 ^ 32 }
{
    if !memory_on(p) {
        return UNMAPPED;
    }
    match at {
        0x00 => who,
        0x04 => s.peers,
        0x08 => u64::from(p.interrupt),
        0x10 => u64::from(p.state),
        _ => 0,
    }
}

// Interrupt Control has bit 0 only.
pub fn with_interrupt(p: Peer, value: u32) -> Peer
    ensures { result ≡ with_interrupt p (bit_and value 1) }
{
    Peer {
        interrupt: value & 1,
        ..p
    }
}

pub fn with_state(p: Peer, value: u32) -> Peer
    ensures { result ≡ with_state p (state_value value) }
{
    Peer { state: value, ..p }
}

// Whether a State that was `old` and is `new` has changed (C-11): only then are the others rung.
#[tactic(auto, unfolding(device::specs::Effect::changes))]
pub fn state_changes(old: u32, new: u32) -> bool
    ensures { result ≡ changes old new }
{
    old != new
}

// A Doorbell store's vector, bits 0-15, and target, bits 16-31.
pub fn rung_vector(value: u32) -> Vector
    ensures { result ≡ rung_vector value }
{
    Vector((value % 65536) as u16)
}

pub fn rung_peer(value: u32) -> PeerId
    ensures { result ≡ rung_peer value }
{
    PeerId((value / 65536 % 65536) as u16)
}
