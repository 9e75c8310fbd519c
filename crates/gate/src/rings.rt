// One ring of one vector at one id of a hub: two parameters, as `Ring.ring` of the definitions takes them.
// `Usable` is a clause, and no type of lent words has it: a ring changes the words.
ghost use Rattle.std.specs.Prelude.{◌≡◌};
ghost use Rattle.device.specs.Ring;
ghost use Rattle.device.specs.World.{slot_at, entry_at};
ghost use Rattle.words.specs.Layout.{hub_of, Known, KnownVector};
ghost use Rattle.gate.specs.RingOutcome.{outcome_list, Usable, disarmed};

use device::{Entry, PeerId, Target, Vector};

fn entry_of(hub: &[u32], t: PeerId, v: Vector) -> Entry
    requires { Known hub.now t.0 × KnownVector hub.now v.0 }
    ensures { result ≡ entry_at (slot_at (hub_of hub.now) t.0) v.0 }
{
    words::entry(hub, usize::from(t.0), usize::from(v.0))
}

// Either a live peer with that vector, or nobody.
fn target(hub: &[u32], t: PeerId, v: Vector) -> Target
    requires { Usable hub.now }
    ensures { result ≡ Ring.target (hub_of hub.now) t v }
{
    let s = words::settings(hub);
    if s.peers <= u64::from(t.0) {
        return Target::Nobody;
    }
    let p = words::peer(hub, usize::from(t.0));
    if p.connected != 1 {
        return Target::Nobody;
    }
    if s.vectors <= u64::from(v.0) {
        return Target::Nobody;
    }
    Target::Live(super::gate_of(p, entry_of(hub, t, v)))
}

// Interrupt Control becomes 0.
fn disarm(hub: &mut [u32], t: PeerId)
    requires { Known hub.old t.0 }
    ensures { hub_of hub.new ≡ disarmed (hub_of hub.old) t.0 }
{
    let mut p = words::peer(hub, usize::from(t.0));
    p.interrupt = 0;
    words::put_peer(hub, usize::from(t.0), p);
}

// The ring passes the target's gate. Where that clears the gate's interrupt, Interrupt Control is cleared with it.
// The answer is whether the ring is delivered.
pub fn ring(hub: &mut [u32], t: PeerId, v: Vector) -> bool
    requires { Usable hub.old }
    ensures hub { hub_of hub.new ≡ (Ring.ring (hub_of hub.old) t v).hub }
    ensures deliveries { outcome_list (hub_of hub.old) t v result ≡ (Ring.ring (hub_of hub.old) t v).deliveries }
{
    let Target::Live(gate) = target(hub, t, v) else {
        return false;
    };
    let Some(after) = super::pass_local(gate) else {
        return false;
    };
    if gate.interrupt & !after.interrupt {
        disarm(hub, t);
    }
    true
}
