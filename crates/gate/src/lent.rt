// A ring at a gate that is lent: the gate changes where it stands.
ghost use Rattle.std.specs.Bool.{then_some};
ghost use Rattle.std.specs.Prelude.{◌≡◌};
ghost use Rattle.device.specs.Ring.{opens};
ghost use Rattle.gate.specs.PassedGate.{passed_gate};

use device::Gate;

// The answer is whether the ring is delivered.
pub fn pass(g: &mut Gate) -> bool
    ensures { (result ≡ opens g.old) × (g.new ≡ passed_gate g.old) }
{
    let was = *g;
    *g = super::passed_gate(was);
    super::opens(was)
}

// The gate is lent from a local, so callers pass it by value. None where the ring is lost.
pub fn pass_local(g: Gate) -> Option<Gate>
    ensures { result ≡ then_some (opens g) (passed_gate g) }
{
    let mut gate = g;
    let delivered = pass(&mut gate);
    delivered.then_some(gate)
}
