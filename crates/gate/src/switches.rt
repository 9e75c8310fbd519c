// The switches of a target.
ghost use Rattle.std.specs.Prelude.{◌≡◌, ◌<◌};
ghost use Rattle.common.specs.Bytes.{bit};
ghost use Rattle.device.specs.Ring.{gate_of, opens};
ghost use Rattle.gate.specs.PassedGate.{passed_gate};

use device::{Entry, Gate, Peer};

// Bit k of a word is 1.
fn bit(word: u32, k: u32) -> bool
    requires { k < 32 }
    ensures { result ≡ bit k word }
{
    (word >> k) % 2 == 1
}

#[tactic(auto, unfolding(device::specs::Ring::gate_of))]
pub fn gate_of(p: Peer, e: Entry) -> Gate
    ensures { result ≡ gate_of p e }
{
    Gate {
        master: bit(p.command, 2),
        enabled: bit(p.message, 7),
        masked: bit(p.message, 6),
        silenced: bit(e.control, 0),
        interrupt: bit(p.interrupt, 0),
        oneshot: bit(p.privileged, 0),
    }
}

// Every switch is on: a ring is delivered.
pub fn opens(g: Gate) -> bool
    ensures { result ≡ opens g }
{
    (g.enabled & !g.masked) & (g.interrupt & !g.silenced) & g.master
}

// The gate after a ring: one that is delivered in one-shot mode clears the interrupt.
pub fn passed_gate(g: Gate) -> Gate
    ensures { result ≡ passed_gate g }
{
    let clear = opens(g) & g.oneshot;
    Gate {
        interrupt: g.interrupt & !clear,
        ..g
    }
}
