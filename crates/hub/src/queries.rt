// Questions of the host: is this memory a sound hub, and is this peer connected?
ghost use Rattle.std.specs.Prelude.{◌≡◌};
ghost use Rattle.device.specs.Sound.{sound};
ghost use Rattle.words.specs.Layout.{hub_of};
ghost use Rattle.hub.specs.Answered.{flag_reply};
ghost use Rattle.hub.specs.Queries.{connected_answer};

use super::{Refusal, joining};

pub fn is_sound(hub: &[u32]) -> bool
    ensures { result ≡ sound (hub_of hub.now) }
{
    soundness::sound(hub)
}

// The checks are those of a connect, which a connected peer is refused with 5.
#[tactic(auto, using(crate::proofs::QueryLaws::queries))]
pub fn is_connected(hub: &[u32], id: u64) -> Result<bool, Refusal>
    ensures { flag_reply result ≡ connected_answer (hub_of hub.now) id }
{
    match joining::joining_refusal(hub, id) {
        Ok(()) => Ok(false),
        Err(Refusal::Connected) => Ok(true),
        Err(refusal) => Err(refusal),
    }
}
