// Results as the numbers that C gets. Functions, and no `From`: `Reply` and `Result` are both of other crates.
ghost use Rattle.std.specs.Prelude.{◌≡◌};
ghost use Rattle.hub.specs.Answered.{done_reply, flag_reply, value_reply};

use device::Reply;
use hub::Refusal;

// A refusal has value 0.
pub fn value(outcome: Result<u32, Refusal>) -> Reply
    ensures { result ≡ value_reply outcome }
{
    match outcome {
        Ok(value) => Reply { number: 0, value },
        Err(refusal) => Reply {
            number: refusal.number(),
            value: 0,
        },
    }
}

// 1 for yes.
pub fn flag(outcome: Result<bool, Refusal>) -> Reply
    ensures { result ≡ flag_reply outcome }
{
    value(outcome.map(u32::from))
}

// Nothing is read.
pub fn done<T: Drop>(outcome: Result<T, Refusal>) -> Reply
    ensures { result ≡ done_reply outcome }
{
    value(outcome.map(|_| 0))
}
