//! What every call answers: done, with a count, or refused, for a reason and at a place.
#![tactic(auto)]

ghost use Rattle.reply.specs.Answers.{Reply, answer, code, place_of, reason_of};
ghost use Rattle.std.specs.Prelude.{◌≡◌};

use place::Place;
use reason::Reason;
use refusal::Refusal;

pub mod place;
pub mod reason;
pub mod refusal;
#[cfg(test)]
mod tests;

/// The answer of a call: done, with a place that says how many, which depends on the call; or refused.
pub type Reply = Result<Place, Refusal>;

/// Why a call was refused; none where it was done.
pub fn reason_of(reply: Reply) -> Option<Reason>
    ensures { result ≡ reason_of (answer reply) }
{
    reply.err().map(|refusal| refusal.reason)
}

/// How many a done call counts, or where a call was refused.
pub fn place_of(reply: Reply) -> u32
    ensures { result ≡ place_of (answer reply) }
{
    match reply {
        Ok(count) => u32::from(count),
        Err(refusal) => u32::from(refusal.place),
    }
}

/// The 32 bits of a reply: its count where the call was done, else the bits of the refusal. No other reply has them.
pub fn code(reply: Reply) -> u32
    ensures value { result ≡ code (answer reply) }
    ensures alone { (other : Reply) → code (answer other) ≡ result → answer other ≡ answer reply }
{
    match reply {
        Ok(place) => u32::from(place),
        Err(refusal) => refusal.code(),
    }
}
