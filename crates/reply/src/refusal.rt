//! Why a call was refused, and where.
ghost use Rattle.reply.specs.Answers.{Reply, answer, code, refused};
ghost use Rattle.std.specs.Prelude.{◌≡◌, Err};

use crate::place::Place;
use crate::reason::Reason;

/// The error of a call that was refused and changed nothing.
#[derive(Clone, Copy, PartialEq, Eq, Debug)]
pub struct Refusal {
    /// Why the call was refused.
    pub reason: Reason,
    /// Where it was refused.
    pub place: Place,
}

impl Refusal {
    /// Refused for `reason` at `place`.
    pub fn new(reason: Reason, place: u16) -> Refusal
        ensures { answer (Err result) ≡ refused reason place }
    {
        Refusal {
            reason,
            place: Place::from(place),
        }
    }

    /// The 32 bits of the refusal: layer 4, number 8, place 20, most significant first. No other reply has them.
    pub fn code(self) -> u32
        ensures value { result ≡ code (answer (Err self)) }
        ensures alone { (other : Reply) → code (answer other) ≡ result → answer other ≡ answer (Err self) }
    {
        let layer = u32::from(self.reason.layer() as u8);
        let number = u32::from(self.reason.number());
        (layer << 28) + (number << 20) + u32::from(self.place)
    }
}

/// Refused for a reason at place 0.
impl From<Reason> for Refusal {
    ghost from_gives = { λ reason refusal. answer (Err refusal) ≡ refused reason 0 };

    fn from(reason: Reason) -> Refusal {
        Refusal::new(reason, 0)
    }
}
