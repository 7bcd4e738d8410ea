//! How many ports a crossbar has.
ghost use Rattle.std.specs.Prelude.{◌≡◌, ◌<◌, ◌≤◌, MatchOption};

use crate::port::MOST_PORTS;

/// The number n of inputs, and of outputs: 1 to 16.
// Not one type with the slots of a period: that number is a `u16` and this one a `u8`, as ports are numbered, and a type
// over both would need a trait that says which number each is.
#[derive(Clone, Copy)]
pub struct Ports {
    count: u8,
    ghost some: { 1 ≤ count },
    ghost few: { count ≤ 16 },
}

impl Ports {
    /// `count` inputs and as many outputs, or `None` where that is 0 or above 16.
    // As `NonZero::new`, and no `TryFrom`: an error type would say no more than `None`.
    pub fn new(count: usize) -> Option<Ports>
        ensures { MatchOption result ((1 ≤ count) × (count ≤ 16) → ⊥) (λ ports. ports.count ≡ count) }
    {
        let count = u8::try_from(count).ok()?;
        if (1..=MOST_PORTS).contains(&count) {
            Some(Ports { count })
        } else {
            None
        }
    }

    /// The number itself.
    pub fn count(self) -> u8
        ensures { result ≡ self.count }
    {
        self.count
    }
}
