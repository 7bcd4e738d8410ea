//! How many slots a period has.
ghost use Rattle.std.specs.Prelude.{◌≡◌, ◌≤◌, MatchOption};

/// The most slots that a period has.
pub const MOST_SLOTS: u16 = 1024;

/// The number L of slots of a period: 1 to 1,024.
// Not one type with the ports of a crossbar, whose number is a `u8`: `Ports` says why.
#[derive(Clone, Copy)]
pub struct Slots {
    count: u16,
    ghost some: { 1 ≤ count },
    ghost few: { count ≤ 1024 },
}

impl Slots {
    /// `count` slots, or `None` where that is 0 or above 1,024.
    // As `NonZero::new`, and no `TryFrom`: an error type would say no more than `None`.
    pub fn new(count: usize) -> Option<Slots>
        ensures { MatchOption result ((1 ≤ count) × (count ≤ 1024) → ⊥) (λ slots. slots.count ≡ count) }
    {
        let count = u16::try_from(count).ok()?;
        if (1..=MOST_SLOTS).contains(&count) {
            Some(Slots { count })
        } else {
            None
        }
    }

    /// The number itself.
    pub fn count(self) -> u16
        ensures { result ≡ self.count }
    {
        self.count
    }
}
