//! The place of a reply: a number of 20 bits.
ghost use Rattle.std.specs.Prelude.{◌≡◌, ◌^◌, ◌<◌, ◌≤◌, MatchOption};

/// A number below 2^20: where a call was refused, or how many a done call counts.
#[derive(Clone, Copy, PartialEq, Eq, Debug)]
pub struct Place {
    value: u32,
    ghost fits: { value < 2 ^ 20 },
}

impl Place {
    /// The place `value`, or `None` where it is 2^20 or more.
    // As `NonZero::new`, and no `TryFrom`: an error type would say no more than `None`.
    pub fn new(value: u32) -> Option<Place>
        ensures { MatchOption result (2 ^ 20 ≤ value) (λ place. place.value ≡ value) }
    {
        if value < 1 << 20 {
            Some(Place { value })
        } else {
            None
        }
    }
}

/// A count of 16 bits always fits.
impl From<u16> for Place {
    ghost from_gives = { λ count place. place.value ≡ count };

    fn from(count: u16) -> Place {
        Place {
            value: u32::from(count),
        }
    }
}

/// The number itself.
impl From<Place> for u32 {
    ghost from_gives = { λ place number. number ≡ place.value };

    fn from(place: Place) -> u32 {
        place.value
    }
}
