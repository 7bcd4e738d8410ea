//! A closed batch: its packets leave in the slots that are left.
ghost use Rattle.std.specs.Prelude.{◌≡◌, ◌≤◌};
ghost use Rattle.crossbar.specs.Models.{largest_of};

use crate::slots::Slots;
use crossbar::demand::Demand;

pub mod slot;

/// The packets of a period that is over, and the slots left to clear them.
///
/// No load is ever above the slots left. Such a batch is not let go of: it ends by being taken apart.
pub struct Clearing {
    demand: Demand,
    left: u16,
    ghost in_time: { largest_of demand ≤ left },
}

impl Clearing {
    /// All the slots of a period for a demand with no load above them.
    pub(crate) fn new(slots: Slots, demand: Demand) -> Clearing
        requires { largest_of demand ≤ slots.count }
        ensures demand { result.demand ≡ demand }
        ensures left { result.left ≡ slots.count }
    {
        Clearing {
            demand,
            left: slots.count(),
        }
    }

    /// The packets still to clear.
    // Beside the same of `Gathering`: a trait for the two would say more than both.
    pub fn demand(&self) -> &Demand
        ensures { result.now ≡ self.now.demand }
    {
        &self.demand
    }

    /// The slots left to clear them.
    pub fn slots_left(&self) -> u16
        ensures { result ≡ self.now.left }
    {
        self.left
    }

    /// Takes the batch apart, into its demand and its slots left.
    pub fn into_parts(self) -> (Demand, u16)
        ensures demand { result.0 ≡ self.demand }
        ensures left { result.1 ≡ self.left }
    {
        let Clearing { demand, left } = self;
        (demand, left)
    }
}
