//! An open batch: it takes packets for the next period.
ghost use Rattle.std.specs.Prelude.{◌≤◌};
ghost use Rattle.crossbar.specs.Models.{largest_of};

use crate::slots::Slots;
use crossbar::demand::Demand;

pub mod calls;

/// The packets gathered so far for a period of L slots; no load is ever above L.
#[derive(Drop)]
pub struct Gathering {
    slots: Slots,
    demand: Demand,
    ghost bounded: { largest_of demand ≤ slots.count },
}
