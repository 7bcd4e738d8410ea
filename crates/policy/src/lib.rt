//! Policies: which setting serves a demand next.
//!
//! All stand on one kernel: `fill` joins every port of one side that has a large load, along paths that `search` finds
//! and `shift` flips, in a setting that is being mended.
#![tactic(auto)]

ghost use Rattle.crossbar.specs.Models.{IsLawful};
ghost use Rattle.crossbar.specs.declared.setting.Setting.{Setting};
ghost use Rattle.std.specs.Prelude.{◌≡◌};

use crossbar::demand::Demand;
use crossbar::setting::Setting;

mod fill;
pub mod mend;
mod mending;
mod packets;
pub mod path;
pub mod peel;
pub mod raise;
pub mod rule;
mod search;
mod settle;
mod shift;
#[cfg(test)]
mod tests;
mod trail;

/// A policy chooses, for any demand, a setting that is lawful for it. Which of the lawful settings it gives is free.
pub trait Policy {
    // The setting that it gave last, at first the one that joins nothing.
    ghost given: { Self → Setting };

    /// A lawful setting for the demand: each joined pair has a packet, and every critical port is joined. Nothing is
    /// refused.
    fn choose(&mut self, demand: &Demand) -> Setting
        ensures lawful { IsLawful demand.now result }
        ensures last { given self.new ≡ result };
}
