//! Mending a setting for a demand.
ghost use Rattle.crossbar.specs.Models.{IsLawful, input_at, size, waiting};
ghost use Rattle.policy.specs.Mending.{Mends};

use crate::packets::with_packets;
use crate::settle::settle;
use crossbar::demand::Demand;
use crossbar::setting::Setting;

/// A setting that is lawful for the demand, found along paths from the setting `start`.
///
/// Pairs of `start` without a packet are dropped first. The answer joins at least as many pairs as are then left, and is
/// `start` itself where that is lawful already. Nothing is refused.
#[inline(always)]
pub fn mend(demand: &Demand, start: &Setting) -> Setting
    ensures { Mends (size demand.now) (waiting demand.now) (input_at start.now) (input_at result) }
{
    settle(demand, &with_packets(demand, start))
}

/// A setting that is lawful for the demand, found along paths from the setting that joins nothing.
pub fn lawful_setting(demand: &Demand) -> Setting
    ensures { IsLawful demand.now result }
{
    settle(demand, &Setting::empty())
}
