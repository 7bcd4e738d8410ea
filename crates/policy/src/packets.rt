//! Dropping the pairs of a setting that have no packet.
ghost use Rattle.std.specs.Prelude.{◌≡◌};
ghost use Rattle.crossbar.specs.Models.{input_at, waiting};
ghost use Rattle.policy.specs.Mending.{with_packets};

use crossbar::demand::Demand;
use crossbar::setting::Setting;

/// The pairs of a setting that have a packet.
#[inline(always)]
pub(crate) fn with_packets(demand: &Demand, setting: &Setting) -> Setting
    ensures { input_at result ≡ with_packets (waiting demand.now) (input_at setting.now) }
{
    let mut kept = Setting::empty();
    for pair in setting.pairs() {
        if demand.count(pair) > 0 {
            let _joined = kept.join(pair);
        }
    }
    kept
}
