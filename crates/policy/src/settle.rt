//! Joining every critical port of a demand.
ghost use Rattle.std.specs.Prelude.{◌≡◌, ◌≤◌};
ghost use Rattle.crossbar.specs.Models.{IsLawful, input_at, size, waiting};
ghost use Rattle.policy.specs.Mending.{pair_count};
ghost use Rattle.policy.specs.Settled.{Matched};

use crate::mending::Mending;
use crossbar::demand::Demand;
use crossbar::setting::Setting;

/// The setting `start` with every critical port joined, along paths, and with the critical ports joined that were.
///
/// No fewer pairs are joined than before, and nothing changes where every critical port was joined.
pub(crate) fn settle(demand: &Demand, start: &Setting) -> Setting
    requires { Matched (size demand.now) (waiting demand.now) (input_at start.now) }
    ensures lawful { IsLawful demand.now result }
    ensures grown { pair_count (input_at start.now) ≤ pair_count (input_at result) }
    ensures still { IsLawful demand.now start.now → input_at result ≡ input_at start.now }
{
    let want = demand.largest_load();
    if want == 0 {
        return *start;
    }
    let mut by_inputs = Mending {
        side: demand.inputs(),
        want,
        setting: *start,
    };
    let _joined = by_inputs.fill();
    let mut by_outputs = Mending {
        side: demand.outputs(),
        want,
        setting: by_inputs.setting.turned(),
    };
    let _joined = by_outputs.fill();
    by_outputs.setting.turned()
}
