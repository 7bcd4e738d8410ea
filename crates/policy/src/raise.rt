//! Raising a demand until every port has its largest load.
ghost use Rattle.policy.specs.Raising.{Raised};

use crossbar::demand::Demand;
use crossbar::port::{Pair, Port};

/// The demand with packets added until every load is its largest load, D.
///
/// No count is lowered, and nothing is added at a critical port. Where nothing waits, nothing is added.
pub fn raise(demand: &Demand) -> Demand
    ensures { Raised demand.now result }
{
    let ports = demand.ports().count();
    let level = demand.largest_load();
    let mut raised = *demand;
    let mut input = 0;
    let mut output = 0;
    // A step moves one of the two cursors, by the loads so far, so that no range or iterator counts the steps.
    while input < ports && output < ports {
        let at_input = level - raised.load(Port::Input(input));
        let at_output = level - raised.load(Port::Output(output));
        let _room = raised.add_many(Pair { input, output }, at_input.min(at_output));
        if at_input <= at_output {
            input += 1;
        } else {
            output += 1;
        }
    }
    raised
}
