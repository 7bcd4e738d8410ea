//! A setting that is being mended for one side of a demand.
ghost use Rattle.crossbar.specs.Models.{input_at};
ghost use Rattle.policy.specs.Graphs.{Fits, graph_of};

use crossbar::setting::Setting;
use crossbar::side::Side;

/// A setting on its way to joining every port of `side` that has a load of `want` or more.
///
/// Each joined pair has a packet. The ports of the side are called inputs, and the others outputs.
#[derive(Clone, Copy)]
pub struct Mending<'a> {
    pub side: Side<'a>,
    pub want: u16,
    pub setting: Setting,
    ghost fits: { Fits side.ports.count (graph_of side) (input_at setting) },
}
