//! How many packets wait, from each input to each output.
ghost use Rattle.std.specs.Prelude.{◌≤◌};
ghost use Rattle.crossbar.specs.Arrays.{Square, grid};
ghost use Rattle.crossbar.specs.Loads.{largest_load, turned};
ghost use Rattle.crossbar.specs.Sides.{Tells};

use crate::ports::Ports;
use crate::side::PortLoad;

pub mod counting;
pub mod serving;
pub mod sides;

/// The most packets that may wait at one port.
pub const MOST_LOAD: u16 = 1024;

/// The packets that wait, by input and output; no port has a load above 1,024.
///
/// Kept beside the counts, so that reading it costs nothing: what waits at each port.
#[derive(Clone, Copy)]
pub struct Demand {
    ports: Ports,
    counts: [[u16; 16]; 16],
    inputs: [PortLoad; 16],
    outputs: [PortLoad; 16],
    ghost square: { Square counts },
    ghost at_inputs: { Tells ports.count inputs (grid ports.count counts) },
    ghost at_outputs: { Tells ports.count outputs (turned (grid ports.count counts)) },
    ghost bounded: { largest_load ports.count (grid ports.count counts) ≤ 1024 },
}
