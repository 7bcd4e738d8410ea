//! Gathering the packets of a camera readout.
#![tactic(auto)]

ghost use Rattle.readout.specs.Readouts.{ReadOut};

use batch::gathering::Gathering;
use crossbar::port::Pair;
use reply::refusal::Refusal;

/// What a camera sends to a machine in one period.
#[derive(Clone, Copy)]
pub struct Readout {
    pub pair: Pair,
    pub packets: u32,
}

/// How many packets of a readout were taken, and why the next was refused, if one was.
#[derive(Clone, Copy)]
pub struct Taken {
    pub packets: u32,
    pub refused: Option<Refusal>,
}

/// Gathers the packets of a readout one by one, up to the first that is refused.
pub fn gather(batch: &mut Gathering, readout: Readout) -> Taken
    ensures { ReadOut batch.old readout result batch.new }
{
    for packets in 0..readout.packets {
        if let Err(refusal) = batch.add(readout.pair) {
            return Taken {
                packets,
                refused: Some(refusal),
            };
        }
    }
    Taken {
        packets: readout.packets,
        refused: None,
    }
}
