//! All that the input says of one period.
use crate::entry::{Entry, Fault};
use crate::names::Names;
use document::period::Line;
use readout::Readout;
use std::alloc::{AllocError, Global};

/// The line, the ports with their names, and the readouts; a number that the input does not give is 0.
// No `Option` for a number: 0 is out of range, and refused by the same reply as a missing number would be.
#[derive(Drop)]
pub(crate) struct Plan<'a> {
    pub line: Line,
    pub ports: usize,
    pub names: Names<'a>,
    pub readouts: Vec<Numbered<Readout>>,
    pub faults: Vec<Numbered<Fault>>,
}

/// Something with the number of its line in the input, from 1.
#[derive(Clone, Copy)]
pub(crate) struct Numbered<T> {
    pub line: usize,
    pub item: T,
}

impl<'a> Plan<'a> {
    /// Reads the whole input; lines that cannot be read are noted and passed over.
    // No `TryFrom`: it asks for memory.
    pub(crate) fn read(heap: Global, text: &'a str) -> Result<Plan<'a>, AllocError> {
        let mut plan = Plan {
            line: Line::default(),
            ports: 0,
            names: Names::default(),
            readouts: Vec::new(heap),
            faults: Vec::new(heap),
        };
        for (line, text) in (1..).zip(text.lines()) {
            match Entry::try_from(text) {
                Ok(entry) => plan.note(line, entry)?,
                Err(item) => plan.faults.push(Numbered { line, item })?,
            }
        }
        Ok(plan)
    }

    fn note(&mut self, line: usize, entry: Entry<'a>) -> Result<(), AllocError> {
        match entry {
            Entry::Blank => {}
            Entry::Rate(rate) => self.line.rate = rate,
            Entry::Period(period) => self.line.period = period,
            Entry::Packet(packet) => self.line.packet = packet,
            Entry::Ports(ports) => self.ports = ports,
            Entry::Name(port, name) => self.names.put(port, name),
            Entry::Readout(item) => self.readouts.push(Numbered { line, item })?,
        }
        Ok(())
    }
}
