//! Making a demand, adding packets, and reading counts and loads.
ghost use Rattle.std.specs.Prelude.{◌≡◌, ◌+◌, ◌≤◌, true, Decides, if◌then◌else◌};
ghost use Rattle.crossbar.specs.Calls.{Added, AddedMany};
ghost use Rattle.crossbar.specs.Clearing.{NoFewer};
ghost use Rattle.crossbar.specs.Loads.{Critical, nothing, with_count};
ghost use Rattle.crossbar.specs.Models.{has_pair, has_room, has_room_for, largest_of, load_of, size, waiting};
ghost use Rattle.crossbar.specs.declared.port.Port.TheVariants.{Input, Output};

use super::{Demand, MOST_LOAD};
use crate::port::{Pair, Port};
use crate::ports::Ports;
use crate::side::PortLoad;

impl Demand {
    /// A demand in which nothing waits.
    pub fn empty(ports: Ports) -> Demand
        ensures ports { result.ports ≡ ports }
        ensures empty { waiting result ≡ nothing }
    {
        let idle = PortLoad::idle();
        Demand {
            ports,
            counts: [[0; 16]; 16],
            inputs: [idle; 16],
            outputs: [idle; 16],
        }
    }

    /// The number of inputs and of outputs.
    pub fn ports(&self) -> Ports
        ensures { result ≡ self.now.ports }
    {
        self.ports
    }

    /// Whether the demand has a pair: its input and its output are below n.
    pub fn has_pair(&self, pair: Pair) -> bool
        ensures { result ≡ has_pair self.now pair }
    {
        let ports = self.ports.count();
        pair.input < ports && pair.output < ports
    }

    /// How many packets wait for a pair; 0 where the demand has no such pair.
    pub fn count(&self, pair: Pair) -> u16
        ensures { result ≡ waiting self.now pair.input pair.output }
    {
        if !self.has_pair(pair) {
            return 0;
        }
        self.counts[pair.input as usize][pair.output as usize]
    }

    /// The load of a port: all packets that wait at an input, or for an output; 0 where there is no such port.
    pub fn load(&self, port: Port) -> u16
        ensures { result ≡ load_of self.now port }
    {
        match port {
            Port::Input(input) => self.inputs().load(input),
            Port::Output(output) => self.outputs().load(output),
        }
    }

    /// The largest of the loads, D. No list of fewer settings clears the demand.
    pub fn largest_load(&self) -> u16
        ensures value { result ≡ largest_of self.now }
        ensures fewest { NoFewer (size self.now) (waiting self.now) result }
    {
        let at_inputs = self.inputs().largest_load();
        let at_outputs = self.outputs().largest_load();
        at_inputs.max(at_outputs)
    }

    /// Whether a port is critical: its load is the largest, and that is at least 1.
    pub fn is_critical(&self, port: Port) -> bool
        ensures { Decides result (Critical (size self.now) (waiting self.now) port) }
    {
        let largest = self.largest_load();
        largest >= 1 && self.load(port) == largest
    }

    /// Whether one packet more can wait for a pair: the demand has the pair, and both its loads are below 1,024.
    pub fn has_room(&self, pair: Pair) -> bool
        ensures { result ≡ has_room 1024 self.now pair }
    {
        self.has_room_for(pair, 1)
    }

    /// Adds one packet for a pair, and says whether there was room; where there was none, nothing changes.
    // A `bool`, as `HashSet::insert` gives: why a packet is refused is for a batch to say, by its own bound.
    #[inline(always)]
    #[must_use]
    pub fn add(&mut self, pair: Pair) -> bool
        ensures { Added self.old pair result self.new }
    {
        self.add_many(pair, 1)
    }

    /// Adds `count` packets for a pair, and says whether there was room for all of them: the demand has the pair, and
    /// neither of its loads would pass 1,024. Where there was not, nothing changes.
    #[inline(always)]
    #[must_use]
    pub fn add_many(&mut self, pair: Pair, count: u16) -> bool
        ensures { AddedMany self.old pair count result self.new }
    {
        if !self.has_room_for(pair, count) {
            return false;
        }
        self.recount(pair, self.count(pair) + count);
        true
    }

    /// Whether `count` packets more can wait for a pair, as `add_many` says.
    fn has_room_for(&self, pair: Pair, count: u16) -> bool
        ensures { result ≡ has_room_for 1024 count self.now pair }
    {
        if !self.has_pair(pair) {
            return false;
        }
        let left_at_input = MOST_LOAD - self.load(Port::Input(pair.input));
        let left_at_output = MOST_LOAD - self.load(Port::Output(pair.output));
        count <= left_at_input && count <= left_at_output
    }

    /// Makes the count of a pair `count`, for which both its loads have room.
    #[inline(always)]
    pub(super) fn recount(&mut self, pair: Pair, count: u16)
        requires pair { has_pair self.old pair ≡ true }
        requires input { load_of self.old (Input pair.input) + count ≤ 1024 + waiting self.old pair.input pair.output }
        requires output { load_of self.old (Output pair.output) + count ≤ 1024 + waiting self.old pair.input pair.output }
        ensures ports { self.new.ports ≡ self.old.ports }
        ensures after { waiting self.new ≡ with_count count pair.input pair.output (waiting self.old) }
    {
        let (input, output) = (pair.input as usize, pair.output as usize);
        let old = self.counts[input][output];
        self.counts[input][output] = count;
        self.inputs[input].recount(pair.output, old, count);
        self.outputs[output].recount(pair.input, old, count);
    }
}
