//! Opening a batch, adding packets and closing it.
ghost use Rattle.batch.specs.Calls.{Closed, Empty, Opened, Took};
ghost use Rattle.batch.specs.Models.{ports_of, refusal_in, slots_of};
ghost use Rattle.batch.specs.declared.gathering.Gathering.{Gathering};
ghost use Rattle.std.specs.Prelude.{◌≡◌};

use super::Gathering;
use crate::clearing::Clearing;
use crate::slots::Slots;
use crossbar::demand::Demand;
use crossbar::port::{Pair, Port};
use crossbar::ports::Ports;
use reply::Reply;
use reply::place::Place;
use reply::reason::Reason;
use reply::refusal::Refusal;

impl Gathering {
    /// Opens an empty batch of `ports` inputs and outputs and `slots` slots, in the caller's place.
    ///
    /// Refused as out of range where `ports` is not 1 to 16 or `slots` is not 1 to 1,024; the place then stays as it
    /// was. What batch stood there before is let go of.
    // No `Result<Gathering, Refusal>`: by the rules a batch is opened in a place that the caller gives, and every call
    // answers a reply.
    pub fn open(place: &mut Option<Gathering>, ports: usize, slots: usize) -> Reply
        ensures { Opened place.old ports slots result place.new }
    {
        let ports = Ports::new(ports).ok_or(Reason::OutOfRange)?;
        let slots = Slots::new(slots).ok_or(Reason::OutOfRange)?;
        *place = Some(Gathering::empty(ports, slots));
        Ok(Place::from(0))
    }

    /// A batch in which nothing is gathered yet.
    #[tactic(auto, using(crossbar::proofs::Loads::largest_nothing))]
    fn empty(ports: Ports, slots: Slots) -> Gathering
        ensures { Empty ports.count slots.count result }
    {
        let demand = Demand::empty(ports);
        Gathering { slots, demand }
    }

    /// The slots of the period.
    pub fn slots(&self) -> Slots
        ensures { result ≡ self.now.slots }
    {
        self.slots
    }

    /// The packets gathered so far.
    pub fn demand(&self) -> &Demand
        ensures { result.now ≡ self.now.demand }
    {
        &self.demand
    }

    /// Why one packet more for a pair would be refused, if it would.
    pub fn refusal(&self, pair: Pair) -> Option<Reason>
        ensures { result ≡ refusal_in self.now pair }
    {
        let ports = self.demand.ports().count();
        let bound = self.slots.count();
        if pair.input >= ports {
            Some(Reason::NoSuchInput)
        } else if pair.output >= ports {
            Some(Reason::NoSuchOutput)
        } else if self.demand.load(Port::Input(pair.input)) >= bound {
            Some(Reason::InputFull)
        } else if self.demand.load(Port::Output(pair.output)) >= bound {
            Some(Reason::OutputFull)
        } else {
            None
        }
    }

    /// Adds one packet for a pair: done with place 1.
    ///
    /// Refused where there is no such input or output, then where the load of the input or of the output is L; the
    /// batch then stays as it was. Nothing else is refused.
    pub fn add(&mut self, pair: Pair) -> Reply
        ensures { Took self.old pair result self.new }
    {
        if let Some(reason) = self.refusal(pair) {
            return Err(Refusal::from(reason));
        }
        let _added = self.demand.add(pair);
        Ok(Place::from(1))
    }

    /// Closes the batch: what was gathered is to be cleared in L slots.
    pub fn close(self) -> Clearing
        ensures { Closed self result }
    {
        let Gathering { slots, demand } = self;
        Clearing::new(slots, demand)
    }

    /// Adds one last packet and closes the batch. Refused as `add` refuses; the batch is closed all the same.
    pub fn close_with(mut self, last: Pair) -> (Reply, Clearing)
        ensures { (b : Gathering) × Took self last result.0 b × Closed b result.1 }
    {
        let reply = self.add(last);
        (reply, self.close())
    }

    /// Ends the period: the batch is closed, and an empty one of as many ports and slots is opened.
    pub fn turn(self) -> (Clearing, Gathering)
        ensures closed { Closed self result.0 }
        ensures empty { Empty (ports_of self) (slots_of self) result.1 }
    {
        let next = Gathering::empty(self.demand.ports(), self.slots);
        (self.close(), next)
    }
}
