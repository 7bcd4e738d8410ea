//! Faults, refusals and readouts in words.
use crate::entry::Fault;
use readout::Taken;
use reply::reason::Reason;
use std::fmt;

impl fmt::Display for Fault {
    fn fmt<W: fmt::Write>(&self, f: &mut fmt::Formatter<W>) -> fmt::Result {
        match *self {
            Fault::Missing(what) => write!(f, "{what} is missing"),
            Fault::NoNumber(what) => write!(f, "{what} is no number in range"),
            Fault::NoPort => f.write_str("a named port is not one of 0 to 15"),
            Fault::TooLong => f.write_str("there are too many words"),
        }
    }
}

/// What became of a readout, with the reply that refused a packet of it.
#[derive(Clone, Copy)]
pub(crate) struct Outcome(pub Taken);

impl fmt::Display for Outcome {
    fn fmt<W: fmt::Write>(&self, f: &mut fmt::Formatter<W>) -> fmt::Result {
        let taken = self.0.packets;
        match self.0.refused {
            None => f.write_str("taken whole"),
            Some(refusal) => {
                let cause = Cause(refusal.reason);
                let code = refusal.code();
                write!(f, "refused after {taken}: {cause} (reply {code:08x})")
            }
        }
    }
}

/// Why a packet of a readout was refused, in words of cameras and machines.
#[derive(Clone, Copy)]
struct Cause(Reason);

impl fmt::Display for Cause {
    fn fmt<W: fmt::Write>(&self, f: &mut fmt::Formatter<W>) -> fmt::Result {
        f.write_str(match self.0 {
            Reason::NoSuchInput => "there is no such camera",
            Reason::NoSuchOutput => "there is no such machine",
            Reason::InputFull => "the camera sends all that a period clears",
            Reason::OutputFull => "the machine gets all that a period clears",
            _ => "see the table of replies",
        })
    }
}
