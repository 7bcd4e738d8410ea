//! One line of the input, taken apart.
ghost use Rattle.std.specs.Prelude.{◌<◌, IfOk};

use crossbar::port::{MOST_PORTS, Pair, Port};
use readout::Readout;
use std::str::{FromStr, SplitWhitespace};

/// What a line of the input says.
#[derive(Clone, Copy)]
pub(crate) enum Entry<'a> {
    /// Nothing, or only a comment.
    Blank,
    /// The rate of the line, in bits a second.
    Rate(u64),
    /// The length of a period, in microseconds.
    Period(u64),
    /// The size of a packet, in bits.
    Packet(u64),
    /// The number of cameras, and of machines.
    Ports(usize),
    /// The name of the camera at an input, or of the machine at an output.
    Name(Port, &'a str),
    /// A readout: camera, machine, packets.
    Readout(Readout),
}

/// Why a line of the input cannot be read.
#[derive(Clone, Copy)]
pub(crate) enum Fault {
    /// A word is missing, and what it should have said.
    Missing(&'static str),
    /// A word is no number in range, and what it should have said.
    NoNumber(&'static str),
    /// A named port is not one of 0 to 15.
    NoPort,
    /// There are more words than the line needs.
    TooLong,
}

/// One line; what follows a `#` is a comment.
impl<'a> TryFrom<&'a str> for Entry<'a> {
    type Error = Fault;

    fn try_from(line: &'a str) -> Result<Entry<'a>, Fault> {
        let text = line.split_once('#').map_or(line, |(before, _)| before);
        let mut words = Words(text.split_whitespace());
        let Some(first) = words.0.next() else {
            return Ok(Entry::Blank);
        };
        let entry = words.entry(first)?;
        // No method of the library makes an error of a word that is there.
        match words.0.next() {
            Some(_) => Err(Fault::TooLong),
            None => Ok(entry),
        }
    }
}

/// The words of a line that are still to be read. `what` is what a word should say.
#[derive(Drop)]
struct Words<'a>(SplitWhitespace<'a>);

impl<'a> Words<'a> {
    fn entry(&mut self, first: &str) -> Result<Entry<'a>, Fault> {
        Ok(match first {
            "rate" => Entry::Rate(self.number("the rate in bits a second")?),
            "period" => Entry::Period(self.number("the period in microseconds")?),
            "packet" => Entry::Packet(self.number("the packet in bits")?),
            "ports" => Entry::Ports(self.number("the number of ports")?),
            "camera" => Entry::Name(
                Port::Input(self.port("the camera")?),
                self.word("the name")?,
            ),
            "machine" => Entry::Name(
                Port::Output(self.port("the machine")?),
                self.word("the name")?,
            ),
            _ => Entry::Readout(self.readout(first)?),
        })
    }

    fn readout(&mut self, first: &str) -> Result<Readout, Fault> {
        let input = parsed(first, "the camera")?;
        let output = self.number("the machine")?;
        let packets = self.number("the number of packets")?;
        let pair = Pair { input, output };
        Ok(Readout { pair, packets })
    }

    fn port(&mut self, what: &'static str) -> Result<u8, Fault>
        ensures { IfOk result (λ p. p < 16) }
    {
        let port = self.number(what)?;
        if port < MOST_PORTS {
            Ok(port)
        } else {
            Err(Fault::NoPort)
        }
    }

    fn number<T: FromStr>(&mut self, what: &'static str) -> Result<T, Fault>
    where
        T::Err: Drop,
    {
        parsed(self.word(what)?, what)
    }

    fn word(&mut self, what: &'static str) -> Result<&'a str, Fault> {
        self.0.next().ok_or(Fault::Missing(what))
    }
}

fn parsed<T: FromStr>(word: &str, what: &'static str) -> Result<T, Fault>
where
    T::Err: Drop,
{
    word.parse().map_err(|_| Fault::NoNumber(what))
}
