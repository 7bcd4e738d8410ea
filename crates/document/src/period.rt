//! How many slots a period has on a line.
ghost use Rattle.document.specs.Period.{factors_fit, slots_answer};
ghost use Rattle.reply.specs.Answers.{answer};
ghost use Rattle.std.specs.Prelude.{◌≡◌};

use batch::slots::Slots;
use reply::Reply;
use reply::place::Place;
use reply::reason::Reason;
use reply::refusal::Refusal;

/// The fastest line, in bits a second.
pub const MOST_RATE: u64 = 100_000_000_000;

/// The longest period, in microseconds.
pub const MOST_PERIOD: u64 = 1_000_000;

/// The largest packet, in bits.
pub const MOST_PACKET: u64 = 1_000_000;

const MICROSECONDS_A_SECOND: u64 = 1_000_000;

/// What the slots of a period are reckoned from; by default 0 in all, which is out of range.
#[derive(Clone, Copy, Default)]
pub struct Line {
    /// Bits a second, from 1 to 10^11.
    pub rate: u64,
    /// Microseconds a period, from 1 to 10^6.
    pub period: u64,
    /// Bits a packet, from 1 to 10^6.
    pub packet: u64,
}

impl Line {
    /// The slots of a period: as many as whole packets cross the line in it. Done with that number as place.
    ///
    /// Refused as out of range where the rate, the period, the packet or the number of slots is.
    pub fn slots(&self) -> Reply
        ensures { answer result ≡ slots_answer self.now }
    {
        if !self.factors_fit() {
            return Err(Refusal::from(Reason::OutOfRange));
        }
        let reckoned = self.rate * self.period / (MICROSECONDS_A_SECOND * self.packet);
        let slots = Slots::new(reckoned as usize).ok_or(Reason::OutOfRange)?;
        Ok(Place::from(slots.count()))
    }

    /// Whether rate, period and packet are in range.
    pub fn factors_fit(&self) -> bool
        ensures { result ≡ factors_fit self.now }
    {
        (1..=MOST_RATE).contains(&self.rate)
            && (1..=MOST_PERIOD).contains(&self.period)
            && (1..=MOST_PACKET).contains(&self.packet)
    }
}
