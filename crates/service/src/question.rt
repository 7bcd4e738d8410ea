//! What may be asked of a switch.
use crossbar::port::Pair;

/// A question, which is answered by a number.
#[derive(Clone, Copy)]
pub enum Question {
    /// How many packets of a pair were accepted since the last turn.
    Gathering(Pair),
    /// How many other packets of a pair wait.
    Clearing(Pair),
    /// How many slots of the period are left.
    SlotsLeft,
}
