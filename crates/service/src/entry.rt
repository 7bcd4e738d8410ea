//! A packet with the pair that it crosses the switch by.
use crossbar::port::Pair;

/// A packet that is offered for a pair, or that has left by one.
#[derive(Clone, Copy, Drop)]
pub struct Entry<T> {
    pub pair: Pair,
    pub packet: T,
}
