//! A port of the crossbar, and a pair of ports.

/// The most inputs, and the most outputs, that a crossbar has.
pub const MOST_PORTS: u8 = 16;

/// An input or an output, by its number from 0.
#[derive(Clone, Copy, PartialEq, Eq, Debug)]
pub enum Port {
    Input(u8),
    Output(u8),
}

/// An input with an output: where a packet comes from and where it goes.
#[derive(Clone, Copy, PartialEq, Eq, Debug)]
pub struct Pair {
    pub input: u8,
    pub output: u8,
}
