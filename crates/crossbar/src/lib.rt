//! Ports, demands and settings of a crossbar, and the laws of clearing a demand.
#![tactic(auto)]

pub mod demand;
pub mod port;
pub mod ports;
pub mod setting;
pub mod side;
#[cfg(test)]
mod tests;
