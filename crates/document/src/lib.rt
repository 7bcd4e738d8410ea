//! The numbers and documents that cameras and planners exchange.
#![tactic(auto)]

pub mod period;
#[cfg(test)]
mod tests;
