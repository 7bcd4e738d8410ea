//! The packets of one period: gathered first, then cleared.
#![tactic(auto)]

pub mod clearing;
pub mod gathering;
pub mod slots;
#[cfg(test)]
mod tests;
