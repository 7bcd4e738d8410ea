//! The law of a stretch of service: what a switch owes its users, told from its calls and their replies alone.
//!
//! The crate has no switch in it. It says what a history of calls and replies is, what is told from one, and what holds
//! of every history that may come about; and it proves that whatever does each call as it should keeps the law.
#![tactic(auto)]

pub mod entry;
pub mod laws;
pub mod question;
