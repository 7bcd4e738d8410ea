//! The peeling policy.
use crate::mend::lawful_setting;
use crate::packets::with_packets;
use crate::raise::raise;
use crate::rule::{ByRule, Rule};
use crossbar::demand::Demand;
use crossbar::setting::Setting;

/// Raise the demand until every port is critical, join every port of the raised demand, and drop the pairs that have no
/// packet. Where nothing waits, it joins nothing.
#[derive(Clone, Copy)]
pub struct Peeling;

impl Rule for Peeling {
    fn setting_for(demand: &Demand) -> Setting {
        let whole = lawful_setting(&raise(demand));
        with_packets(demand, &whole)
    }
}

/// The policy that chooses by peeling.
pub type PeelingPolicy = ByRule<Peeling>;
