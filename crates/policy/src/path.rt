//! The path policy.
use crate::mend::lawful_setting;
use crate::rule::{ByRule, Rule};
use crossbar::demand::Demand;
use crossbar::setting::Setting;

/// Begin with the setting that joins nothing, and join the critical ports along augmenting and absorbing paths.
#[derive(Clone, Copy)]
pub struct AlongPaths;

impl Rule for AlongPaths {
    fn setting_for(demand: &Demand) -> Setting {
        lawful_setting(demand)
    }
}

/// The policy that chooses along paths.
pub type PathPolicy = ByRule<AlongPaths>;
