//! Policies that go by a rule: what they have in common.
ghost use Rattle.crossbar.specs.Joining.{unjoined};
ghost use Rattle.crossbar.specs.Models.{IsLawful, input_at};
ghost use Rattle.std.specs.Prelude.{◌≡◌};

use crate::Policy;
use crossbar::demand::Demand;
use crossbar::setting::Setting;
use std::marker::PhantomData;

/// A rule by which a lawful setting follows from the demand alone.
pub trait Rule {
    /// A lawful setting for the demand. Nothing is refused.
    fn setting_for(demand: &Demand) -> Setting
        ensures { IsLawful demand.now result };
}

/// The policy that chooses by the rule `R`, whatever it gave before.
#[derive(Clone, Copy)]
pub struct ByRule<R> {
    last: Setting,
    rule: PhantomData<R>,
}

impl<R: Rule> ByRule<R> {
    /// A policy that has given no setting yet.
    pub fn new() -> ByRule<R>
        ensures { input_at result.last ≡ unjoined }
    {
        ByRule {
            last: Setting::empty(),
            rule: PhantomData,
        }
    }
}

impl<R: Rule> Policy for ByRule<R> {
    ghost given = { λ policy. policy.last };

    fn choose(&mut self, demand: &Demand) -> Setting {
        let setting = R::setting_for(demand);
        self.last = setting;
        setting
    }
}
