//! Serving a demand by settings, with the laws of clearing.
ghost use Rattle.std.specs.Prelude.{◌≡◌, ◌+◌, if◌then◌else◌, nat_lt};
ghost use Rattle.crossbar.specs.Calls.{Served, ServedByAll};
ghost use Rattle.crossbar.specs.Loads.{one_less, packets};
ghost use Rattle.crossbar.specs.Models.{size, waiting};

use super::Demand;
use crate::port::Pair;
use crate::setting::Setting;

impl Demand {
    /// Takes one packet of a pair, and says whether one was waiting.
    fn take(&mut self, pair: Pair) -> bool
        ensures waited { result ≡ nat_lt 0 (waiting self.old pair.input pair.output) }
        ensures ports { self.new.ports ≡ self.old.ports }
        ensures after { waiting self.new ≡ one_less pair.input pair.output (waiting self.old) }
        ensures count { packets (size self.old) (waiting self.new) + (if result then 1 else 0) ≡ packets (size self.old) (waiting self.old) }
    {
        let count = self.count(pair);
        if count == 0 {
            return false;
        }
        self.recount(pair, count - 1);
        true
    }

    /// Serves the demand by a setting: one packet leaves each joined pair that has one. It answers how many left.
    ///
    /// A lawful setting lowers the largest load by exactly one, where there is a load.
    pub fn serve(&mut self, setting: &Setting) -> u8
        ensures { Served self.old setting.now result self.new }
    {
        let mut departed = 0;
        for pair in setting.pairs() {
            if self.take(pair) {
                departed += 1;
            }
        }
        departed
    }

    /// Serves the demand by each of the settings in turn.
    ///
    /// Where each is lawful for what those before it leave, the demand is clear exactly if they are as many as its
    /// largest load, or more.
    pub fn serve_all(&mut self, settings: &[Setting])
        ensures { ServedByAll self.old settings.now self.new }
    {
        for setting in settings {
            self.serve(setting);
        }
    }
}
