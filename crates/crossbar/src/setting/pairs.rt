//! The pairs of a setting, read in order of output.
ghost use Rattle.std.specs.Prelude.{◌≡◌, ◌-◌, []};
ghost use Rattle.crossbar.specs.Joining.{IsSetting};
ghost use Rattle.crossbar.specs.Models.{NextPair, given_by, input_at};
ghost use Rattle.std.specs.Iterator.{at_most};

use super::Setting;
use crate::port::{MOST_PORTS, Pair};

/// An iterator over the joined pairs of a setting, in order of output.
#[derive(Clone, Copy)]
pub struct Pairs<'a> {
    setting: &'a Setting,
    output: u8,
}

impl Setting {
    /// The joined pairs, in order of output. No port stands in two of them.
    pub fn pairs(&self) -> Pairs<'_>
        ensures rule { IsSetting 16 (input_at self.now) }
        ensures setting { result.setting.now ≡ self.now }
        ensures start { given_by result ≡ [] }
    {
        Pairs {
            setting: self,
            output: 0,
        }
    }
}

impl Iterator for Pairs<'_> {
    type Item = Pair;

    ghost next_gives = { NextPair };

    ghost remaining = { λ p. at_most (16 - p.output) };

    fn next(&mut self) -> Option<Pair> {
        // `find_map` would do, and then have to take the output out of the pair again to go on after it.
        for output in self.output..self.setting.end {
            if let Some(input) = self.setting.input_of(output) {
                self.output = output + 1;
                return Some(Pair { input, output });
            }
        }
        self.output = MOST_PORTS;
        None
    }
}
