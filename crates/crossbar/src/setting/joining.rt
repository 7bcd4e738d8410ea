//! Making a setting, joining pairs, and reading what is joined.
ghost use Rattle.std.specs.Prelude.{◌≡◌, ℕ, true, Some, MatchBool, MatchOption, ◌≢◌};
ghost use Rattle.crossbar.specs.Joining.{unjoined, with_pair};
ghost use Rattle.crossbar.specs.Models.{input_at, joinable, output_at};

use super::Setting;
use crate::port::{MOST_PORTS, Pair};

impl Setting {
    /// The setting that joins nothing.
    pub fn empty() -> Setting
        ensures { input_at result ≡ unjoined }
    {
        Setting {
            inputs: [None; 16],
            outputs: [None; 16],
            end: 0,
        }
    }

    /// The input that is joined to `output`, if any; none for an output of 16 or more.
    // Beside `output_of`, since either names its own side; what is behind both is one call.
    pub fn input_of(&self, output: u8) -> Option<u8>
        ensures { result ≡ input_at self.now output }
    {
        *self.inputs.get(output as usize)?
    }

    /// The output that `input` is joined to, if any; none for an input of 16 or more.
    pub fn output_of(&self, input: u8) -> Option<u8>
        ensures value { result ≡ output_at self.now input }
        ensures joined { MatchOption result ((j : ℕ) → input_at self.now j ≢ Some input) (λ j. input_at self.now j ≡ Some input) }
    {
        *self.outputs.get(input as usize)?
    }

    /// Whether the pair can be joined: both ports are below 16 and neither is joined yet.
    pub fn can_join(&self, pair: Pair) -> bool
        ensures { result ≡ joinable self.now pair }
    {
        pair.input < MOST_PORTS
            && pair.output < MOST_PORTS
            && self.output_of(pair.input).is_none()
            && self.input_of(pair.output).is_none()
    }

    /// Joins the pair, and says whether that was possible; where it was not, nothing changes.
    // A `bool`, as `HashSet::insert` gives: there is nothing to tell but what `can_join` tests.
    #[must_use]
    pub fn join(&mut self, pair: Pair) -> bool
        ensures possible { result ≡ joinable self.old pair }
        ensures after { MatchBool result (input_at self.new ≡ with_pair pair.input pair.output (input_at self.old)) (self.new ≡ self.old) }
    {
        if !self.can_join(pair) {
            return false;
        }
        self.put(pair);
        true
    }

    /// Joins a pair that can be joined.
    pub(super) fn put(&mut self, pair: Pair)
        requires { joinable self.old pair ≡ true }
        ensures { input_at self.new ≡ with_pair pair.input pair.output (input_at self.old) }
    {
        self.outputs[pair.input as usize] = Some(pair.output);
        self.inputs[pair.output as usize] = Some(pair.input);
        let end = pair.input.max(pair.output) + 1;
        if self.end < end {
            self.end = end;
        }
    }
}
