//! Moving what is joined: a pair at the cost of others, and a whole setting to the other side.
ghost use Rattle.std.specs.Prelude.{◌≡◌, ◌<◌, ◌≤◌, ◌⊎◌};
ghost use Rattle.crossbar.specs.Joining.{freed, moved};
ghost use Rattle.crossbar.specs.Models.{input_at, output_at};

use super::Setting;
use crate::port::{MOST_PORTS, Pair};

impl Setting {
    /// Joins the pair, and frees both its ports first from what they were joined to. Nothing changes where a port of the
    /// pair is 16 or more.
    pub fn rejoin(&mut self, pair: Pair)
        ensures after { pair.input < 16 → pair.output < 16 → input_at self.new ≡ moved pair.input pair.output (input_at self.old) }
        ensures outside { (16 ≤ pair.input) ⊎ (16 ≤ pair.output) → self.new ≡ self.old }
    {
        if pair.input >= MOST_PORTS || pair.output >= MOST_PORTS {
            return;
        }
        if let Some(output) = self.output_of(pair.input) {
            self.free(output);
        }
        self.free(pair.output);
        self.put(pair);
    }

    /// Frees an output, and the input that it was joined to.
    fn free(&mut self, output: u8)
        ensures { input_at self.new ≡ freed output (input_at self.old) }
    {
        if let Some(input) = self.input_of(output) {
            self.inputs[output as usize] = None;
            self.outputs[input as usize] = None;
        }
    }

    /// The same pairs with inputs and outputs exchanged.
    pub fn turned(&self) -> Setting
        ensures inputs { input_at result ≡ output_at self.now }
        ensures outputs { output_at result ≡ input_at self.now }
    {
        Setting {
            inputs: self.outputs,
            outputs: self.inputs,
            end: self.end,
        }
    }
}
