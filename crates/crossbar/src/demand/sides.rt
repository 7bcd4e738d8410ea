//! A demand seen from its inputs and from its outputs.
ghost use Rattle.crossbar.specs.Models.{links_at, load_at, load_of, waiting};
ghost use Rattle.crossbar.specs.declared.port.Port.TheVariants.{Input, Output};
ghost use Rattle.mask.specs.Bits.{holds};
ghost use Rattle.std.specs.Prelude.{◌≡◌, ℕ, nat_lt};

use super::Demand;
use crate::side::Side;

// Two functions, since each names its own side; what is read off a side stands once, in `Side`.
impl Demand {
    /// The outputs that each input has packets for, and the loads of the inputs.
    pub fn inputs(&self) -> Side<'_>
        ensures ports { result.ports ≡ self.now.ports }
        ensures masks { (i j : ℕ) → holds (links_at result i) j ≡ nat_lt 0 (waiting self.now i j) }
        ensures loads { (k : ℕ) → load_at result k ≡ load_of self.now (Input k) }
    {
        Side {
            ports: self.ports,
            at: &self.inputs,
        }
    }

    /// The inputs that have packets for each output, and the loads of the outputs.
    pub fn outputs(&self) -> Side<'_>
        ensures ports { result.ports ≡ self.now.ports }
        ensures masks { (j i : ℕ) → holds (links_at result j) i ≡ nat_lt 0 (waiting self.now i j) }
        ensures loads { (k : ℕ) → load_at result k ≡ load_of self.now (Output k) }
    {
        Side {
            ports: self.ports,
            at: &self.outputs,
        }
    }
}
