//! The tree of a search along alternating paths, and a path in it.
ghost use Rattle.std.specs.Prelude.{◌≡◌, ℕ, ◌<◌, ◌≤◌, [], MatchOption, nat_lt};
ghost use Rattle.arrayvec.specs.ArrayVec.{array_vec_len};
ghost use Rattle.mask.specs.Bits.{holds};
ghost use Rattle.policy.specs.Kernel.{ins};

use arrayvec::ArrayVec;
use crossbar::ports::Ports;
use mask::Mask;

/// The most places of a trail: one where it begins, and one for each of up to 16 outputs.
pub const MOST_PLACES: usize = 17;

/// What a search from the input `start` has reached, step by step, and the outputs that it has not seen.
///
/// The inputs of a trail have places: `start` is at 0, and the input of the step k at k + 1.
#[derive(Drop)]
pub struct Trail {
    pub start: u8,
    pub steps: ArrayVec<Step, 16>,
    pub unseen: Mask,
}

/// An output that a search has reached by a packet of the input at the place `parent`, with the input that it is joined
/// to.
// The parent is a place of the trail, and no box: a search asks for no memory.
#[derive(Clone, Copy, Default)]
pub struct Step {
    pub input: u8,
    pub output: u8,
    pub parent: u8,
}

/// A path of a trail, which ends at an output for which the input at `place` has a packet.
#[derive(Drop)]
pub struct Path {
    pub trail: Trail,
    pub place: usize,
    pub output: u8,
}

impl Trail {
    /// A search that is to begin at the input `start`.
    pub(crate) fn new(start: u8, ports: Ports) -> Trail
        ensures start { result.start ≡ start }
        ensures steps { result.steps.items ≡ [] }
        ensures unseen { (k : ℕ) → holds result.unseen k ≡ nat_lt k ports.count }
    {
        Trail {
            start,
            steps: ArrayVec::new(),
            unseen: Mask::below(ports.count()),
        }
    }

    /// The input at a place, or none where the trail has not come that far.
    pub(crate) fn input_at(&self, place: usize) -> Option<u8>
        ensures { MatchOption result (array_vec_len self.now.steps < place) (λ input. (place ≤ array_vec_len self.now.steps) × (ins self.now place ≡ input)) }
    {
        if place == 0 {
            return Some(self.start);
        }
        let step = self.steps.get(place - 1)?;
        Some(step.input)
    }
}
