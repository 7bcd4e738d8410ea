//! The search for a path along which one input more can be joined.
ghost use Rattle.std.specs.Prelude.{◌≡◌, ◌+◌, ◌<◌, ◌≤◌, true};
ghost use Rattle.arrayvec.specs.ArrayVec.{array_vec_len};
ghost use Rattle.policy.specs.Kernel.{Ends, InRow, OnCourse, Searched, is_open, ports_of};

use crate::mending::Mending;
use crate::trail::{MOST_PLACES, Path, Step, Trail};
use mask::Mask;

impl Mending<'_> {
    /// Searches along paths that alternate between packets and joined pairs, from the open input `start` to an output
    /// in `ends`: one that is free, or joined to an input of a load below `want`. None where the search is stuck.
    pub(crate) fn search(&self, ends: Mask, start: u8) -> Option<Path>
        requires ends { Ends self.now ends }
        requires within { start < ports_of self.now }
        requires open { is_open self.now start ≡ true }
        ensures { Searched self.now start result }
    {
        let mut trail = Trail::new(start, self.side.ports);
        for place in 0..MOST_PLACES {
            let Some(input) = trail.input_at(place) else {
                break;
            };
            let row = self.side.links(input);
            if let Some(output) = row.meet(trail.unseen).meet(ends).lowest() {
                return Some(Path {
                    trail,
                    place,
                    output,
                });
            }
            self.spread(&mut trail, row, place);
        }
        None
    }

    /// Reaches every output in `row`, the outputs that the input at `place` has packets for.
    fn spread(&self, trail: &mut Trail, row: Mask, place: usize)
        requires { InRow self.now row trail.old place }
        ensures start { trail.new.start ≡ trail.old.start }
        ensures low { place ≤ array_vec_len trail.new.steps }
        ensures course { OnCourse self.now trail.new (place + 1) }
    {
        while let Some(output) = row.meet(trail.unseen).lowest() {
            trail.unseen = trail.unseen.without(output);
            // Each of them is joined, since none ends a path.
            if let Some(input) = self.setting.input_of(output) {
                trail.steps.push(Step {
                    input,
                    output,
                    parent: place as u8,
                });
            }
        }
    }
}
