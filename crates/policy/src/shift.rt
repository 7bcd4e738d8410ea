//! Flipping a path: each of its inputs moves on to its next output.
ghost use Rattle.policy.specs.Kernel.{Alike, HoldsEnd, IsPath, MendedFrom};

use crate::mending::Mending;
use crate::trail::Path;
use crossbar::port::Pair;

impl Mending<'_> {
    /// Moves each input of a path to its next output, the last one first, so that the first input of the trail is
    /// joined. Where the last output was joined to an input, that input is free afterwards.
    #[inline(always)]
    pub(crate) fn shift(&mut self, path: &Path)
        requires { IsPath self.old path.now }
        ensures alike { Alike self.old self.new }
        ensures mended { MendedFrom self.old path.now.trail.start self.new }
        ensures holds { HoldsEnd self.old path.now self.new }
    {
        let mut output = path.output;
        let mut place = path.place;
        // Goes from a step to its parent, so that nothing is counted.
        while place > 0 {
            let step = path.trail.steps[place - 1];
            self.setting.rejoin(Pair {
                input: step.input,
                output,
            });
            output = step.output;
            place = step.parent as usize;
        }
        self.setting.rejoin(Pair {
            input: path.trail.start,
            output,
        });
    }
}
