//! Joining every port of one side that has a large load.
ghost use Rattle.std.specs.Prelude.{◌≡◌, ℕ, ◌<◌, ◌≤◌, true, false};
ghost use Rattle.crossbar.specs.Loads.{Counts, load};
ghost use Rattle.crossbar.specs.declared.port.Port.TheVariants.{Output};
ghost use Rattle.policy.specs.Graphs.{Keeps, Partners, Weighs, graph_of};
ghost use Rattle.policy.specs.Kernel.{Alike, Ends, FirstOpen, GrownFrom, IsFull, JoinedOne, is_open, ports_of};
ghost use Rattle.policy.specs.Paths.{Full};

use crate::mending::Mending;
use crate::trail::{Path, Trail};
use mask::Mask;

impl Mending<'_> {
    /// Joins every input of a load of `want` or more, along paths, and keeps joined what was. It answers whether it
    /// could: where not, no setting at all joins them all. Nothing changes where they all were joined.
    #[inline(always)]
    pub(crate) fn fill(&mut self) -> bool
        ensures alike { Alike self.old self.new }
        ensures grown { GrownFrom self.old self.new }
        ensures full { result ≡ true → IsFull self.new }
        ensures best { result ≡ false → (t : Partners) → Keeps (ports_of self.old) (graph_of self.old.side) t → Full (ports_of self.old) (graph_of self.old.side) self.old.want t → ⊥ }
        ensures still { IsFull self.old → self.new.setting ≡ self.old.setting }
        ensures critical { (c : Counts) → Weighs (ports_of self.old) (graph_of self.old.side) c → 0 < self.old.want → ((j : ℕ) → j < ports_of self.old → load (ports_of self.old) c (Output j) ≤ self.old.want) → result ≡ true }
    {
        let Some(first) = self.first_open() else {
            return true;
        };
        let mut ends = self.ends();
        for input in first..self.side.ports.count() {
            if self.is_open(input) {
                match self.join_one(ends, input) {
                    Some(left) => ends = left,
                    None => return false,
                }
            }
        }
        true
    }

    /// Whether an input has a load of `want` or more and is not joined.
    fn is_open(&self, input: u8) -> bool
        ensures { result ≡ is_open self.now input }
    {
        self.side.load(input) >= self.want && self.setting.output_of(input).is_none()
    }

    /// The first input that is open, if any.
    fn first_open(&self) -> Option<u8>
        ensures { FirstOpen self.now result }
    {
        (0..self.side.ports.count()).find(|&input| self.is_open(input))
    }

    /// The outputs that end a path: those that are free, or joined to an input of a load below `want`.
    fn ends(&self) -> Mask
        ensures { Ends self.now result }
    {
        let mut ends = Mask::below(self.side.ports.count());
        for pair in self.setting.pairs() {
            if self.side.load(pair.input) >= self.want {
                ends = ends.without(pair.output);
            }
        }
        ends
    }

    /// Joins one input along a path, and answers the outputs that still end one; none where the search is stuck, and
    /// then nothing changes.
    fn join_one(&mut self, ends: Mask, start: u8) -> Option<Mask>
        requires ends { Ends self.old ends }
        requires within { start < ports_of self.old }
        requires open { is_open self.old start ≡ true }
        ensures alike { Alike self.old self.new }
        ensures joined { JoinedOne self.old start self.new result }
    {
        // Where an output that ends a path is one step away, no search is needed.
        let trail = Trail::new(start, self.side.ports);
        let near = self.side.links(start).meet(trail.unseen);
        if let Some(output) = near.meet(ends).lowest() {
            self.shift(&Path {
                trail,
                place: 0,
                output,
            });
            return Some(ends.without(output));
        }
        let path = self.search(ends, start)?;
        self.shift(&path);
        Some(ends.without(path.output))
    }
}
