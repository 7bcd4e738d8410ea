//! One side of a demand, its inputs or its outputs: what waits at each of the ports.
ghost use Rattle.crossbar.specs.Models.{links_at, load_at};
ghost use Rattle.mask.specs.Bits.{holds};
ghost use Rattle.std.specs.Prelude.{◌≡◌, ◌+◌, ◌-◌, ◌<◌, ◌≤◌, ◌^◌, ◌==◌, ◌&&◌, ℕ, if◌then◌else◌, false, nat_lt};

use crate::ports::Ports;
use mask::Mask;

/// What waits at one port: how many packets, and the ports of the other side that it has packets with.
#[derive(Clone, Copy)]
pub struct PortLoad {
    pub load: u16,
    pub links: Mask,
}

impl PortLoad {
    /// Nothing waits.
    pub(crate) fn idle() -> PortLoad
        ensures load { result.load ≡ 0 }
        ensures links { (k : ℕ) → holds result.links k ≡ false }
    {
        PortLoad {
            load: 0,
            links: Mask::empty(),
        }
    }

    /// The count of the packets with one port of the other side changes from `old` to `new`.
    #[inline(always)]
    pub(crate) fn recount(&mut self, other: u8, old: u16, new: u16)
        requires part { old ≤ self.old.load }
        requires marked { holds self.old.links other ≡ nat_lt 0 old }
        requires fits { self.old.load - old + new < 2 ^ 16 }
        ensures load { self.new.load ≡ self.old.load - old + new }
        ensures links { (k : ℕ) → holds self.new.links k ≡ (if k == other && nat_lt k 16 then nat_lt 0 new else holds self.old.links k) }
    {
        self.load = self.load - old + new;
        // Most changes leave a port that has packets one that has packets.
        if old == 0 || new == 0 {
            self.links = self.links.set(other, new > 0);
        }
    }
}

/// What waits at each port of one side.
#[derive(Clone, Copy)]
pub struct Side<'a> {
    pub ports: Ports,
    pub at: &'a [PortLoad; 16],
}

impl Side<'_> {
    /// The load of a port; 0 for a port of 16 or more.
    pub fn load(self, port: u8) -> u16
        ensures { result ≡ load_at self.entry port }
    {
        let ports = self.at;
        ports.get(port as usize).map_or(0, |at| at.load)
    }

    /// The ports of the other side that a port has packets with; none for a port of 16 or more.
    #[tactic(auto, using(mask::proofs::Digits::zero_bit))]
    pub fn links(self, port: u8) -> Mask
        ensures { (k : ℕ) → holds result k ≡ holds (links_at self.entry port) k }
    {
        let ports = self.at;
        ports
            .get(port as usize)
            .map_or(Mask::empty(), |at| at.links)
    }

    /// The largest of the loads of the ports that the crossbar has.
    pub(crate) fn largest_load(self) -> u16
        ensures most { (k : ℕ) → k < self.entry.ports.count → load_at self.entry k ≤ result }
        ensures there { 0 < result → (k : ℕ) × (k < 16) × (load_at self.entry k ≡ result) }
    {
        let sixteen = self.at;
        let ports = &sixteen[..usize::from(self.ports.count())];
        ports.iter().map(|at| at.load).max().unwrap_or(0)
    }
}
