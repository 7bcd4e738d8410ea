//! Sets of ports, kept as masks of 16 bits.
#![tactic(auto)]

ghost use Rattle.std.specs.Prelude.{◌≡◌, ℕ, false, not, ◌&&◌, ◌||◌, if◌then◌else◌, MatchOption, ◌==◌, nat_eq, nat_lt};
ghost use Rattle.mask.specs.Bits.{Lowest, holds};

#[cfg(test)]
mod tests;

/// A set of ports below 16, one bit a port.
#[derive(Clone, Copy, PartialEq, Eq, Debug)]
pub struct Mask {
    bits: u16,
}

impl Mask {
    /// No port.
    pub fn empty() -> Mask
        ensures { (k : ℕ) → holds result k ≡ false }
    {
        Mask { bits: 0 }
    }

    /// The ports below `count`, and all sixteen where that is 16 or more.
    pub fn below(count: u8) -> Mask
        ensures { (k : ℕ) → holds result k ≡ (nat_lt k count && nat_lt k 16) }
    {
        if count >= 16 {
            return Mask { bits: u16::MAX };
        }
        Mask {
            bits: (1u16 << count) - 1,
        }
    }

    /// Whether a port is in the set.
    pub fn has(self, port: u8) -> bool
        ensures { result ≡ holds self port }
    {
        port < 16 && (self.bits >> port) & 1 == 1
    }

    /// The ports in both sets.
    pub fn meet(self, other: Mask) -> Mask
        ensures { (k : ℕ) → holds result k ≡ (holds self k && holds other k) }
    {
        Mask {
            bits: self.bits & other.bits,
        }
    }

    /// The set with a port more; a port of 16 or more has no place in it.
    pub fn with(self, port: u8) -> Mask
        ensures { (k : ℕ) → holds result k ≡ (holds self k || (k == port && nat_lt k 16)) }
    {
        Mask {
            bits: self.bits | Mask::only(port).bits,
        }
    }

    /// The set without a port.
    pub fn without(self, port: u8) -> Mask
        ensures { (k : ℕ) → holds result k ≡ (holds self k && not (k == port)) }
    {
        let kept = self.meet(Mask::only(port));
        Mask {
            bits: self.bits ^ kept.bits,
        }
    }

    /// The set with a port in it or without it, as `member` says; a port of 16 or more has no place in it.
    pub fn set(self, port: u8, member: bool) -> Mask
        ensures { (k : ℕ) → holds result k ≡ (if nat_eq k port && nat_lt k 16 then member else holds self k) }
    {
        if member {
            self.with(port)
        } else {
            self.without(port)
        }
    }

    /// The smallest port in the set, if it has one.
    pub fn lowest(self) -> Option<u8>
        ensures { MatchOption result ((k : ℕ) → holds self k ≡ false) (Lowest self) }
    {
        if self.bits == 0 {
            return None;
        }
        Some(self.bits.trailing_zeros() as u8)
    }

    /// One port alone, or none where it is 16 or more.
    fn only(port: u8) -> Mask
        ensures { (k : ℕ) → holds result k ≡ (k == port && nat_lt k 16) }
    {
        if port < 16 {
            Mask { bits: 1 << port }
        } else {
            Mask { bits: 0 }
        }
    }
}
