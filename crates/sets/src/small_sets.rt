// Sets of numbers from 0 to 9.
ghost use Rattle.std.specs.Prelude.{◌≡◌, ℕ, ◌+◌, ◌-◌, ◌^◌, ◌<◌, ◌≤◌, true, false, MatchOption, ◌==◌, bit_and, bit_or, count_ones};
ghost use Rattle.sets.specs.Rows.{contracted};
ghost use Rattle.sets.specs.Sets.{has, ◌⊆◌, within};

// A set of numbers from 0 to 9, of tables or of tests.
#[derive(Clone, Copy, PartialEq, Eq, Debug)]
pub struct SmallSet {
    bits: u16,
    ghost few: { bits < 1024 },
}

impl SmallSet {
    // The set that has no member.
    pub fn empty() -> SmallSet
        ensures { result.bits ≡ 0 }
    {
        SmallSet { bits: 0 }
    }

    // The set with the number `bits`.
    pub fn from_bits(bits: u16) -> Option<SmallSet>
        ensures { MatchOption result (1024 ≤ bits) (λ set. set.bits ≡ bits) }
    {
        if bits < 1024 {
            Some(SmallSet { bits })
        } else {
            None
        }
    }

    // The number of the set: the sum of 2^i over its members i.
    pub fn bits(self) -> u16
        ensures { result ≡ self.bits }
    {
        let SmallSet { bits } = self;
        bits
    }

    // All the numbers below `count`.
    pub fn first(count: u8) -> Option<SmallSet>
        ensures { MatchOption result (10 < count) (λ set. (count ≤ 10) × (set.bits ≡ 2 ^ count - 1)) }
    {
        if count > 10 {
            return None;
        }
        Some(SmallSet {
            bits: power_of_two(count) - 1,
        })
    }

    // The set of `member` alone.
    pub fn single(member: u8) -> Option<SmallSet>
        ensures { MatchOption result (10 ≤ member) (λ set. (member < 10) × (set.bits ≡ 2 ^ member)) }
    {
        if member >= 10 {
            return None;
        }
        Some(SmallSet {
            bits: power_of_two(member),
        })
    }

    // Whether `member` is in the set.
    pub fn contains(self, member: u8) -> bool
        ensures { result ≡ has self.bits member }
    {
        member < 10 && (self.bits >> member) & 1 == 1
    }

    // Whether the set has no member.
    pub fn is_empty(self) -> bool
        ensures { result ≡ (self.bits == 0) }
    {
        self.bits == 0
    }

    // How many members the set has.
    pub fn len(self) -> usize
        ensures value { result ≡ count_ones self.bits }
        ensures few { result ≤ 10 }
    {
        self.bits.count_ones() as usize
    }

    // Whether every member is one of `of`.
    pub fn is_subset(self, of: SmallSet) -> bool
        ensures { result ≡ within self.bits of.bits }
    {
        self.bits & of.bits == self.bits
    }

    // The members that are in `other` too.
    pub fn intersection(self, other: SmallSet) -> SmallSet
        ensures { result.bits ≡ bit_and self.bits other.bits }
    {
        SmallSet {
            bits: self.bits & other.bits,
        }
    }

    // The members that are not in `other`.
    pub fn without(self, other: SmallSet) -> SmallSet
        ensures { result.bits ≡ self.bits - bit_and self.bits other.bits }
    {
        SmallSet {
            bits: self.bits - self.intersection(other).bits,
        }
    }

    // The set with `member` too, where that is below 10.
    pub fn with_member(self, member: u8) -> Option<SmallSet>
        ensures { MatchOption result (10 ≤ member) (λ set. (member < 10) × (set.bits ≡ bit_or self.bits (2 ^ member))) }
    {
        let one = SmallSet::single(member)?;
        Some(SmallSet {
            bits: self.bits | one.bits,
        })
    }

    // The set without `member`.
    pub fn without_member(self, member: u8) -> SmallSet
        ensures inside { has self.bits member ≡ true → result.bits ≡ self.bits - 2 ^ member }
        ensures outside { has self.bits member ≡ false → result.bits ≡ self.bits }
    {
        match SmallSet::single(member) {
            Some(one) => self.without(one),
            None => self,
        }
    }

    // The members in `by`, and the others.
    pub fn split(self, by: SmallSet) -> (SmallSet, SmallSet)
        ensures inside { result.0.bits ≡ bit_and self.bits by.bits }
        ensures outside { result.1.bits ≡ self.bits - bit_and self.bits by.bits }
    {
        (self.intersection(by), self.without(by))
    }

    // The least member.
    pub fn lowest(self) -> Option<u8>
        ensures { MatchOption result (self.bits ≡ 0) (λ m. (has self.bits m ≡ true) × ((k : ℕ) → k < m → has self.bits k ≡ false)) }
    {
        if self.is_empty() {
            return None;
        }
        Some(self.bits.trailing_zeros() as u8)
    }

    // The next subset of `of` in ascending order, and the empty set after the last.
    pub fn next_subset(self, of: SmallSet) -> SmallSet
        ensures part { result.bits ⊆ of.bits }
        ensures next { self.bits ⊆ of.bits → self.bits < of.bits → contracted result.bits of.bits ≡ contracted self.bits of.bits + 1 }
        ensures above { self.bits ⊆ of.bits → self.bits < of.bits → self.bits < result.bits }
        ensures least { self.bits ⊆ of.bits → (t : ℕ) → t ⊆ of.bits → self.bits < t → result.bits ≤ t }
        ensures last { self.bits ≡ of.bits → result.bits ≡ 0 }
    {
        SmallSet {
            bits: self.bits.wrapping_sub(of.bits) & of.bits,
        }
    }
}

// 2^exponent.
fn power_of_two(exponent: u8) -> u16
    requires { exponent ≤ 10 }
    ensures value { result ≡ 2 ^ exponent }
    ensures above { 0 < result }
    ensures below { (result ≤ 1024) × (exponent < 10 → result < 1024) }
{
    1 << exponent
}
