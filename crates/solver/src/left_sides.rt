// The left sides of the joins of some tables.
ghost use Rattle.std.specs.Prelude.{◌≡◌, ℕ, ◌-◌, ◌<◌, ◌≤◌};
ghost use Rattle.sets.specs.Sets.{◌⊆◌};
ghost use Rattle.std.specs.Iterator.{at_most};

use sets::SmallSet;

// The sets between the empty one and `tables`, by ascending number, from `next` on.
#[derive(Drop)]
pub(crate) struct LeftSides {
    tables: SmallSet,
    next: SmallSet,
    ghost part: { next.bits ⊆ tables.bits },
    ghost some: { 0 < tables.bits → 0 < next.bits },
}

impl LeftSides {
    // All of them.
    pub(crate) fn of(tables: SmallSet) -> LeftSides
        ensures tables { result.tables ≡ tables }
        ensures least { (t : ℕ) → t ⊆ tables.bits → 0 < t → result.next.bits ≤ t }
    {
        LeftSides {
            tables,
            next: SmallSet::empty().next_subset(tables),
        }
    }
}

impl Iterator for LeftSides {
    ghost use Rattle.solver.specs.Tries.{left_steps};

    type Item = SmallSet;

    ghost next_gives = { left_steps };

    ghost remaining = { λ s. at_most (s.tables.bits - s.next.bits) };

    fn next(&mut self) -> Option<SmallSet> {
        let left = self.next;
        if left == self.tables {
            return None;
        }
        self.next = left.next_subset(self.tables);
        Some(left)
    }
}
