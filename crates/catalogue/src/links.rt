// What ties two sets of tables, and the sets of all tables and all tests.
ghost use Rattle.std.specs.Prelude.{◌≡◌, ℕ, Bool, ◌+◌, ◌*◌, ◌^◌, ◌<◌, ◌≤◌, ◌&&◌, is_some, if◌then◌else◌};
ghost use Rattle.catalogue.specs.Asked.{asked};
ghost use Rattle.plans.specs.Questions.{across as across_of, all_tables, all_tests, cost_of, linked as linked_by, tie_of};
ghost use Rattle.sets.specs.Sets.{any_below, has, sum_below};

use crate::Catalogue;
use sets::SmallSet;

impl Catalogue {
    // The cost of the tie of two tables, 0 without one.
    #[tactic(auto, unfolding(plans::specs::Questions::cost_of))]
    fn tie_cost(&self, table: u8, other: u8) -> u32
        ensures value { result ≡ cost_of (asked self.now) table other }
        ensures bound { result ≤ 65535 }
    {
        self.tie_of(table, other).map_or(0, |tie| tie.cost as u32)
    }

    // The costs of the ties of a table to those of a set, added up.
    pub(crate) fn costs_to(&self, table: u8, others: SmallSet) -> u32
        ensures value { result ≡ sum_below (λ j. (if has others.bits j then cost_of (asked self.now) table j else 0)) self.now.count }
        ensures bound { result ≤ 655350 }
    {
        (0..self.count)
            .filter(|other| others.contains(*other))
            .map(|other| self.tie_cost(table, other))
            .sum()
    }

    // The costs of all ties between the left tables and the right, added up.
    pub fn across(&self, left: SmallSet, right: SmallSet) -> u32
        ensures { result ≡ across_of (asked self.now) left.bits right.bits }
    {
        (0..self.count)
            .filter(|table| left.contains(*table))
            .map(|table| self.costs_to(table, right))
            .sum()
    }

    // Whether a table is tied to one of a set.
    pub(crate) fn tied_to(&self, table: u8, others: SmallSet) -> bool
        ensures { result ≡ any_below (λ j. has others.bits j && is_some (tie_of (asked self.now) table j)) self.now.count }
    {
        (0..self.count).any(|other| others.contains(other) && self.tie_of(table, other).is_some())
    }

    // Whether a tie links the left tables to the right.
    pub fn linked(&self, left: SmallSet, right: SmallSet) -> bool
        ensures { result ≡ linked_by (asked self.now) left.bits right.bits }
    {
        (0..self.count).any(|table| left.contains(table) && self.tied_to(table, right))
    }

    // All tables.
    pub fn tables(&self) -> SmallSet
        ensures { result.bits ≡ all_tables (asked self.now) }
    {
        SmallSet::first(self.count).unwrap_or(SmallSet::empty())
    }

    // The tables of which `holds` is true.
    pub(crate) fn tables_where<F: Fn(u8) -> bool>(&self, holds: F) -> SmallSet
        requires { F.IsAlwaysCallable holds }
        ensures { (f : ℕ → Bool) → ((i : ℕ) (b : Bool) → i < self.now.count → F.post holds i b → b ≡ f i) → result.bits ≡ sum_below (λ i. (if f i then 2 ^ i else 0)) self.now.count }
    {
        let mut tables = SmallSet::empty();
        for table in 0..self.count {
            if holds(table) {
                tables = tables.with_member(table).unwrap_or(tables);
            }
        }
        tables
    }

    // All tests.
    pub fn tests(&self) -> SmallSet
        ensures { result.bits ≡ all_tests (asked self.now) }
    {
        self.tables_where(|table| self.test_of(table).is_some())
    }
}
