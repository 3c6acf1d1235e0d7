// Links and costs of any cut of the tables, by look-ups.
ghost use Rattle.std.specs.Prelude.{◌≡◌, ℕ, ◌*◌, ◌<◌, ◌≤◌, length};
ghost use Rattle.std.specs.List.{HoldsAt};
ghost use Rattle.catalogue.specs.Asked.{asked};
ghost use Rattle.catalogue.specs.Within.{IsCut, inside as inside_of, near as near_of};
ghost use Rattle.plans.specs.Questions.{across as across_of, all_tables, linked as linked_by};

use crate::Catalogue;
use sets::SmallSet;

// Of a set of tables the number of those that a tie links to it, and the costs of the ties inside it, added up.
#[derive(Clone, Copy)]
struct Cut {
    near: u16,
    inside: u32,
}

// What is listed of each set of tables, each at its number.
#[derive(Drop)]
pub struct Cuts<'a> {
    catalogue: &'a Catalogue,
    all: SmallSet,
    cuts: [Cut; 1024],
    ghost given: { all.bits ≡ all_tables (asked catalogue.now) },
    ghost all_cuts: { length cuts ≡ 1024 },
    ghost listed: { ((x : ℕ) → x ≤ all.bits → HoldsAt (IsCut (asked catalogue.now) x) cuts x) },
}

impl<'a> Cuts<'a> {
    // The cuts of a catalogue's tables.
    pub fn of(catalogue: &'a Catalogue) -> Cuts<'a>
        ensures { result.catalogue.now ≡ catalogue.now }
    {
        let all = catalogue.tables();
        Cuts {
            catalogue,
            all,
            cuts: cuts_up_to(catalogue, all),
        }
    }

    // Whether a tie links the left tables to the right.
    pub fn linked(&self, left: SmallSet, right: SmallSet) -> bool
        ensures { result ≡ linked_by (asked self.now.catalogue.now) left.bits right.bits }
    {
        let given = left.intersection(self.all);
        self.cuts[given.bits() as usize].near & right.bits() != 0
    }

    // The costs of all ties between the left tables and the right, added up.
    pub fn across(&self, left: SmallSet, right: SmallSet) -> u32
        ensures { result ≡ across_of (asked self.now.catalogue.now) left.bits right.bits }
    {
        if !left.intersection(right).is_empty() {
            return self.catalogue.across(left, right);
        }
        let one = left.intersection(self.all).bits();
        let other = right.intersection(self.all).bits();
        self.cuts[(one | other) as usize].inside
            - self.cuts[one as usize].inside
            - self.cuts[other as usize].inside
    }
}

// The tables that a tie links to `tables`.
fn neighbours(catalogue: &Catalogue, tables: SmallSet) -> SmallSet
    ensures { result.bits ≡ near_of (asked catalogue.now) tables.bits }
{
    catalogue.tables_where(|other| catalogue.tied_to(other, tables))
}

// The same as a number, from the cuts of the smaller sets.
fn near_set(catalogue: &Catalogue, cuts: &[Cut; 1024], tables: SmallSet) -> u16
    requires below { (x : ℕ) → x < tables.bits → HoldsAt (IsCut (asked catalogue.now) x) cuts.now x }
    ensures { result ≡ near_of (asked catalogue.now) tables.bits }
{
    let Some(table) = tables.lowest() else {
        return 0;
    };
    let rest = tables.without_member(table);
    if rest.is_empty() {
        return neighbours(catalogue, tables).bits();
    }
    cuts[rest.bits() as usize].near | cuts[tables.without(rest).bits() as usize].near
}

// The costs of the ties inside a set, from the cuts of the smaller sets.
fn inside_set(catalogue: &Catalogue, cuts: &[Cut; 1024], tables: SmallSet) -> u32
    requires given { tables.bits ≤ all_tables (asked catalogue.now) }
    requires below { (x : ℕ) → x < tables.bits → HoldsAt (IsCut (asked catalogue.now) x) cuts.now x }
    ensures value { result ≡ inside_of (asked catalogue.now) tables.bits }
    ensures few { result ≤ 655350 * tables.bits }
{
    let Some(table) = tables.lowest() else {
        return 0;
    };
    let rest = tables.without_member(table);
    cuts[rest.bits() as usize].inside + catalogue.costs_to(table, rest)
}

// The cut of each of the sets up to `all`.
fn cuts_up_to(catalogue: &Catalogue, all: SmallSet) -> [Cut; 1024]
    requires { all.bits ≡ all_tables (asked catalogue.now) }
    ensures all { length result ≡ 1024 }
    ensures listed { (x : ℕ) → x ≤ all.bits → HoldsAt (IsCut (asked catalogue.now) x) result x }
{
    let mut cuts = [Cut { near: 0, inside: 0 }; 1024];
    for bits in 0..all.bits() + 1 {
        if let Some(tables) = SmallSet::from_bits(bits) {
            let near = near_set(catalogue, &cuts, tables);
            let inside = inside_set(catalogue, &cuts, tables);
            cuts[bits as usize] = Cut { near, inside };
        }
    }
    cuts
}
