// The best of many candidates.
ghost use Rattle.std.specs.Prelude.{◌≡◌, ◌+◌, ◌^◌, ◌<◌, ◌≤◌, Some, List, is_some, if◌then◌else◌};
ghost use Rattle.plans.specs.Entries.{better as better_of};
ghost use Rattle.solver.specs.Tries.{TriesEach};
ghost use Rattle.std.specs.Iterator.{IsFinite, Yields, size};

use plans::Entry;
use pricing::PriceModel;

// The best entry so far, and how many candidates were there.
#[derive(Clone, Copy)]
pub(crate) struct Tried<P> {
    pub best: Option<Entry<P>>,
    pub tries: u64,
}

// The later entry only if it is cheaper.
fn better<M: PriceModel>(
    model: &M,
    earlier: Option<Entry<M::Price>>,
    later: Option<Entry<M::Price>>,
) -> Option<Entry<M::Price>>
    ensures { result ≡ better_of (M.meaning model.now) earlier later }
{
    match (earlier, later) {
        (Some(a), Some(b)) if model.cheaper(b.price, a.price) => Some(b),
        _ => earlier.or(later),
    }
}

// One candidate more.
fn with_candidate<M: PriceModel>(
    model: &M,
    so_far: Tried<M::Price>,
    candidate: Option<Entry<M::Price>>,
) -> Tried<M::Price>
    requires { so_far.tries + 1 < 2 ^ 64 }
    ensures best { result.best ≡ better_of (M.meaning model.now) so_far.best candidate }
    ensures tries { result.tries ≡ so_far.tries + (if is_some candidate then 1 else 0) }
{
    Tried {
        best: better(model, so_far.best, candidate),
        tries: so_far.tries + u64::from(candidate.is_some()),
    }
}

// The best of an earlier entry and the candidates made from the items, in their order. A loop, since a `fold` asks the bound on
// the count over every run of the items.
pub(crate) fn best_of<M: PriceModel, I: Iterator, F: Fn(I::Item) -> Option<Entry<M::Price>>>(
    model: &M,
    earlier: Tried<M::Price>,
    items: I,
    candidate: F,
) -> Tried<M::Price>
    requires can { I.can_next items }
    requires ends { IsFinite (I.remaining items) }
    requires callable { (xs : List I.Item) (s t : I) (x : I.Item) → Yields I.next_gives items xs s → I.next_gives s (Some x) t → F.pre candidate x }
    requires few { earlier.tries + size (I.remaining items) < 2 ^ 64 }
    ensures each { TriesEach (M.meaning model.now) (F.post candidate) I.next_gives items earlier result }
    ensures few { result.tries ≤ earlier.tries + size (I.remaining items) }
{
    let mut so_far = earlier;
    for item in items {
        so_far = with_candidate(model, so_far, candidate(item));
    }
    so_far
}
