// Planning a small question.
ghost use Rattle.catalogue.specs.Asked.{asked};
ghost use Rattle.solver.specs.Solves.{Cheapest};

use catalogue::Catalogue;
use pricing::PriceModel;
use sheet::ROWS;
use solver::{Solution, SolveRefusal, solve};

// The cheapest plan, worked out in lent room for prices, or why there is none.
pub fn planned<M: PriceModel>(
    model: &M,
    question: &Catalogue,
    prices: &mut [M::Price],
) -> Result<Solution<M::Price>, SolveRefusal>
    ensures { Cheapest (M.meaning model.now) (asked question.now) result }
{
    let mut sizes = [0; ROWS];
    let mut choices = [0; ROWS];
    solve(model, question, prices, &mut sizes, &mut choices)
}
