// Planning a question and telling the plan.
ghost use Rattle.std.specs.Prelude.{◌≡◌, IfOk};
ghost use Rattle.catalogue.specs.Asked.{asked};
ghost use Rattle.planner.specs.Law.{ToldTrue};

use planner::{Question, Refusal};
use pricing::PriceModel;

// A plan that was told, in bytes, with its price and the tries that it took.
#[derive(Clone, Copy, PartialEq, Eq, Debug)]
pub struct Told<'a, P> {
    pub bytes: &'a [u8],
    pub price: P,
    pub tries: u64,
}

// Solves the question in the lists that are lent, and tells the cheapest plan, or says why there is none.
pub fn plan<'a, M: PriceModel>(
    question: &mut Question<M>,
    prices: &mut [M::Price],
    sizes: &mut [u32],
    choices: &mut [u16],
    bytes: &'a mut [u8],
) -> Result<Told<'a, M::Price>, Refusal>
    ensures model { question.new.model ≡ question.old.model }
    ensures question { asked question.new.held.catalogue ≡ asked question.old.held.catalogue }
    ensures told { IfOk result (λ plan. ToldTrue (M.meaning question.old.model) (asked question.old.held.catalogue) plan.bytes.now plan.price) }
{
    let (tries, _) = question.solve(prices, sizes, choices)?;
    let (len, price) = question.tell(bytes)?;
    Ok(Told {
        bytes: &bytes[..len],
        price,
        tries,
    })
}
