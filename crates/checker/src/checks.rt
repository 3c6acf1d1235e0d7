// Checking plan bytes against a question.
ghost use Rattle.catalogue.specs.Asked.{asked};
ghost use Rattle.checker.specs.Checks.{Checked};

use crate::CheckRefusal;
use crate::named::all_named;
use crate::priced::price_plan;
use crate::valid::is_valid;
use catalogue::Catalogue;
use pricing::PriceModel;

// The price of the valid plan that the bytes spell. Entry k of the list takes the price of the last operation
// whose result lay above exactly k unjoined parts; a refusal leaves the list as it was.
pub fn check<M: PriceModel>(
    model: &M,
    catalogue: &Catalogue,
    bytes: &[u8],
    prices: &mut [M::Price],
) -> Result<M::Price, CheckRefusal>
    ensures { Checked (M.meaning model.now) (asked catalogue.now) bytes.now prices.old result prices.new }
{
    if prices.len() < 10 {
        return Err(CheckRefusal::ListTooShort);
    }
    if !all_named(catalogue, bytes) {
        return Err(CheckRefusal::BadPair);
    }
    if !is_valid(catalogue, bytes) {
        return Err(CheckRefusal::NoValidPlan);
    }
    Ok(price_plan(model, catalogue, bytes, prices))
}
