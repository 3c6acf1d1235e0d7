// Solving a question, telling the plan that stands, and checking another.
ghost use Rattle.std.specs.Prelude.{◌≡◌, ◌≤◌, length, drop, MatchResult};
ghost use Rattle.catalogue.specs.Asked.{asked};
ghost use Rattle.checker.specs.Checks.{Checked};
ghost use Rattle.planner.specs.Calls.{check_plan, checked_of, solve_with, solved_of, tell_into, told_of};
ghost use Rattle.planner.specs.Made.{Asked, Made, Promised};
ghost use Rattle.solver.specs.Solves.{Lists, filled};

use super::Question;
use crate::TellRefusal;
use checker::{CheckRefusal, check};
use pricing::PriceModel;
use solver::{SolveRefusal, solve};

impl<M: PriceModel> Question<M> {
    // Finds the cheapest plan, which then stands, and answers the tries that it took and the plan's price.
    pub fn solve(
        &mut self,
        prices: &mut [M::Price],
        sizes: &mut [u32],
        choices: &mut [u16],
    ) -> Result<(u64, M::Price), SolveRefusal>
        ensures made { Made M.meaning self.old (solve_with (length prices.old) (length sizes.old) (length choices.old)) (solved_of result) self.new }
        ensures promise { Promised M.meaning self.old (solve_with (length prices.old) (length sizes.old) (length choices.old)) (solved_of result) self.new }
        ensures lists { Lists (M.meaning self.old.model) (asked self.old.held.catalogue) (filled (asked self.old.held.catalogue) (length prices.old) (length sizes.old) (length choices.old)) prices.old prices.new sizes.old sizes.new choices.old choices.new }
    {
        let found = solve(&self.model, &self.held.catalogue, prices, sizes, choices)?;
        self.held.standing = Some(found);
        Ok((found.tries, found.price))
    }

    // Writes the plan that stands at the front of the buffer, and answers the number of its bytes and its price.
    pub fn tell(&self, buffer: &mut [u8]) -> Result<(usize, M::Price), TellRefusal>
        ensures made { Made M.meaning self.now (tell_into (length buffer.old)) (told_of buffer.new result) self.now }
        ensures promise { Asked M.meaning self.now → Promised M.meaning self.now (tell_into (length buffer.old)) (told_of buffer.new result) self.now }
        ensures rest { MatchResult result (λ told. (told.0 ≤ length buffer.old) × (drop told.0 buffer.new ≡ drop told.0 buffer.old)) (λ _. buffer.new ≡ buffer.old) }
    {
        let Some(standing) = self.held.standing else {
            return Err(TellRefusal::NothingStands);
        };
        let plan = standing.plan.as_slice();
        if buffer.len() < plan.len() {
            return Err(TellRefusal::BufferTooShort);
        }
        buffer[..plan.len()].copy_from_slice(plan);
        Ok((plan.len(), standing.price))
    }

    // The price of the valid plan that the bytes spell. Entry k of the list takes the price of the last operation
    // whose result lay above exactly k unjoined parts; a refusal leaves the list as it was.
    pub fn check(&self, bytes: &[u8], prices: &mut [M::Price]) -> Result<M::Price, CheckRefusal>
        ensures made { Made M.meaning self.now (check_plan bytes.now (length prices.old)) (checked_of result) self.now }
        ensures lists { Checked (M.meaning self.now.model) (asked self.now.held.catalogue) bytes.now prices.old result prices.new }
    {
        check(&self.model, &self.held.catalogue, bytes, prices)
    }
}
