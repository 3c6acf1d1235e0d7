// Makes a list of calls on a new question.
ghost use Rattle.std.specs.Prelude.{◌≡◌, ◌<◌, min, map, length, take, drop, set as updated};
ghost use Rattle.catalogue.specs.Asked.{asked};
ghost use Rattle.planner.specs.Law.{Run};
ghost use Rattle.planner.specs.Lent.{Leaves, Works};
ghost use Rattle.planner.specs.Made.{Made};
ghost use Rattle.planner.specs.Replies.{answer_of, call_of, replied};
ghost use Rattle.planner.specs.States.{fresh, state_of};

use crate::{Call, Question, Refusal, Reply};
use pricing::PriceModel;
use readoff::{MOST_PLAN_BYTES, PlanBytes};

// Makes one call, with the lists for a solve or a check, and with room for any plan for a tell.
fn make<M: PriceModel>(
    question: &mut Question<M>,
    call: Call<'_>,
    prices: &mut [M::Price],
    sizes: &mut [u32],
    choices: &mut [u16],
) -> Result<Reply<M::Price>, Refusal>
    ensures made { Made M.meaning question.old (call_of (length prices.old) (length sizes.old) (length choices.old) call.entry) (answer_of (replied result)) question.new }
    ensures lists { Leaves (M.meaning question.old.model) (asked question.old.held.catalogue) (call_of (length prices.old) (length sizes.old) (length choices.old) call.entry) (answer_of (replied result)) (record { prices = prices.old; sizes = sizes.old; choices = choices.old }) (record { prices = prices.new; sizes = sizes.new; choices = choices.new }) }
{
    Ok(match call {
        Call::Table { rows } => Reply::Placed(question.table(rows)?),
        Call::Tie {
            table,
            other,
            p,
            q,
            cost,
        } => {
            question.tie(table, other, p, q, cost)?;
            Reply::Done
        }
        Call::Test {
            table,
            p,
            q,
            cost,
            kind,
        } => {
            question.test(table, p, q, cost, kind)?;
            Reply::Done
        }
        Call::Correct { table, by } => {
            question.correct(table, by)?;
            Reply::Done
        }
        Call::Solve => {
            let (tries, price) = question.solve(prices, sizes, choices)?;
            Reply::Solved { tries, price }
        }
        Call::Tell => {
            let mut room = [0; MOST_PLAN_BYTES];
            let (len, price) = question.tell(&mut room)?;
            let plan = PlanBytes::of(room, len).unwrap();
            Reply::Told { plan, price }
        }
        Call::Check(bytes) => Reply::Checked(question.check(bytes, prices)?),
    })
}

// Writes down what a call replied.
fn note<P: Copy>(replies: &mut [Reply<P>], i: usize, answer: Result<Reply<P>, Refusal>)
    requires { i < length replies.old }
    ensures { replies.new ≡ updated replies.old i (replied answer) }
{
    replies[i] = match answer {
        Ok(reply) => reply,
        Err(refusal) => Reply::Refused(refusal),
    };
}

// Makes the calls one after another on a new question, as many as there is room to write the reply of, and gives the question that they leave.
pub fn replay<M: PriceModel>(
    model: M,
    calls: &[Call<'_>],
    prices: &mut [M::Price],
    sizes: &mut [u32],
    choices: &mut [u16],
    replies: &mut [Reply<M::Price>],
) -> Question<M>
    ensures model { result.model ≡ model }
    ensures run { Run (Works (M.meaning model)) (fresh, record { prices = prices.old; sizes = sizes.old; choices = choices.old }) (map (call_of (length prices.old) (length sizes.old) (length choices.old)) (take (min (length calls.now) (length replies.old)) calls.now)) (map answer_of (take (min (length calls.now) (length replies.old)) replies.new)) (state_of result.held, record { prices = prices.new; sizes = sizes.new; choices = choices.new }) }
    ensures rest { drop (min (length calls.now) (length replies.old)) replies.new ≡ drop (min (length calls.now) (length replies.old)) replies.old }
{
    let mut question = Question::new(model);
    let count = calls.len().min(replies.len());
    // Each call and the place of its reply, by one index.
    for i in 0..count {
        let answer = make(&mut question, calls[i], prices, sizes, choices);
        note(replies, i, answer);
    }
    question
}
