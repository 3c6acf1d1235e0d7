// The whole run.
ghost use Rattle.std.specs.Prelude.{◌≡◌, length, take};
ghost use Rattle.catalogue.specs.Asked.{asked};
ghost use Rattle.catalogue.specs.Changes.{empty};
ghost use Rattle.program.specs.Outputs.{written};
ghost use Rattle.program.specs.Runs.{Answered, ran};
ghost use Rattle.program.specs.Statement.{Honest};

use crate::faults::at_line;
use crate::gathering::gather;
use crate::writing::{fault_output, plan_output};
use crate::{Output, ProgramFault, Refused};
use planner::Question;
use pricing::PrintableModel;
use readoff::MOST_PLAN_BYTES;

// An input has at most so many bytes.
pub const MOST_INPUT: usize = 8192;

// The plan of the question that the lines ask, or why there is none to write.
fn answer<M: PrintableModel>(
    question: &mut Question<M>,
    input: &[u8],
    prices: &mut [M::Price],
    sizes: &mut [u32],
    choices: &mut [u16],
) -> Result<Output, Refused>
    requires { asked question.old.held.catalogue ≡ empty }
    ensures { Answered (M.meaning question.old.model) (M.shown question.old.model) (ran (M.meaning question.old.model) (length prices.old) (length sizes.old) (length choices.old) input.now) result }
{
    if input.len() > MOST_INPUT {
        return Err(Refused {
            fault: ProgramFault::InputTooLong,
            line: 0,
        });
    }
    let end = gather(question, input)?;
    let (tries, _) = match question.solve(prices, sizes, choices) {
        Ok(found) => found,
        Err(refusal) => return at_line(Err(refusal.into()), end),
    };
    let mut bytes = [0; MOST_PLAN_BYTES];
    match question.tell(&mut bytes) {
        Ok((len, price)) => Ok(plan_output(question.model(), &bytes[..len], price, tries)),
        Err(_) => unreachable(),
    }
}

// Reads a question from lines of hexadecimal and plans it in the lists that are lent: what a program writes for the input.
pub fn run<M: PrintableModel + Drop>(
    model: M,
    input: &[u8],
    prices: &mut [M::Price],
    sizes: &mut [u32],
    choices: &mut [u16],
) -> Output
    ensures written { take result.len result.bytes ≡ written (M.meaning model) (M.shown model) (ran (M.meaning model) (length prices.old) (length sizes.old) (length choices.old) input.now) }
    ensures honest { Honest (M.meaning model) (M.shown model) (length prices.old) (length sizes.old) (length choices.old) input.now (take result.len result.bytes) }
{
    let mut question = Question::new(model);
    match answer(&mut question, input, prices, sizes, choices) {
        Ok(output) => output,
        Err(refused) => fault_output(refused),
    }
}
