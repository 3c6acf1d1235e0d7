// All lines of the input.
ghost use Rattle.std.specs.Prelude.{◌≡◌, ◌≤◌, length};
ghost use Rattle.catalogue.specs.Asked.{asked};
ghost use Rattle.frames.specs.Lines.{lines_of};
ghost use Rattle.frames.specs.declared.turns.Turn.TheVariants.{Tables};
ghost use Rattle.program.specs.Runs.{Gathers, gathered};

use crate::Refused;
use crate::faults::at_line;
use crate::judging::{ended, judge};
use frames::{Turn, next_line};
use planner::Question;
use pricing::PriceModel;

// Judges the lines in their order, and answers the number of the last, which is the end's; so the lines are counted.
pub(crate) fn gather<M: PriceModel>(
    question: &mut Question<M>,
    input: &[u8],
) -> Result<u16, Refused>
    requires { length input.now ≤ 8192 }
    ensures model { question.new.model ≡ question.old.model }
    ensures outcome { Gathers (gathered 0 (record { turn = Tables; question = asked question.old.held.catalogue }) (lines_of input.now)) result (asked question.new.held.catalogue) }
{
    let mut turn = Turn::Tables;
    let mut number = 0;
    let mut rest = input;
    while let Some((line, others)) = next_line(rest) {
        number += 1;
        turn = at_line(judge(question, turn, line), number)?;
        rest = others;
    }
    at_line(ended(turn), number + 1)?;
    Ok(number)
}
