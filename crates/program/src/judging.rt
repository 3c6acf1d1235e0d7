// One line of the input: judged by characters, frame, turn, reading, call.
ghost use Rattle.std.specs.Prelude.{◌≡◌};
ghost use Rattle.catalogue.specs.Asked.{asked};
ghost use Rattle.frames.specs.Frames.{plain_frame};
ghost use Rattle.frames.specs.Splitting.{plain_line};
ghost use Rattle.frames.specs.Turns.{turn_finished};
ghost use Rattle.program.specs.Lines.{Calls, Judges, called, frame_or_fault, judged};

use crate::ProgramFault;
use frames::{Frame, Line, Turn, correction, decode_line};
use planner::Question;
use pricing::PriceModel;

// Makes the call of a frame; a correction is read first.
fn call<M: PriceModel>(question: &mut Question<M>, frame: Frame<'_>) -> Result<(), ProgramFault>
    ensures model { question.new.model ≡ question.old.model }
    ensures outcome { Calls (called (asked question.old.held.catalogue) (plain_frame frame.entry)) result (asked question.new.held.catalogue) }
{
    match frame {
        Frame::Table { rows } => {
            question.table(rows)?;
        }
        Frame::Tie {
            table,
            other,
            p,
            q,
            cost,
        } => {
            question.tie(table, other, p, q, cost)?;
        }
        Frame::Test {
            table,
            p,
            q,
            cost,
            kind,
        } => {
            question.test(table, p, q, cost, kind)?;
        }
        Frame::Correct { table, reading } => {
            let by = correction(reading)?;
            question.correct(table, by)?;
        }
        Frame::End => {}
    }
    Ok(())
}

// The turn after the line, or the first fault.
pub(crate) fn judge<M: PriceModel>(
    question: &mut Question<M>,
    turn: Turn,
    line: Line<'_>,
) -> Result<Turn, ProgramFault>
    ensures model { question.new.model ≡ question.old.model }
    ensures outcome { Judges (judged (record { turn = turn; question = asked question.old.held.catalogue }) (plain_line line.entry)) result (asked question.new.held.catalogue) }
{
    let decoded = decode_line(line)?;
    let frame = Frame::decode(decoded.as_slice())?;
    let after = turn.after(&frame)?;
    call(question, frame)?;
    Ok(after)
}

// After the last line: whether the end was among them.
pub(crate) fn ended(turn: Turn) -> Result<(), ProgramFault>
    ensures { result ≡ frame_or_fault (turn_finished turn) }
{
    Ok(turn.finish()?)
}
