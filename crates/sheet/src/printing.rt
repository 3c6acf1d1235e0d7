// The tables of a question, the cost that the sheet corrects, and the lines of the sheet.
ghost use Rattle.std.specs.Prelude.{◌≡◌, IfOk};
ghost use Rattle.std.specs.Result.{result_ok};
ghost use Rattle.reading.specs.Outcomes.{reading};

use crate::{CORRECTED, Worded, table_name};
use catalogue::Catalogue;
use checker::CheckRefusal;
use reading::read;
use std::io;

// How many rows each table has.
pub fn print_tables(rt: &HostRuntime, question: &Catalogue) -> io::Result<()> {
    for table in 0..question.count() {
        println!(rt; "{} {}", question.rows_of(table), table_name(table))?;
    }
    Ok(())
}

// The cost of the test that the sheet corrects.
pub fn print_cost(rt: &HostRuntime, question: &Catalogue) -> io::Result<()> {
    match question.test_of(CORRECTED) {
        Some(test) => {
            println!(rt;
                "testing the {} costs {} ms a row",
                table_name(CORRECTED),
                test.cost
            )
        }
        None => Ok(()),
    }
}

// What the plan that follows the tables' numbers would cost.
pub fn print_by_number<M: Worded>(
    rt: &HostRuntime,
    model: &M,
    checked: Result<M::Price, CheckRefusal>,
) -> io::Result<()> {
    match checked {
        Ok(price) => println!(rt; "  tests first and joins by number: {}", model.words(price)),
        Err(refusal) => {
            println!(rt;
                "  tests first and joins by number: no plan (refusal {})",
                refusal.number()
            )
        }
    }
}

// The reading that a line of the sheet is; a line that is none is printed.
pub fn read_line(rt: &HostRuntime, number: u64, text: &str) -> io::Result<Option<i32>>
    ensures { IfOk result (λ by. by ≡ result_ok (reading text.now)) }
{
    match read(text.as_bytes()) {
        Ok(by) => Ok(Some(by)),
        Err(fault) => {
            println!(rt;
                "line {number}: '{text}' is no reading (refusal {})",
                fault.number()
            )?;
            Ok(None)
        }
    }
}
