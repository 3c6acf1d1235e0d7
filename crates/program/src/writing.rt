// A refusal, or a plan with its price and tries, as lines.
ghost use Rattle.std.specs.Prelude.{◌≡◌, ◌+◌, ◌*◌, ◌≤◌, ◌∷◌, ◌++◌, length, take};
ghost use Rattle.frames.specs.Hexadecimal.{hex_line};
ghost use Rattle.pricing.specs.Shown.{in_bytes};
ghost use Rattle.program.specs.Outputs.{fault_line, pair_lines, plan_lines};

use crate::labels::Label;
use crate::{Output, Refused};
use pricing::{PRICE_ROOM, PrintableModel};

// A refusal as one line of five bytes.
pub(crate) fn fault_output(refused: Refused) -> Output
    ensures { take result.len result.bytes ≡ fault_line refused }
{
    let (layer, number) = (refused.fault.layer().number(), refused.fault.number());
    let [high, low] = refused.line.to_be_bytes();
    let mut output = Output::empty();
    output.labelled(Label::Fault, &[layer, number, high, low]);
    output
}

// The plan bytes, a pair a line.
fn put_pairs(output: &mut Output, plan: &[u8])
    requires { 2 * output.old.len + 5 * length plan.now ≤ 290 }
    ensures text { take output.new.len output.new.bytes ≡ take output.old.len output.old.bytes ++ pair_lines plan.now }
    ensures room { output.new.len ≤ 145 }
{
    let mut left = plan;
    while let [first, second, rest @ ..] = left {
        output.line(&[*first, *second]);
        left = rest;
    }
}

// The price's bytes.
fn put_price<M: PrintableModel>(output: &mut Output, model: &M, price: M::Price)
    requires { output.old.len ≤ 145 }
    ensures text { take output.new.len output.new.bytes ≡ take output.old.len output.old.bytes ++ hex_line (0x1E ∷ M.shown model.now price) }
    ensures room { output.new.len ≤ 172 }
{
    let mut room = [0; PRICE_ROOM];
    let count = model.bytes(price, &mut room);
    output.labelled(Label::Price, &room[0..count]);
}

// The tries in 8 bytes.
fn put_tries(output: &mut Output, tries: u64)
    requires { output.old.len ≤ 172 }
    ensures text { take output.new.len output.new.bytes ≡ take output.old.len output.old.bytes ++ hex_line (0x1F ∷ in_bytes 8 tries) }
{
    output.labelled(Label::Tries, &tries.to_be_bytes());
}

// A plan, its price and its tries.
pub(crate) fn plan_output<M: PrintableModel>(
    model: &M,
    plan: &[u8],
    price: M::Price,
    tries: u64,
) -> Output
    requires { length plan.now ≤ 58 }
    ensures { take result.len result.bytes ≡ plan_lines plan.now (M.shown model.now price) tries }
{
    let mut output = Output::empty();
    put_pairs(&mut output, plan);
    put_price(&mut output, model, price);
    put_tries(&mut output, tries);
    output
}
