// A question of four tables, as the calls that ask it.
ghost use Rattle.std.specs.Prelude.{◌≡◌};
ghost use Rattle.catalogue.specs.Asked.{asked};
ghost use Rattle.sheet.specs.Sample.{sample as sample_question};
ghost use Rattle.planner.specs.Made.{Asked};

use planner::{Call, Question, Reply, replay};
use pricing::PriceModel;

// Films, the reels that hold them, the cartridges of the reels and their shelves, each tied to the next.
// A film is fetched to test it, and a cartridge looked up.
const CALLS: [Call<'static>; 11] = [
    Call::Table { rows: 100 },
    Call::Table { rows: 10 },
    Call::Table { rows: 8 },
    Call::Table { rows: 3 },
    Call::Tie {
        table: 0,
        other: 1,
        p: 1,
        q: 100,
        cost: 60,
    },
    Call::Tie {
        table: 1,
        other: 2,
        p: 1,
        q: 8,
        cost: 5,
    },
    Call::Tie {
        table: 2,
        other: 3,
        p: 1,
        q: 3,
        cost: 1,
    },
    Call::Test {
        table: 0,
        p: 1,
        q: 2,
        cost: 350,
        kind: 1,
    },
    Call::Test {
        table: 2,
        p: 1,
        q: 2,
        cost: 20,
        kind: 0,
    },
    Call::Solve,
    Call::Tell,
];

// Asks the question and plans it, in the lists that are lent.
pub fn planned<M: PriceModel>(
    model: M,
    prices: &mut [M::Price],
    sizes: &mut [u32],
    choices: &mut [u16],
    replies: &mut [Reply<M::Price>; 11],
) -> Question<M>
    ensures model { result.model ≡ model }
    ensures question { asked result.held.catalogue ≡ sample_question }
    ensures reached { Asked M.meaning result }
{
    replay(model, &CALLS, prices, sizes, choices, replies)
}
