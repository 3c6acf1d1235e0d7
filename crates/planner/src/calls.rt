// Calls as a list of them holds them, and what they reply.
use crate::Refusal;
use readoff::PlanBytes;

// One of the seven calls. The lists that solve and check work in, and the buffer of tell, are lent when it is made.
#[derive(Clone, Copy)]
pub enum Call<'a> {
    Table {
        rows: u32,
    },
    Tie {
        table: u8,
        other: u8,
        p: u16,
        q: u16,
        cost: u16,
    },
    Test {
        table: u8,
        p: u16,
        q: u16,
        cost: u16,
        kind: u8,
    },
    Correct {
        table: u8,
        by: i32,
    },
    Solve,
    Tell,
    Check(&'a [u8]),
}

// What a call replied.
#[derive(Clone, Copy)]
pub enum Reply<P> {
    Placed(u8),
    Done,
    Solved { tries: u64, price: P },
    Told { plan: PlanBytes, price: P },
    Checked(P),
    Refused(Refusal),
}
