// Inputs of many kinds, with what each program must write.
use pricing::{Clock, FetchesFirst, PriceModel, PrintableModel};
use program::run;

// Rows enough for every question here that has an answer.
const ROWS: usize = 64;

// An input, and what is written for it.
struct Case {
    input: &'static [u8],
    output: &'static [u8],
}

// Questions that both programs refuse alike, by layer.
const REFUSED: [Case; 32] = [
    Case {
        input: b"",
        output: b"FF02180001\n",
    },
    Case {
        input: b"05",
        output: b"FF01150001\n",
    },
    Case {
        input: b"\n",
        output: b"FF01150001\n",
    },
    Case {
        input: b"0\n",
        output: b"FF01150001\n",
    },
    Case {
        input: b"05\r\n",
        output: b"FF01150001\n",
    },
    Case {
        input: b" 05\n",
        output: b"FF01150001\n",
    },
    Case {
        input: b"0g\n",
        output: b"FF01150001\n",
    },
    Case {
        input: b"010000000a\n05\n",
        output: b"FF01150001\n",
    },
    Case {
        input: b"0100000064\n010000000A",
        output: b"FF01150002\n",
    },
    Case {
        input: b"00\n",
        output: b"FF02160001\n",
    },
    Case {
        input: b"06\n",
        output: b"FF02160001\n",
    },
    Case {
        input: b"01000064\n",
        output: b"FF02160001\n",
    },
    Case {
        input: b"0500\n",
        output: b"FF02160001\n",
    },
    Case {
        input: b"04002D302E32\n",
        output: b"FF02160001\n",
    },
    Case {
        input: b"0100000064\n",
        output: b"FF02180002\n",
    },
    Case {
        input: b"05\n05\n",
        output: b"FF02170002\n",
    },
    Case {
        input: b"05\n0100000064\n",
        output: b"FF02170002\n",
    },
    Case {
        input: b"0100000064\n03000001000200FA00\n0100000064\n05\n",
        output: b"FF02170003\n",
    },
    Case {
        input: b"0100000064\n03000001000200FA00\n04002D302E303030\n05\n",
        output: b"FF02140003\n",
    },
    Case {
        input: b"0100000064\n03000001000200FA00\n04002D302E323531\n05\n",
        output: b"FF030A0003\n",
    },
    Case {
        input: b"0101000000\n05\n",
        output: b"FF03020001\n",
    },
    Case {
        input: b"0100000064\n020001000100640001\n05\n",
        output: b"FF03030002\n",
    },
    Case {
        input: b"0100000064\n020000000100640001\n05\n",
        output: b"FF03040002\n",
    },
    Case {
        input: b"0100000064\n0300000100009C4001\n05\n",
        output: b"FF03050002\n",
    },
    Case {
        input: b"0100000064\n0300000100029C4002\n05\n",
        output: b"FF03070002\n",
    },
    Case {
        input: b"0100000064\n04002D302E323530\n05\n",
        output: b"FF03090002\n",
    },
    Case {
        input: b"05\n",
        output: b"FF040B0001\n",
    },
    Case {
        input: b"0100000003\n0100000004\n05\n",
        output: b"FF040D0003\n",
    },
    Case {
        input: b"0100000001\n0100000001\n0100000001\n0100000001\n0100000001\n0100000001\n0100000001\n0100000001\n0100000001\n0100000001\n0100000001\n",
        output: b"FF0301000B\n",
    },
    Case {
        input: b"0100000064\n0100000064\n020001000100640001\n020100000100640001\n05\n",
        output: b"FF03060004\n",
    },
    Case {
        input: b"0100000064\n03000001000200FA00\n03000001000200FA00\n05\n",
        output: b"FF03080003\n",
    },
    Case {
        input: b"0100000001\n0100000001\n0100000001\n0100000001\n0100000001\n0100000001\n0100000001\n05\n",
        output: b"FF040C0008\n",
    },
];

// Questions that Clock answers, or refuses by itself.
const BY_CLOCK: [Case; 4] = [
    Case {
        input: b"0100000064\n010000000A\n020001000100640001\n0300000100029C4001\n05\n",
        output: b"1000\n1001\n1200\n1100\n1E0000000000061EE0\n1F0000000000000006\n",
    },
    Case {
        input: b"0100000064\n010000000A\n02000100010064003C\n030000010002006401\n05\n",
        output: b"1000\n1100\n1001\n1200\n1E0000000000009CB3\n1F0000000000000006\n",
    },
    Case {
        input: b"0100000064\n03000001000200FA00\n04002D302E323530\n05\n",
        output: b"1000\n1100\n1E0000000000000064\n1F0000000000000001\n",
    },
    Case {
        input: b"0100FFFFFF\n0100FFFFFF\n0100FFFFFF\n02000100010001FFFF\n02010200010001FFFF\n05\n",
        output: b"FF040E0006\n",
    },
];

// Questions that Fetches first answers.
const BY_FETCHES: [Case; 3] = [
    Case {
        input: b"0100000064\n010000000A\n020001000100640001\n0300000100029C4001\n05\n",
        output: b"1000\n1001\n1200\n1100\n1E0000000A0000000000061EE0\n1F0000000000000006\n",
    },
    Case {
        input: b"0100000064\n010000000A\n02000100010064003C\n030000010002006401\n05\n",
        output: b"1000\n1001\n1200\n1100\n1E0000000A000000000000EEC0\n1F0000000000000006\n",
    },
    Case {
        input: b"0100FFFFFF\n0100FFFFFF\n0100FFFFFF\n02000100010001FFFF\n02010200010001FFFF\n05\n",
        output: b"1000\n1001\n1002\n1200\n1200\n1E00000000FFFFFFFFFFFFFFFF\n1F0000000000000008\n",
    },
];

// What the program of a model writes for the input, in lent room for prices, is the output.
fn writes<M: PrintableModel + Drop>(
    model: M,
    prices: &mut [M::Price; ROWS],
    input: &[u8],
    output: &[u8],
) -> bool {
    let mut sizes = [0; ROWS];
    let mut choices = [0; ROWS];
    run(model, input, prices, &mut sizes, &mut choices).as_slice() == output
}

fn clock_writes(input: &[u8], output: &[u8]) -> bool {
    writes(Clock, &mut [Clock.bare(0); ROWS], input, output)
}

fn fetches_write(input: &[u8], output: &[u8]) -> bool {
    writes(
        FetchesFirst,
        &mut [FetchesFirst.bare(0); ROWS],
        input,
        output,
    )
}

#[test]
fn both_refuse(rt: HostRuntime) {
    for case in &REFUSED {
        assert!(rt; clock_writes(case.input, case.output));
        assert!(rt; fetches_write(case.input, case.output));
    }
}

#[test]
fn each_answers(rt: HostRuntime) {
    for case in &BY_CLOCK {
        assert!(rt; clock_writes(case.input, case.output));
    }
    for case in &BY_FETCHES {
        assert!(rt; fetches_write(case.input, case.output));
    }
}

// The first bytes of an input.
fn first(input: &[u8], count: usize) -> &[u8] {
    input.get(..count).unwrap_or(input)
}

// A line of so many pairs of zeros.
fn zeros(pairs: usize) -> [u8; 8193] {
    let mut input = [b'0'; 8193];
    if pairs < 4096 {
        input[2 * pairs] = b'\n';
    }
    input
}

#[test]
fn long_inputs(rt: HostRuntime) {
    let input = zeros(4095);
    assert!(rt; clock_writes(first(&input, 8190), b"FF01150001\n"));
    assert!(rt; clock_writes(first(&input, 8191), b"FF02160001\n"));
    assert!(rt; clock_writes(first(&input, 8192), b"FF02160001\n"));
    assert!(rt; clock_writes(first(&input, 8193), b"FF01190000\n"));
}

// Every byte, alone and as a line.
#[test]
fn every_byte(rt: HostRuntime) {
    for byte in 0..=255u8 {
        assert!(rt; clock_writes(&[byte], b"FF01150001\n"));
        assert!(rt; fetches_write(&[byte, b'\n'], b"FF01150001\n"));
    }
}

// Whether a frame of the kind may have so many bytes.
fn fits(kind: u8, len: usize) -> bool {
    matches!((kind, len), (1, 5) | (2 | 3, 9) | (4, 7..=9) | (5, 1))
}

// A frame of so many bytes: zeros after the kind byte.
fn frame(kind: u8, len: usize) -> [u8; 32] {
    let mut line = [b'0'; 32];
    line[1] = b'0' + kind % 10;
    if len < 16 {
        line[2 * len] = b'\n';
    }
    line
}

// Every kind with every length.
#[test]
fn every_kind_and_length(rt: HostRuntime) {
    for kind in 0..10u8 {
        for len in 1..15usize {
            let line = frame(kind, len);
            let refused = clock_writes(first(&line, 2 * len + 1), b"FF02160001\n");
            assert_eq!(rt; refused, !fits(kind, len));
        }
    }
}
