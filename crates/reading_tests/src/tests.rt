use reading::{GREATEST_READING, LONGEST_TEXT, ReadingFault, WriteRefusal, read, write};

// Each text with what is left of the buffer after it, and its number.
#[test]
fn reads_and_writes(rt: HostRuntime) {
    let readings = [
        ("0.000", "##", 0),
        ("0.001", "##", 1),
        ("-0.001", "#", -1),
        ("-0.250", "#", -250),
        ("9.999", "##", 9_999),
        ("10.000", "#", 10_000),
        ("-10.000", "", -10_000),
        ("99.999", "#", GREATEST_READING),
        ("-99.999", "", -GREATEST_READING),
    ];
    for (text, left, number) in readings {
        assert_eq!(rt; read(text.as_bytes()), Ok(number));
        let mut buffer = [b'#'; LONGEST_TEXT];
        assert_eq!(rt; write(number, &mut buffer), Ok(text.len()));
        assert!(rt; buffer.starts_with(text.as_bytes()));
        assert!(rt; buffer.ends_with(left.as_bytes()));
    }
    assert_eq!(rt; "-99.999".len(), LONGEST_TEXT);
}

#[test]
fn refuses_other_texts(rt: HostRuntime) {
    let texts = [
        "", "-", "-0.000", "05.000", "-05.000", "+1.000", " 1.000", "1.000 ", "1,000", "1.00",
        "1.0000", "100.000", ".500", "1000", "--1.000", "1.0a0", "a.000",
    ];
    for text in texts {
        assert_eq!(rt;
            read(text.as_bytes()),
            Err(ReadingFault::WrongForm),
            "{}",
            text
        );
    }
}

// A refusal leaves the buffer as it was.
#[test]
fn refuses_to_write(rt: HostRuntime) {
    let refusals = [
        (GREATEST_READING + 1, WriteRefusal::BeyondRange),
        (-GREATEST_READING - 1, WriteRefusal::BeyondRange),
        (i32::MAX, WriteRefusal::BeyondRange),
        (i32::MIN, WriteRefusal::BeyondRange),
        (-250, WriteRefusal::BufferTooShort),
        (10_000, WriteRefusal::BufferTooShort),
    ];
    for (number, refusal) in refusals {
        let mut buffer = [b'#'; 5];
        assert_eq!(rt; write(number, &mut buffer), Err(refusal));
        assert_eq!(rt; buffer, *b"#####");
    }
}
