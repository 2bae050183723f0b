use crate::{SeqRule, Sequence, SequenceError, keep_sequence, read_sequence};
use std::test::Fail;

const PALETTE: SeqRule = SeqRule {
    unit: 3,
    least: 1,
    most: 256,
};

const NOTHING: SeqRule = SeqRule {
    unit: 0,
    least: 0,
    most: 0,
};

#[test]
fn hex_is_read(rt: HostRuntime) -> Result<(), Fail> {
    let two = read_sequence(rt.alloc(), "000000ffffff", PALETTE)?;
    assert_eq!(rt; two.bytes(), [0, 0, 0, 255, 255, 255].as_slice());
    let upper = read_sequence(rt.alloc(), "0A0b0C", PALETTE)?;
    assert_eq!(rt; upper.bytes(), [10, 11, 12].as_slice());
    let none = read_sequence(rt.alloc(), "", NOTHING)?;
    assert_eq!(rt; none.bytes().len(), 0);
    Ok(())
}

fn is_refused(read: Result<Sequence, SequenceError>) -> bool {
    matches!(read, Err(SequenceError::BadSequence))
}

#[test]
fn other_text_is_refused(rt: HostRuntime) {
    for text in ["000000ff", "0g", "0000000", "", "00 0000", "é00000"] {
        assert!(rt; is_refused(read_sequence(rt.alloc(), text, PALETTE)));
    }
    assert!(rt; is_refused(read_sequence(rt.alloc(), "00", NOTHING)));
}

#[test]
fn lengths_have_bounds(rt: HostRuntime) -> Result<(), Fail> {
    let bytes = [7u8; 771];
    for (count, kept) in [
        (0, false),
        (2, false),
        (3, true),
        (4, false),
        (768, true),
        (769, false),
        (771, false),
    ] {
        match keep_sequence(rt.alloc(), &bytes[..count], PALETTE) {
            Ok(sequence) => assert!(rt; kept && sequence.bytes() == &bytes[..count]),
            Err(why) => assert!(rt; !kept && why == SequenceError::BadSequence),
        }
    }
    Ok(())
}
