// Texts at the limit of what is read, with many lines, and with much to print.
use crate::ends::{AT_ONCE, Pace, replayed};
use crate::texts::{DAY, LEADING_LINE_END, LINE_ENDS, NOTHING, push_refusals, push_times};
use std::process::Abort;
use std::test::Fail;

// A resumption of a day that is still loading is refused. With 16,384 lines that is all that may be read.
#[test]
fn the_longest_text_is_replayed(rt: HostRuntime) -> Result<(), Fail> {
    let mut text = Vec::new(rt.alloc());
    push_times(&mut text, b"R\n", 16_384)?;
    assert_eq!(rt; text.as_slice().len(), 32_768);
    let mut shown = Vec::new(rt.alloc());
    push_refusals(&mut shown, rt.alloc(), 1, 16_385, "S\t21\t0")?;
    let outcome = replayed(rt.alloc(), text.as_slice(), AT_ONCE, AT_ONCE, true);
    assert!(rt; outcome.went_well);
    assert!(rt; outcome.written.as_slice() == shown.as_slice());
    Ok(())
}

// One byte more, or many more, and the whole text is refused.
#[test]
fn a_longer_text_is_refused(rt: HostRuntime) -> Result<(), Fail> {
    let mut text = Vec::new(rt.alloc());
    push_times(&mut text, b"R\n", 20_000)?;
    for length in [32_769, 32_770, 40_000] {
        assert!(rt; length <= text.as_slice().len());
        let outcome = replayed(
            rt.alloc(),
            &text.as_slice()[..length],
            AT_ONCE,
            AT_ONCE,
            true,
        );
        assert!(rt; outcome.went_well, "at {length}");
        assert!(rt;
            outcome.written.as_slice() == b"!\t0\tT\t17\t0\n".as_slice(),
            "at {length}"
        );
    }
    Ok(())
}

// The last refusal is that of line 5,203, and what is printed is more than any room before the writer.
#[test]
fn late_refusals_are_printed(rt: HostRuntime) -> Result<(), Fail> {
    let mut text = Vec::new(rt.alloc());
    text.extend_from_slice(b"O\n")?;
    push_times(&mut text, b"R\n", 5_200)?;
    text.extend_from_slice(b"Z\nR\n")?;
    let mut shown = Vec::new(rt.alloc());
    push_refusals(&mut shown, rt.alloc(), 2, 5_202, "M\t71\t0")?;
    shown.extend_from_slice(b"Z\t0\t0\t0\t0\n!\t5203\tS\t21\t0\n")?;
    assert!(rt; shown.as_slice().len() > 8_192);
    let outcome = replayed(rt.alloc(), text.as_slice(), AT_ONCE, AT_ONCE, true);
    assert!(rt; outcome.went_well);
    assert!(rt; outcome.written.as_slice() == shown.as_slice());
    Ok(())
}

#[test]
fn pieces_of_any_length_give_the_same(rt: HostRuntime) {
    for sample in [DAY, LEADING_LINE_END, NOTHING, LINE_ENDS] {
        for step in [1, 2, 7, 1_000] {
            for interrupted in [false, true] {
                let pace = Pace {
                    step,
                    left: usize::MAX,
                    interrupted,
                    calls: 0,
                };
                let outcome = replayed(rt.alloc(), sample.text, pace, pace, true);
                assert!(rt; outcome.went_well, "in steps of {step}");
                assert!(rt;
                    outcome.written.as_slice() == sample.shown,
                    "in steps of {step}"
                );
            }
        }
    }
}
