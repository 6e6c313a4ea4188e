// Readers and writers that fail in mid-stream.
use crate::ends::{AT_ONCE, Pace, replayed};
use crate::texts::{DAY, push_refusals, push_times};
use std::process::Abort;
use std::test::Fail;

fn failing_after(left: usize) -> Pace {
    Pace { left, ..AT_ONCE }
}

// An error, and nothing is printed of a text that was not read to its end.
#[test]
fn a_reader_that_fails(rt: HostRuntime) {
    for left in [0, 1, 10, 11, 60] {
        let outcome = replayed(rt.alloc(), DAY.text, failing_after(left), AT_ONCE, true);
        assert!(rt; !outcome.went_well, "after {left} bytes");
        assert!(rt; outcome.written.as_slice().is_empty(), "after {left} bytes");
    }
}

// An error, and what was written is a beginning of the transcript.
#[test]
fn a_writer_that_fails(rt: HostRuntime) {
    for left in [0, 1, 4, 50, 100] {
        assert!(rt; left < DAY.shown.len());
        let outcome = replayed(rt.alloc(), DAY.text, AT_ONCE, failing_after(left), true);
        assert!(rt; !outcome.went_well, "after {left} bytes");
        assert!(rt;
            outcome.written.as_slice() == &DAY.shown[..left],
            "after {left} bytes"
        );
    }
    let whole = DAY.shown.len();
    let outcome = replayed(rt.alloc(), DAY.text, AT_ONCE, failing_after(whole), true);
    assert!(rt; outcome.went_well);
    assert!(rt; outcome.written.as_slice() == DAY.shown);
}

// The same where more is printed than waits before the writer.
#[test]
fn a_writer_that_fails_late(rt: HostRuntime) -> Result<(), Fail> {
    let mut text = Vec::new(rt.alloc());
    push_times(&mut text, b"R\n", 3_000)?;
    let mut shown = Vec::new(rt.alloc());
    push_refusals(&mut shown, rt.alloc(), 1, 3_001, "S\t21\t0")?;
    for left in [8_191, 8_192, 8_193, 20_000] {
        assert!(rt; left < shown.as_slice().len());
        let outcome = replayed(
            rt.alloc(),
            text.as_slice(),
            AT_ONCE,
            failing_after(left),
            true,
        );
        assert!(rt; !outcome.went_well, "after {left} bytes");
        assert!(rt;
            outcome.written.as_slice() == &shown.as_slice()[..left],
            "after {left} bytes"
        );
    }
    Ok(())
}

// Everything was written, but not flushed.
#[test]
fn a_writer_that_does_not_flush(rt: HostRuntime) {
    let outcome = replayed(rt.alloc(), DAY.text, AT_ONCE, AT_ONCE, false);
    assert!(rt; !outcome.went_well);
    assert!(rt; outcome.written.as_slice() == DAY.shown);
}
