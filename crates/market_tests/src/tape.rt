// Tape lines as text.
use market::words::TapeLine;
use std::process::Abort;
use std::test::Fail;
use text::refusal::Refusal;
use text::tape::write_tape_line;

fn check_line(rt: &impl Abort, line: TapeLine, expected: &[u8]) -> Result<(), Fail> {
    let mut buffer = [7u8; 64];
    let Ok(n) = write_tape_line(line, &mut buffer) else {
        return Err(Fail::new("not written"));
    };
    assert!(rt; n <= 64);
    assert_eq!(rt; &buffer[0..n], expected);
    Ok(())
}

#[test]
fn every_letter(rt: HostRuntime) -> Result<(), Fail> {
    let print = TapeLine::Print {
        order: 4,
        price: 2012,
        shares: 300,
        low: 2000,
        high: 2020,
    };
    check_line(&rt, print, b"P\t4\t2012\t300\t2000\t2020\n")?;
    check_line(
        &rt,
        TapeLine::Cancel {
            order: 2,
            shares: 100,
        },
        b"X\t2\t100\n",
    )?;
    check_line(&rt, TapeLine::Elect { order: 3 }, b"E\t3\n")?;
    check_line(
        &rt,
        TapeLine::Floor {
            price: 0,
            shares: 4_294_967_295,
        },
        b"F\t0\t4294967295\n",
    )
}

#[test]
fn a_short_buffer(rt: HostRuntime) {
    let mut buffer = [7u8; 3];
    assert_eq!(rt;
        write_tape_line(TapeLine::Elect { order: 3 }, &mut buffer),
        Err(Refusal::BufferTooShort)
    );
    assert_eq!(rt; buffer, [7; 3]);
}
