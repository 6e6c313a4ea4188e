// Each text with the refusal of its first line (0: none), the field's place and where the next line begins.
use std::process::Abort;
use std::test::Fail;
use text::read::read_line;
use text::record::Record;
use text::refusal::Refusal;
use text::write::write_line;

#[derive(Clone, Copy)]
struct Case {
    text: &'static [u8],
    code: u32,
    field: u32,
    next: usize,
}

const CASES: [Case; 87] = [
    Case {
        text: b"",
        code: 10,
        field: 0,
        next: 0,
    },
    Case {
        text: b"\n",
        code: 11,
        field: 0,
        next: 1,
    },
    Case {
        text: b"\t\n",
        code: 11,
        field: 0,
        next: 2,
    },
    Case {
        text: b"G\t2\tL\t2010\n",
        code: 0,
        field: 0,
        next: 11,
    },
    Case {
        text: b"G\t0\tH\t0\n",
        code: 0,
        field: 0,
        next: 8,
    },
    Case {
        text: b"G\t9999999\tL\t9999999",
        code: 0,
        field: 0,
        next: 19,
    },
    Case {
        text: b"N\tB\t7\t2012\t300\n",
        code: 0,
        field: 0,
        next: 15,
    },
    Case {
        text: b"N\tS\t255\t100000\t1000000\nO\n",
        code: 0,
        field: 0,
        next: 23,
    },
    Case {
        text: b"I\tB\t1\t1\t100\n",
        code: 0,
        field: 0,
        next: 12,
    },
    Case {
        text: b"I\tS\t0\t0\t0\n",
        code: 0,
        field: 0,
        next: 10,
    },
    Case {
        text: b"T\tB\t9\t2015\t200\n",
        code: 0,
        field: 0,
        next: 15,
    },
    Case {
        text: b"T\tS\t9\t2015\t200\n",
        code: 0,
        field: 0,
        next: 15,
    },
    Case {
        text: b"M\tB\t5\t800\n",
        code: 0,
        field: 0,
        next: 10,
    },
    Case {
        text: b"M\tS\t5\t800\nZ",
        code: 0,
        field: 0,
        next: 10,
    },
    Case {
        text: b"C\t6\t2\n",
        code: 0,
        field: 0,
        next: 6,
    },
    Case {
        text: b"F\t2014\t100\n",
        code: 0,
        field: 0,
        next: 11,
    },
    Case {
        text: b"R\n",
        code: 0,
        field: 0,
        next: 2,
    },
    Case {
        text: b"O\n",
        code: 0,
        field: 0,
        next: 2,
    },
    Case {
        text: b"Z\n",
        code: 0,
        field: 0,
        next: 2,
    },
    Case {
        text: b"Z",
        code: 0,
        field: 0,
        next: 1,
    },
    Case {
        text: b"Z\n\n",
        code: 0,
        field: 0,
        next: 2,
    },
    Case {
        text: b"\nZ\n",
        code: 11,
        field: 0,
        next: 1,
    },
    Case {
        text: b"X\n",
        code: 11,
        field: 0,
        next: 2,
    },
    Case {
        text: b"g\t2\tL\t2010\n",
        code: 11,
        field: 0,
        next: 11,
    },
    Case {
        text: b"GG\t2\tL\t2010\n",
        code: 11,
        field: 0,
        next: 12,
    },
    Case {
        text: b"ZZ\n",
        code: 11,
        field: 0,
        next: 3,
    },
    Case {
        text: b" Z\n",
        code: 11,
        field: 0,
        next: 3,
    },
    Case {
        text: b"Z \n",
        code: 11,
        field: 0,
        next: 3,
    },
    Case {
        text: b"Z\r\n",
        code: 11,
        field: 0,
        next: 3,
    },
    Case {
        text: b"\r\n",
        code: 11,
        field: 0,
        next: 2,
    },
    Case {
        text: b"\x00\n",
        code: 11,
        field: 0,
        next: 2,
    },
    Case {
        text: b"\xff\n",
        code: 11,
        field: 0,
        next: 2,
    },
    Case {
        text: b"Z\x00\n",
        code: 11,
        field: 0,
        next: 3,
    },
    Case {
        text: b"Z\xff\n",
        code: 11,
        field: 0,
        next: 3,
    },
    Case {
        text: b"1\n",
        code: 11,
        field: 0,
        next: 2,
    },
    Case {
        text: b"\tG\t2\tL\t2010\n",
        code: 11,
        field: 0,
        next: 12,
    },
    Case {
        text: b"G\n",
        code: 12,
        field: 0,
        next: 2,
    },
    Case {
        text: b"G\t2\tL\n",
        code: 12,
        field: 0,
        next: 6,
    },
    Case {
        text: b"G\t2\tL\t2010\t\n",
        code: 12,
        field: 0,
        next: 12,
    },
    Case {
        text: b"G\t2\tL\t2010\t1\n",
        code: 12,
        field: 0,
        next: 13,
    },
    Case {
        text: b"G\t2\t\tL\t2010\n",
        code: 12,
        field: 0,
        next: 12,
    },
    Case {
        text: b"R\t\n",
        code: 12,
        field: 0,
        next: 3,
    },
    Case {
        text: b"O\tB\n",
        code: 12,
        field: 0,
        next: 4,
    },
    Case {
        text: b"Z\t\n",
        code: 12,
        field: 0,
        next: 3,
    },
    Case {
        text: b"N\tB\t7\t2012\n",
        code: 12,
        field: 0,
        next: 11,
    },
    Case {
        text: b"N\tB\t7\t2012\t300\t\n",
        code: 12,
        field: 0,
        next: 16,
    },
    Case {
        text: b"N B 7 2012 300\n",
        code: 11,
        field: 0,
        next: 15,
    },
    Case {
        text: b"M\tB\t5\t800\t1\n",
        code: 12,
        field: 0,
        next: 12,
    },
    Case {
        text: b"C\t6\n",
        code: 12,
        field: 0,
        next: 4,
    },
    Case {
        text: b"C\t6\t2\t3\n",
        code: 12,
        field: 0,
        next: 8,
    },
    Case {
        text: b"F\t\t2014\t100\n",
        code: 12,
        field: 0,
        next: 12,
    },
    Case {
        text: b"T\tB\t9\t2015\n",
        code: 12,
        field: 0,
        next: 11,
    },
    Case {
        text: b"G\t02\tL\t2010\n",
        code: 13,
        field: 2,
        next: 12,
    },
    Case {
        text: b"G\t2\tL\t00\n",
        code: 13,
        field: 4,
        next: 9,
    },
    Case {
        text: b"G\t2\tl\t2010\n",
        code: 14,
        field: 3,
        next: 11,
    },
    Case {
        text: b"G\t2\tLL\t2010\n",
        code: 14,
        field: 3,
        next: 12,
    },
    Case {
        text: b"G\t2\t\t2010\n",
        code: 14,
        field: 3,
        next: 10,
    },
    Case {
        text: b"G\t\tL\t2010\n",
        code: 13,
        field: 2,
        next: 10,
    },
    Case {
        text: b"G\tx\tx\tx\n",
        code: 13,
        field: 2,
        next: 8,
    },
    Case {
        text: b"G\t2\tx\tx\n",
        code: 14,
        field: 3,
        next: 8,
    },
    Case {
        text: b"G\t2\tB\t2010\n",
        code: 14,
        field: 3,
        next: 11,
    },
    Case {
        text: b"N\tL\t7\t2012\t300\n",
        code: 14,
        field: 2,
        next: 15,
    },
    Case {
        text: b"N\tb\t7\t2012\t300\n",
        code: 14,
        field: 2,
        next: 15,
    },
    Case {
        text: b"N\t\t7\t2012\t300\n",
        code: 14,
        field: 2,
        next: 14,
    },
    Case {
        text: b"N\tBS\t7\t2012\t300\n",
        code: 14,
        field: 2,
        next: 16,
    },
    Case {
        text: b"N\tB\t+5\t2012\t300\n",
        code: 13,
        field: 3,
        next: 16,
    },
    Case {
        text: b"N\tB\t-5\t2012\t300\n",
        code: 13,
        field: 3,
        next: 16,
    },
    Case {
        text: b"N\tB\t7\t 2012\t300\n",
        code: 13,
        field: 4,
        next: 16,
    },
    Case {
        text: b"N\tB\t7\t2012 \t300\n",
        code: 13,
        field: 4,
        next: 16,
    },
    Case {
        text: b"N\tB\t7\t2012\t300\r\n",
        code: 13,
        field: 5,
        next: 16,
    },
    Case {
        text: b"N\tB\t7\t2012\t12345678\n",
        code: 13,
        field: 5,
        next: 20,
    },
    Case {
        text: b"N\tB\t7\t2012\t01\n",
        code: 13,
        field: 5,
        next: 14,
    },
    Case {
        text: b"N\tB\t7\t\t300\n",
        code: 13,
        field: 4,
        next: 11,
    },
    Case {
        text: b"N\tB\t7\t20.12\t300\n",
        code: 13,
        field: 4,
        next: 16,
    },
    Case {
        text: b"I\tB\t7\t2012\t3e2\n",
        code: 13,
        field: 5,
        next: 15,
    },
    Case {
        text: b"T\tQ\t7\tx\t300\n",
        code: 14,
        field: 2,
        next: 12,
    },
    Case {
        text: b"T\tS\t7\tx\ty\n",
        code: 13,
        field: 4,
        next: 10,
    },
    Case {
        text: b"M\tB\t\t800\n",
        code: 13,
        field: 3,
        next: 9,
    },
    Case {
        text: b"M\tB\t5\t8\x000\n",
        code: 13,
        field: 4,
        next: 10,
    },
    Case {
        text: b"M\t5\tB\t800\n",
        code: 14,
        field: 2,
        next: 10,
    },
    Case {
        text: b"C\t6\t00\n",
        code: 13,
        field: 3,
        next: 7,
    },
    Case {
        text: b"C\t:\t2\n",
        code: 13,
        field: 2,
        next: 6,
    },
    Case {
        text: b"C\t/\t2\n",
        code: 13,
        field: 2,
        next: 6,
    },
    Case {
        text: b"F\t10000000\t100\n",
        code: 13,
        field: 2,
        next: 15,
    },
    Case {
        text: b"F\t9999999\t0\n",
        code: 0,
        field: 0,
        next: 12,
    },
    Case {
        text: b"F\t2014\t\xff\n",
        code: 13,
        field: 3,
        next: 9,
    },
    Case {
        text: b"F\t0\t09\n",
        code: 13,
        field: 3,
        next: 7,
    },
];

// A record that was read writes its own line again.
fn check_written(rt: &impl Abort, record: Record, text: &[u8]) -> Result<(), Fail> {
    let mut buffer = [7u8; 40];
    let Ok(n) = write_line(record, &mut buffer) else {
        return Err(Fail::new("not written"));
    };
    assert!(rt; 1 <= n && n <= 40 && n - 1 <= text.len());
    assert_eq!(rt; &buffer[0..n - 1], &text[0..n - 1]);
    assert_eq!(rt; buffer[n - 1], b'\n');
    Ok(())
}

fn check_case(rt: &impl Abort, case: Case) -> Result<(), Fail> {
    match read_line(case.text) {
        Ok(read) => {
            assert_eq!(rt; case.code, 0);
            assert!(rt; read.rest.len() <= case.text.len());
            assert_eq!(rt; case.text.len() - read.rest.len(), case.next);
            check_written(rt, read.record, case.text)
        }
        Err(fault) => {
            assert_eq!(rt; fault.cause.code(), case.code);
            assert_eq!(rt; fault.field, case.field);
            assert_eq!(rt; fault.next, case.next);
            Ok(())
        }
    }
}

#[test]
fn table_of_lines(rt: HostRuntime) -> Result<(), Fail> {
    for case in CASES {
        check_case(&rt, case)?;
    }
    Ok(())
}

#[test]
fn refused_writes(rt: HostRuntime) {
    let cancel = Record::Cancel {
        member: 6,
        number: 2,
    };
    let mut buffer = [7u8; 8];
    assert_eq!(rt;
        write_line(
            Record::Cancel {
                member: 6,
                number: 10_000_000,
            },
            &mut buffer,
        ),
        Err(Refusal::NumberTooLarge)
    );
    assert_eq!(rt;
        write_line(cancel, &mut buffer[0..5]),
        Err(Refusal::BufferTooShort)
    );
    assert_eq!(rt; buffer, [7; 8]);
    assert_eq!(rt; write_line(cancel, &mut buffer[0..6]), Ok(6));
    assert_eq!(rt; buffer, *b"C\t6\t2\n\x07\x07");
}
