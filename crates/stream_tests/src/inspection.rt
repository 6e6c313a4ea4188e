// A day file shown by way of fakes, as the program shows one.
use crate::fakes::{Narrow, Pieces};
use std::io;
use std::io::ErrorKind;
use std::test::Fail;
use streams::kept::Kept;
use text::inspection::inspect_stream;

const DAY: &[u8] = b"\nO\nX\nC\t6\t2";

const SHOWN: &[u8] = b"!\t1\tT\t11\t0\nO\n!\t3\tT\t11\t0\nC\t6\t2\n#\t2\t2\n";

const TOO_LONG: &[u8] = b"!\t0\tT\t17\t0\n";

fn shown(source: Pieces<'_>, sink: Narrow<'_>) -> io::Result<()> {
    inspect_stream(&mut Kept::new(source), &mut Kept::new(sink))
}

#[test]
fn pieces_of_any_size(rt: HostRuntime) -> Result<(), Fail> {
    for piece in [1, 2, 3, 100] {
        let mut taken: Vec<u8> = Vec::new(rt.alloc());
        shown(Pieces::new(DAY, piece), Narrow::new(&mut taken, piece))?;
        assert_eq!(rt; taken.as_slice(), SHOWN);
    }
    Ok(())
}

#[test]
fn an_empty_input(rt: HostRuntime) -> Result<(), Fail> {
    let mut taken: Vec<u8> = Vec::new(rt.alloc());
    shown(Pieces::new(b"", 1), Narrow::new(&mut taken, 1))?;
    assert!(rt; taken.is_empty());
    Ok(())
}

#[test]
fn a_reader_that_fails(rt: HostRuntime) {
    let mut taken: Vec<u8> = Vec::new(rt.alloc());
    let answer = shown(Pieces::failing(DAY, 4), Narrow::new(&mut taken, 100));
    match answer {
        Ok(()) => assert!(rt; false),
        Err(error) => assert_eq!(rt; error.kind(), ErrorKind::ConnectionReset),
    }
    assert!(rt; taken.is_empty());
}

#[test]
fn a_writer_that_fails(rt: HostRuntime) -> Result<(), Fail> {
    for room in [0, 1, 11, SHOWN.len() - 1] {
        let mut taken: Vec<u8> = Vec::new(rt.alloc());
        let sink = Narrow::failing(&mut taken, 3, room, Some(ErrorKind::StorageFull));
        match shown(Pieces::new(DAY, 100), sink) {
            Ok(()) => assert!(rt; false),
            Err(error) => assert_eq!(rt; error.kind(), ErrorKind::StorageFull),
        }
        assert_eq!(rt; taken.as_slice(), &SHOWN[..room]);
    }
    Ok(())
}

// So many bytes of lines `R`, the last of them without an end if the number is odd.
fn resumes(rt: &HostRuntime, size: usize) -> Result<Vec<u8>, Fail> {
    let mut text: Vec<u8> = Vec::new(rt.alloc());
    for i in 0..size {
        text.push(if i % 2 == 0 { b'R' } else { b'\n' })?;
    }
    Ok(text)
}

#[test]
fn the_longest_input(rt: HostRuntime) -> Result<(), Fail> {
    let text = resumes(&rt, 32_768)?;
    let mut taken: Vec<u8> = Vec::new(rt.alloc());
    shown(
        Pieces::new(text.as_slice(), 1_000),
        Narrow::new(&mut taken, 5_000),
    )?;
    let mut expected = resumes(&rt, 32_768)?;
    expected.extend_from_slice(b"#\t16384\t0\n")?;
    assert_eq!(rt; taken.as_slice(), expected.as_slice());
    Ok(())
}

#[test]
fn one_byte_too_many(rt: HostRuntime) -> Result<(), Fail> {
    let text = resumes(&rt, 32_769)?;
    let mut taken: Vec<u8> = Vec::new(rt.alloc());
    shown(
        Pieces::new(text.as_slice(), 1_000),
        Narrow::new(&mut taken, 5_000),
    )?;
    assert_eq!(rt; taken.as_slice(), TOO_LONG);
    Ok(())
}
