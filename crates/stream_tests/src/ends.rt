// Sources and sinks over fakes.
use crate::fakes::{Broken, Narrow, Pieces, Signalled, Stuck};
use std::io;
use std::io::ErrorKind;
use std::test::Fail;
use streams::buffered::Buffered;
use streams::fill::fill;
use streams::kept::Kept;
use streams::sink::Sink;
use streams::source::Source;

fn kind_of(answer: io::Result<()>) -> Option<ErrorKind> {
    match answer {
        Ok(()) => None,
        Err(error) => Some(error.kind()),
    }
}

#[test]
fn pieces_of_one_byte_fill_a_buffer(rt: HostRuntime) {
    let mut source = Kept::new(Pieces::new(b"one two", 1));
    let mut buffer = [7; 5];
    assert_eq!(rt; fill(&mut source, &mut buffer), 5);
    assert_eq!(rt; buffer, *b"one t");
    assert_eq!(rt; fill(&mut source, &mut buffer), 2);
    assert_eq!(rt; &buffer[..2], b"wo".as_slice());
    assert_eq!(rt; fill(&mut source, &mut buffer), 0);
    assert_eq!(rt; kind_of(source.check()), None);
}

#[test]
fn a_reader_that_fails_reads_no_more(rt: HostRuntime) {
    let mut source = Kept::new(Pieces::failing(b"one", 2));
    let mut buffer = [7; 5];
    assert_eq!(rt; fill(&mut source, &mut buffer), 3);
    assert_eq!(rt; kind_of(source.check()), Some(ErrorKind::ConnectionReset));
    assert_eq!(rt; kind_of(source.check()), Some(ErrorKind::Other));
    assert_eq!(rt; source.read(&mut buffer), 0);
    assert_eq!(rt; fill(&mut source, &mut buffer), 0);
    assert_eq!(rt; kind_of(source.check()), Some(ErrorKind::Other));
}

#[test]
fn a_thousand_interruptions_are_no_failure(rt: HostRuntime) {
    let interruptions = 1_000;
    let mut source = Kept::new(Signalled { interruptions });
    let mut buffer = [7; 3];
    assert_eq!(rt; source.read(&mut buffer), 3);
    assert_eq!(rt; buffer, *b"xxx");
    assert_eq!(rt; kind_of(source.check()), None);
    let mut sink = Kept::new(Signalled { interruptions });
    sink.put(b"one");
    sink.finish();
    assert_eq!(rt; kind_of(sink.check()), None);
}

#[test]
fn a_short_writer_gets_all(rt: HostRuntime) {
    let mut taken: Vec<u8> = Vec::new(rt.alloc());
    let mut sink = Kept::new(Narrow::new(&mut taken, 3));
    sink.put(b"one two");
    sink.put(b"");
    sink.put(b"!");
    sink.finish();
    assert_eq!(rt; kind_of(sink.check()), None);
    assert_eq!(rt; taken.as_slice(), b"one two!".as_slice());
}

#[test]
fn a_writer_that_failed_gets_no_more(rt: HostRuntime) {
    let mut taken: Vec<u8> = Vec::new(rt.alloc());
    let failure = Some(ErrorKind::BrokenPipe);
    let mut sink = Kept::new(Narrow::failing(&mut taken, 3, 4, failure));
    sink.put(b"one two");
    sink.put(b"three");
    sink.finish();
    assert_eq!(rt; kind_of(sink.check()), failure);
    assert_eq!(rt; kind_of(sink.check()), Some(ErrorKind::Other));
    assert_eq!(rt; taken.as_slice(), b"one ".as_slice());
}

#[test]
fn a_writer_that_takes_nothing_has_failed(rt: HostRuntime) {
    let mut taken: Vec<u8> = Vec::new(rt.alloc());
    let mut sink = Kept::new(Narrow::failing(&mut taken, 3, 4, None));
    sink.put(b"one two");
    assert_eq!(rt; kind_of(sink.check()), Some(ErrorKind::WriteZero));
    assert_eq!(rt; taken.as_slice(), b"one ".as_slice());
}

#[test]
fn what_is_not_passed_on_has_failed(rt: HostRuntime) {
    let mut sink = Kept::new(Stuck);
    sink.put(b"one");
    assert_eq!(rt; kind_of(sink.check()), None);
    sink.finish();
    assert_eq!(rt; kind_of(sink.check()), Some(ErrorKind::BrokenPipe));
}

#[test]
fn the_first_error_is_kept(rt: HostRuntime) {
    let mut sink = Kept::new(Broken);
    sink.put(b"one");
    sink.finish();
    assert_eq!(rt; kind_of(sink.check()), Some(ErrorKind::BrokenPipe));
}

// Some pieces by way of so much room.
fn put_by_way(room: &mut [u8], taken: &mut Vec<u8>) {
    let mut sink = Buffered::new(room, Kept::new(Narrow::new(taken, 2)));
    sink.put(b"a");
    sink.put(b"bcd");
    sink.put(b"");
    sink.finish();
    sink.put(b"efghij");
    sink.put(b"k");
    sink.finish();
}

#[test]
fn any_room_will_do(rt: HostRuntime) -> Result<(), Fail> {
    for size in [0, 1, 2, 3, 4, 5, 6, 7, 64] {
        let mut room = [0; 64];
        let mut taken: Vec<u8> = Vec::new(rt.alloc());
        put_by_way(&mut room[..size], &mut taken);
        assert_eq!(rt; taken.as_slice(), b"abcdefghijk".as_slice());
    }
    Ok(())
}

#[test]
fn what_waits_has_not_arrived(rt: HostRuntime) {
    let mut taken: Vec<u8> = Vec::new(rt.alloc());
    let mut room = [0; 4];
    {
        let mut sink = Buffered::new(&mut room, Kept::new(Narrow::new(&mut taken, 2)));
        sink.put(b"one");
        sink.put(b"tw");
    }
    assert_eq!(rt; taken.as_slice(), b"one".as_slice());
}
