ghost use Rattle.std.specs.Prelude.{◌≤◌, OnErr, IsErrOf};
ghost use Rattle.host_io.specs.Cause.{Rose};

use host_io::{
    Failed, MemSink, MemSource, Memory, NeverSink, NeverSource, Sink, SinkError, Source, Status,
    StdNotes, StdSink, StdSource,
};
use std::alloc::Global;
use std::process::Abort;
use std::test::Fail;

// What reads give one after the other, each into a fresh buffer of `room` bytes.
fn gives<S: Source>(rt: &impl Abort, source: &mut S, room: usize, wants: &[Result<&str, Failed>])
    requires { room ≤ 8 }
{
    for (turn, want) in wants.iter().enumerate() {
        let mut buffer = [0; 8];
        let outcome = source.read(&mut buffer[..room]);
        match (outcome, want) {
            (Ok(count), Ok(text)) => {
                assert_eq!(rt; &buffer[..count], text.as_bytes(), "at turn {turn}");
            }
            (Err(Failed), Err(Failed)) => {}
            (outcome, _) => assert!(rt; false, "{outcome:?} at turn {turn}"),
        }
    }
}

// What writes answer one after the other.
fn takes<K: Sink>(rt: &impl Abort, sink: &mut K, turns: &[(&str, Result<usize, SinkError>)]) {
    for (piece, want) in turns {
        assert_eq!(rt; sink.write(piece.as_bytes()), *want, "at {piece}");
    }
}

fn letters(alloc: Global) -> Result<Vec<u8>, Memory> {
    Ok(b"abcde".to_vec(alloc)?)
}

// One call that fails.
fn failing(alloc: Global, call: u64) -> Result<Vec<u64>, Memory> {
    let mut calls = Vec::new(alloc);
    calls.push(call)?;
    Ok(calls)
}

#[test]
fn memory_gives_pieces(rt: HostRuntime) -> Result<(), Fail> {
    for (piece, room, wants) in [
        (2, 8, [Ok("ab"), Ok("cd"), Ok("e"), Ok(""), Ok("")]),
        (2, 2, [Ok("ab"), Ok("cd"), Ok("e"), Ok(""), Ok("")]),
        (3, 1, [Ok("a"), Ok("b"), Ok("c"), Ok("d"), Ok("e")]),
        (8, 3, [Ok("abc"), Ok("de"), Ok(""), Ok(""), Ok("")]),
        (5, 8, [Ok("abcde"), Ok(""), Ok(""), Ok(""), Ok("")]),
        (2, 0, [Ok(""), Ok(""), Ok(""), Ok(""), Ok("")]),
    ] {
        let mut source = MemSource::new(letters(rt.alloc())?, piece, Vec::new(rt.alloc()));
        gives(&rt, &mut source, room, &wants);
        let mut source = NeverSource::new(letters(rt.alloc())?, piece);
        gives(&rt, &mut source, room, &wants);
    }
    Ok(())
}

#[test]
fn memory_loses_nothing_where_it_fails(rt: HostRuntime) -> Result<(), Fail> {
    let no = Err(Failed);
    for (call, wants) in [
        (0, [no, Ok("ab"), Ok("cd"), Ok("e"), Ok("")]),
        (1, [Ok("ab"), no, Ok("cd"), Ok("e"), Ok("")]),
        (3, [Ok("ab"), Ok("cd"), Ok("e"), no, Ok("")]),
        (5, [Ok("ab"), Ok("cd"), Ok("e"), Ok(""), Ok("")]),
    ] {
        let mut source = MemSource::new(letters(rt.alloc())?, 2, failing(rt.alloc(), call)?);
        gives(&rt, &mut source, 8, &wants);
    }
    // An empty buffer takes nothing of what is left.
    let mut source = MemSource::new(letters(rt.alloc())?, 2, failing(rt.alloc(), 1)?);
    gives(&rt, &mut source, 0, &[Ok(""), no, Ok("")]);
    gives(&rt, &mut source, 8, &[Ok("ab"), Ok("cd"), Ok("e"), Ok("")]);
    Ok(())
}

#[test]
fn memory_takes_pieces(rt: HostRuntime) -> Result<(), Fail> {
    let turns = [("abcde", Ok(3)), ("de", Ok(2)), ("", Ok(0)), ("fgh", Ok(3))];
    let mut sink = MemSink::new(rt.alloc(), 3, Vec::new(rt.alloc()));
    assert_eq!(rt; sink.bytes(), b"".as_slice());
    takes(&rt, &mut sink, &turns);
    assert_eq!(rt; sink.bytes(), b"abcdefgh".as_slice());
    let mut sink = NeverSink::new(rt.alloc(), 3);
    assert_eq!(rt; sink.bytes(), b"".as_slice());
    takes(&rt, &mut sink, &turns);
    assert_eq!(rt; sink.bytes(), b"abcdefgh".as_slice());
    Ok(())
}

#[test]
fn memory_takes_nothing_where_it_fails(rt: HostRuntime) -> Result<(), Fail> {
    let mut sink = MemSink::new(rt.alloc(), 3, failing(rt.alloc(), 0)?);
    takes(&rt, &mut sink, &[("abcde", Err(SinkError::Failed))]);
    assert_eq!(rt; sink.bytes(), b"".as_slice());
    takes(&rt, &mut sink, &[("abcde", Ok(3)), ("de", Ok(2))]);
    assert_eq!(rt; sink.bytes(), b"abcde".as_slice());
    Ok(())
}

// Reads twice: a failure of either comes only where the source's count rose.
fn read_twice<S: Source>(source: &mut S, into: &mut [u8]) -> Result<usize, Failed>
    ensures { OnErr result (Rose (S.faults source.old) (S.faults source.new)) }
{
    source.read(into)?;
    source.read(into)
}

// So none comes from a source whose count is the constant 0.
fn read_twice_of_never(source: &mut NeverSource, into: &mut [u8]) -> usize {
    match read_twice(source, into) {
        Ok(count) => count,
        Err(Failed) => unreachable!(),
    }
}

// Writes once: a failure comes only where the sink's count rose.
fn write_once<K: Sink>(sink: &mut K, piece: &[u8]) -> Result<usize, SinkError>
    ensures { IsErrOf result SinkError.Failed → Rose (K.faults sink.old) (K.faults sink.new) }
{
    sink.write(piece)
}

// So a sink whose count is the constant 0 may only want memory.
fn write_once_of_never(sink: &mut NeverSink, piece: &[u8]) -> Result<usize, Memory> {
    match write_once(sink, piece) {
        Ok(count) => Ok(count),
        Err(SinkError::Failed) => unreachable!(),
        Err(SinkError::Memory) => Err(Memory),
    }
}

#[test]
fn never_fails(rt: HostRuntime) -> Result<(), Fail> {
    let mut source = NeverSource::new(letters(rt.alloc())?, 4);
    let mut into = [0; 8];
    assert_eq!(rt; read_twice_of_never(&mut source, &mut into), 1);
    assert_eq!(rt; into[0], b'e');
    match source.read(&mut into) {
        Ok(count) => assert_eq!(rt; count, 0),
        Err(Failed) => unreachable!(),
    }
    let mut sink = NeverSink::new(rt.alloc(), 4);
    assert_eq!(rt; write_once_of_never(&mut sink, b"abcde")?, 4);
    assert_eq!(rt; sink.bytes(), b"abcd".as_slice());
    Ok(())
}

#[test]
fn standard_streams_answer(rt: HostRuntime) -> Result<(), Fail> {
    let mut source = StdSource::new(rt.stdin());
    let mut into = [0; 4];
    for _ in 0..2 {
        assert!(rt; source.read(&mut into)? <= 4);
    }
    let mut sink = StdSink::new(rt.stdout());
    takes(&rt, &mut sink, &[("to output\n", Ok(10)), ("", Ok(0))]);
    let mut notes = StdNotes::new(rt.stderr());
    takes(&rt, &mut notes, &[("to error\n", Ok(9)), ("", Ok(0))]);
    Ok(())
}

#[test]
fn statuses_have_numbers(rt: HostRuntime) {
    for (status, number) in [
        (Status::Ok, 0),
        (Status::Words, 2),
        (Status::Project, 3),
        (Status::Clip, 4),
        (Status::ReadFault, 5),
        (Status::WriteFault, 6),
        (Status::Memory, 7),
        (Status::ClipFault, 8),
        (Status::Span, 9),
        (Status::ProjectTooLong, 10),
    ] {
        assert_eq!(rt; status.number(), number, "at {status:?}");
    }
}

#[test]
fn causes_have_texts(rt: HostRuntime) -> Result<(), Fail> {
    for (text, want) in [
        (format!(in rt.alloc(); "{}", Memory)?, "out of memory"),
        (format!(in rt.alloc(); "{}", Failed)?, "the outside failed"),
        (
            format!(in rt.alloc(); "{}", SinkError::Failed)?,
            "the outside failed",
        ),
        (
            format!(in rt.alloc(); "{}", SinkError::Memory)?,
            "out of memory",
        ),
    ] {
        assert_eq!(rt; text.as_str(), want);
    }
    Ok(())
}
