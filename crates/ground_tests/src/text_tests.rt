// The worked rows of input and output, and each public call once.
use fs_model::{Reply, Request, Value};
use fs_text::{
    Input, InputError, Line, LoadTally, MemSink, MemSource, OutError, Pair, PlacedEntry, Sink,
    Source, StdSink, StdSource, SteadySink, SteadySource, parse_input, read_input, write_entries,
    write_pairs, write_replies, write_tally,
};
use log_entry::entry::{Body, Entry};
use std::alloc::{AllocError, Global};
use std::io;
use std::io::Write;
use std::test::Fail;

fn value(alloc: Global, text: &str) -> Result<Value, AllocError> {
    Ok(Value::of(Vec::from_slice(alloc, text.as_bytes())?))
}

fn bytes(alloc: Global, text: &str) -> Result<Vec<u8>, AllocError> {
    Vec::from_slice(alloc, text.as_bytes())
}

fn fault(outcome: Result<Input, InputError>) -> Option<InputError> {
    match outcome {
        Ok(_) => None,
        Err(error) => Some(error),
    }
}

// A line as a text, for comparing.
fn show(alloc: Global, line: &Line) -> Result<String, AllocError> {
    match line {
        Line::Ask(Request::Put { key, value }) => {
            format!(in alloc; "put {} {:?}", *key, value.bytes())
        }
        Line::Ask(Request::Get { key }) => format!(in alloc; "get {}", *key),
        Line::Ask(Request::Delete { key }) => format!(in alloc; "delete {}", *key),
        Line::Go { core, turns } => format!(in alloc; "go {} {}", *core, *turns),
    }
}

fn text_of_lines(alloc: Global, input: &Input) -> Result<String, AllocError> {
    let mut text = String::new(alloc);
    for line in input.lines() {
        text.push_str(show(alloc, line)?.as_str())?;
        text.push_str(" / ")?;
    }
    Ok(text)
}

// Whether the lines of a source are these, and how often it failed.
fn reads_as(alloc: Global, text: &str, cores: u32, lines: &str) -> Result<(bool, u64), Fail> {
    let mut source = SteadySource::new(bytes(alloc, text)?, 3);
    let input = read_input(alloc, &mut source, cores)?;
    let found = text_of_lines(alloc, &input)?;
    Ok((found.as_str() == lines, source.faults()))
}

#[test]
fn good_inputs(rt: HostRuntime) -> Result<(), Fail> {
    let table = [
        ("", 1, ""),
        (
            "put 5 abc\nget 5\ndelete 5\nget 5\n",
            1,
            "put 5 [97, 98, 99] / get 5 / delete 5 / get 5 / ",
        ),
        ("put 5 \nget 5", 1, "put 5 [] / get 5 / "),
        ("put 0  \r\n", 1, "put 0 [32, 13] / "),
        ("go 1\ngo 0 20\n", 2, "go 1 1 / go 0 20 / "),
        (
            "put 18446744073709551615 m\nget 18446744073709551615\n",
            1,
            "put 18446744073709551615 [109] / get 18446744073709551615 / ",
        ),
    ];
    for (text, cores, lines) in table {
        let read = reads_as(rt.alloc(), text, cores, lines)?;
        assert_eq!(rt; read, (true, 0), "of {text}");
    }
    Ok(())
}

#[test]
fn bad_inputs(rt: HostRuntime) -> Result<(), Fail> {
    let alloc = rt.alloc();
    let table = [
        ("put 5", 1, 1, 4),
        ("put\n", 1, 1, 4),
        ("put  5\n", 1, 1, 5),
        ("get 5 \n", 1, 1, 4),
        ("get \n", 1, 1, 5),
        ("get 18446744073709551616\n", 1, 1, 5),
        ("get 007\n", 1, 1, 5),
        ("get -1\n", 1, 1, 5),
        ("get 5\r\n", 1, 1, 5),
        ("Get 5\n", 1, 1, 3),
        ("\nget 1\n", 1, 1, 3),
        ("go 0 0\n", 1, 1, 7),
        ("go 0 1000001\n", 1, 1, 7),
        ("go 00\n", 1, 1, 6),
        ("go \n", 1, 1, 6),
        ("go 1 1\n", 1, 1, 6),
        ("go 9 1 2\n", 1, 1, 4),
        ("get 1\nput 2 b\nget x\nGet 4", 1, 3, 5),
    ];
    for (text, cores, line, rule) in table {
        let outcome = parse_input(alloc, text.as_bytes(), cores);
        assert_eq!(rt; fault(outcome), Some(InputError::BadInput { line, rule }));
    }
    Ok(())
}

// 64 lines of a mebibyte each are as many bytes as an input may have.
fn largest_text(alloc: Global) -> Result<Vec<u8>, AllocError> {
    let mut line = bytes(alloc, "put 1 ")?;
    line.resize(1_048_575, b'x')?;
    line.push(b'\n')?;
    let mut text = Vec::new(alloc);
    for _ in 0..64 {
        text.extend_from_slice(&line)?;
    }
    Ok(text)
}

// What is said of the largest input, and of the same with two lines behind it.
fn faults_of_largest(
    alloc: Global,
) -> Result<(Option<InputError>, Option<InputError>), AllocError> {
    let mut text = largest_text(alloc)?;
    let largest = fault(parse_input(alloc, &text, 1));
    text.extend_from_slice(b"get 1\nget 2\n")?;
    let mut source = SteadySource::new(text, 1_000_000);
    Ok((largest, fault(read_input(alloc, &mut source, 1))))
}

fn fault_of_long_line(alloc: Global) -> Result<Option<InputError>, AllocError> {
    let mut long = Vec::new(alloc);
    long.resize(1_048_641, b'x')?;
    Ok(fault(parse_input(alloc, &long, 1)))
}

fn bad_line(line: u64, rule: u32) -> Option<InputError> {
    Some(InputError::BadInput { line, rule })
}

#[test]
fn largest_input(rt: HostRuntime) -> Result<(), Fail> {
    let alloc = rt.alloc();
    assert_eq!(rt; faults_of_largest(alloc)?, (None, bad_line(65, 1)));
    assert_eq!(rt; fault_of_long_line(alloc)?, bad_line(1, 2));
    Ok(())
}

// What a source answers whose fourth call fails, and how often it failed.
fn fault_of_source(alloc: Global) -> Result<(Option<InputError>, u64), AllocError> {
    let text = bytes(alloc, "put 5 abc\nget 5\nget 6\n")?;
    let mut source = MemSource::new(text, 9, vec![in alloc; 3]?);
    let outcome = read_input(alloc, &mut source, 1);
    Ok((fault(outcome), source.faults()))
}

#[test]
fn source_fails(rt: HostRuntime) -> Result<(), Fail> {
    let found = fault_of_source(rt.alloc())?;
    assert_eq!(rt; found, (Some(InputError::SourceFault), 1));
    Ok(())
}

fn two_replies(alloc: Global) -> Result<[Reply; 2], AllocError> {
    let abc = value(alloc, "abc")?;
    Ok([Reply::Stored, Reply::Value(abc)])
}

// What two replies to a sink that fails at this call come to: the error, whether this text was taken, how often it
// failed.
fn written_until(
    alloc: Global,
    call: u64,
    text: &str,
) -> Result<(Option<OutError>, bool, u64), Fail> {
    let replies = two_replies(alloc)?;
    let mut sink = MemSink::new(alloc, 100, 1, vec![in alloc; call]?)?;
    let outcome = write_replies(alloc, &mut sink, &replies);
    let same = sink.text() == Some(text.as_bytes());
    Ok((outcome.err(), same, sink.faults()))
}

// Whether a sink for 16 bytes tells nothing of the 17.
fn tells_nothing(alloc: Global) -> Result<bool, Fail> {
    let replies = two_replies(alloc)?;
    let mut narrow = SteadySink::new(alloc, 16, 5)?;
    write_replies(alloc, &mut narrow, &replies)?;
    Ok(narrow.text().is_none())
}

#[test]
fn sink_fails(rt: HostRuntime) -> Result<(), Fail> {
    let alloc = rt.alloc();
    // The text has 17 bytes, so call 18 is the flush.
    let table = [
        (11, "stored\nval", Some(OutError::SinkFault), 1),
        (18, "stored\nvalue abc\n", Some(OutError::SinkFault), 1),
        (19, "stored\nvalue abc\n", None, 0),
    ];
    for (call, text, error, faults) in table {
        let found = written_until(alloc, call, text)?;
        assert_eq!(rt; found, (error, true, faults), "at call {call}");
    }
    assert!(rt; tells_nothing(alloc)?);
    Ok(())
}

fn is_text(sink: &SteadySink, text: &str) -> bool {
    sink.text() == Some(text.as_bytes())
}

// Whether one reply of each kind is written as this text.
fn replies_are(alloc: Global, text: &str) -> Result<bool, Fail> {
    let empty = value(alloc, "")?;
    let replies = [
        Reply::Stored,
        Reply::Value(empty),
        Reply::Absent,
        Reply::Deleted,
        Reply::Full,
        Reply::VersionsSpent,
        Reply::TooLong,
        Reply::Stopped,
    ];
    let mut sink = SteadySink::new(alloc, 1_000, 7)?;
    write_replies(alloc, &mut sink, &replies)?;
    Ok(is_text(&sink, text))
}

// Whether a pair of key 5 and the value `de` is written as this text.
fn pair_is(alloc: Global, text: &str) -> Result<bool, Fail> {
    let pairs = [Pair {
        key: 5,
        value: value(alloc, "de")?,
    }];
    let mut sink = SteadySink::new(alloc, 1_000, 1_000)?;
    write_pairs(alloc, &mut sink, &pairs)?;
    Ok(is_text(&sink, text))
}

#[test]
fn texts(rt: HostRuntime) -> Result<(), Fail> {
    let text = "stored\nvalue \nabsent\ndeleted\nfull\nversions spent\ntoo long\nstopped\n";
    assert!(rt; replies_are(rt.alloc(), text)?);
    assert!(rt; pair_is(rt.alloc(), "5 de\n")?);
    Ok(())
}

fn entry_at(place: u64, key: u64, body: Body) -> PlacedEntry {
    let entry = Entry {
        key,
        version: 1,
        body,
    };
    PlacedEntry {
        core: 0,
        chunk: 1,
        place,
        entry,
    }
}

// Whether an entry of each kind is written as this text.
fn entries_are(alloc: Global, text: &str) -> Result<bool, Fail> {
    let mut long = Vec::new(alloc);
    long.resize(255, b'a')?;
    let entries = [
        entry_at(0, 1, Body::Embedded(Value::of(long))),
        entry_at(34, 2, Body::Pointer(17)),
        entry_at(36, 3, Body::Tombstone),
    ];
    let mut sink = SteadySink::new(alloc, 1_000, 1_000)?;
    write_entries(alloc, &mut sink, &entries)?;
    Ok(is_text(&sink, text))
}

#[test]
fn entries(rt: HostRuntime) -> Result<(), Fail> {
    let text = "core 0 chunk 1 place 0 key 1 version 1 embedded 255\n\
        core 0 chunk 1 place 34 key 2 version 1 block 17\n\
        core 0 chunk 1 place 36 key 3 version 1 delete\n";
    assert!(rt; entries_are(rt.alloc(), text)?);
    Ok(())
}

fn tally_is(alloc: Global, tally: &LoadTally, text: &str) -> Result<bool, Fail> {
    let mut sink = SteadySink::new(alloc, 1_000, 1_000)?;
    write_tally(alloc, &mut sink, tally)?;
    Ok(is_text(&sink, text))
}

#[test]
fn tally(rt: HostRuntime) -> Result<(), Fail> {
    let tally = LoadTally {
        requests: 200_000,
        stored: 100_000,
        value: 47_500,
        absent: 30_000,
        deleted: 22_500,
        refused: 0,
        live: 7_500,
        bytes: 173_099,
    };
    let text = "requests 200000\nstored 100000\nvalue 47500\nabsent 30000\n\
        deleted 22500\nrefused 0\nlive 7500\nbytes 173099\n";
    assert!(rt; tally_is(rt.alloc(), &tally, text)?);
    Ok(())
}

// A writer that takes all, and whose flush fails.
#[derive(Drop)]
struct Unflushed;

impl Write for Unflushed {
    fn write(&mut self, buf: &[u8]) -> io::Result<usize> {
        Ok(buf.len())
    }

    fn flush(&mut self) -> io::Result<()> {
        Err(io::Error::from(io::ErrorKind::BrokenPipe))
    }
}

fn written_unflushed(alloc: Global) -> (Option<OutError>, u64) {
    let mut sink = StdSink::over(Unflushed);
    let outcome = write_replies(alloc, &mut sink, &[Reply::Absent]);
    (outcome.err(), sink.faults())
}

// The flush of a sink is the flush of its writer.
#[test]
fn flushes_the_writer(rt: HostRuntime) -> Result<(), Fail> {
    let found = written_unflushed(rt.alloc());
    assert_eq!(rt; found, (Some(OutError::SinkFault), 1));
    Ok(())
}

// Whether a stream's lines are these, and how many there are.
fn stream_reads_as(alloc: Global, text: &[u8], lines: &str) -> Result<(bool, usize), Fail> {
    let mut source = StdSource::over(text);
    let input = read_input(alloc, &mut source, 1)?;
    let found = text_of_lines(alloc, &input)?;
    Ok((found.as_str() == lines, input.into_lines().len()))
}

// How often a stream failed that took a reply.
fn faults_of_stream(alloc: Global) -> Result<u64, Fail> {
    let mut sink = StdSink::over(Vec::<u8>::new(alloc));
    write_replies(alloc, &mut sink, &[Reply::Absent])?;
    Ok(sink.faults())
}

#[test]
fn std_streams(rt: HostRuntime) -> Result<(), Fail> {
    let text = b"put 5 abc\nget 5\n".as_slice();
    let read = stream_reads_as(rt.alloc(), text, "put 5 [97, 98, 99] / get 5 / ")?;
    assert_eq!(rt; read, (true, 2));
    assert_eq!(rt; faults_of_stream(rt.alloc())?, 0);
    Ok(())
}
