//! Readers and writers of few octets a call, that are interrupted or fail, and a writer that holds octets back until it is flushed. Long
//! texts go through them too. What comes out of a whole stream is shown by the crate `worked_examples`.

use sched_box::{
    DeviceReader, DeviceWriter, Recorder, ServeFault, ServeReport, StreamFault, serve_stream,
};
use std::alloc::{AllocError, Global};
use std::io::{self, ErrorKind, Read, Write};
use std::process::Abort;
use std::test::Fail;

const STREAM: &str =
    "now 20250102T000000Z\nroom mailto:r1@example.com\n\nBEGIN:VCALENDAR\r\nVERSION:2.0\r\nMETHOD:REQUEST\r\n\
    BEGIN:VEVENT\r\nUID:a\r\nDTSTAMP:20250101T000000Z\r\nORGANIZER:mailto:ann@example.com\r\n\
    ATTENDEE:mailto:r1@example.com\r\nDTSTART:20250310T090000Z\r\nDURATION:PT1H\r\nEND:VEVENT\r\nEND:VCALENDAR\r\n\
    BEGIN:VCALENDAR\r\nVERSION:2.0\r\nMETHOD:REFRESH\r\nEND:VCALENDAR\r\n";

const ANSWERS: &str =
    "BEGIN:VCALENDAR\r\nVERSION:2.0\r\nPRODID:-//iTIP room box//EN\r\nMETHOD:REPLY\r\nBEGIN:VEVENT\r\n\
    UID:a\r\nSEQUENCE:0\r\nDTSTAMP:20250102T000000Z\r\nORGANIZER:mailto:ann@example.com\r\n\
    ATTENDEE;PARTSTAT=ACCEPTED:mailto:r1@example.com\r\nREQUEST-STATUS:2.0;Success\r\nEND:VEVENT\r\nEND:VCALENDAR\r\n\
    REFUSED;OBJECT=2:66\r\n";

/// The answer to the second object.
const REFUSED: &str = "REFUSED;OBJECT=2:66\r\n";

/// Calls that fail: this many, one after another, from one call on, counted from 1.
#[derive(Clone, Copy)]
struct Failures {
    from: u32,
    count: u32,
    kind: ErrorKind,
    calls: u32,
}

impl Failures {
    fn new(from: u32, count: u32, kind: ErrorKind) -> Failures {
        Failures {
            from,
            count,
            kind,
            calls: 0,
        }
    }

    fn none() -> Failures {
        Failures::new(u32::MAX, 0, ErrorKind::Other)
    }

    /// One more call.
    fn call(&mut self) -> io::Result<()> {
        self.calls = self.calls.saturating_add(1);
        if self.calls >= self.from && self.calls - self.from < self.count {
            return Err(io::Error::from(self.kind));
        }
        Ok(())
    }
}

/// A reader that gives at most this many octets a call.
#[derive(Drop)]
struct SlowReader<'a> {
    left: &'a [u8],
    most: usize,
    failures: Failures,
}

impl Read for SlowReader<'_> {
    fn read(&mut self, buf: &mut [u8]) -> io::Result<usize> {
        self.failures.call()?;
        let count = self.most.min(buf.len()).min(self.left.len());
        let (front, rest) = self.left.split_at(count);
        buf[..count].copy_from_slice(front);
        self.left = rest;
        Ok(count)
    }
}

/// A writer that takes at most this many octets a call, and sends them on when it is flushed. Of a call that fails with WriteZero it takes
/// none.
#[derive(Drop)]
struct SlowWriter {
    held: Vec<u8>,
    sent: Vec<u8>,
    most: usize,
    failures: Failures,
    flushes: Failures,
}

impl Write for SlowWriter {
    fn write(&mut self, buf: &[u8]) -> io::Result<usize> {
        match self.failures.call() {
            Err(error) if error.kind() == ErrorKind::WriteZero => return Ok(0),
            called => called?,
        }
        let count = self.most.min(buf.len());
        self.held.extend_from_slice(&buf[..count])?;
        Ok(count)
    }

    fn flush(&mut self) -> io::Result<()> {
        self.flushes.call()?;
        self.sent.extend_from_slice(self.held.as_slice())?;
        self.held.clear();
        Ok(())
    }
}

/// A stream that is served: the octets of it that a read and a write take at most, the reader's buffer, and which calls fail.
#[derive(Clone, Copy)]
struct Devices {
    read: usize,
    buffer: usize,
    write: usize,
    reads: Failures,
    writes: Failures,
    flushes: Failures,
}

impl Devices {
    fn of_octets(read: usize, buffer: usize, write: usize) -> Devices {
        Devices {
            read,
            buffer,
            write,
            reads: Failures::none(),
            writes: Failures::none(),
            flushes: Failures::none(),
        }
    }

    /// What came of a stream, and what was sent on.
    fn serve(
        self,
        alloc: Global,
        stream: &str,
    ) -> Result<(Result<ServeReport, StreamFault>, DeviceWriter<SlowWriter>), Fail> {
        let slow = SlowReader {
            left: stream.as_bytes(),
            most: self.read,
            failures: self.reads,
        };
        let mut reader = DeviceReader::with_capacity(alloc, self.buffer, slow)?;
        let mut writer = DeviceWriter::new(SlowWriter {
            held: Vec::new(alloc),
            sent: Vec::new(alloc),
            most: self.write,
            failures: self.writes,
            flushes: self.flushes,
        });
        let report = serve_stream(alloc, &mut reader, &mut writer);
        Ok((report, writer))
    }
}

const SERVED: ServeReport = ServeReport {
    objects: 2,
    refused: 1,
};

/// The answer to the first object: all but the line of the refusal.
fn first_answer() -> &'static str {
    ANSWERS.strip_suffix(REFUSED).unwrap_or(ANSWERS)
}

/// How many octets the preamble and the first object have.
const FIRST_END: usize = STREAM.len()
    - "BEGIN:VCALENDAR\r\nVERSION:2.0\r\nMETHOD:REFRESH\r\nEND:VCALENDAR\r\n".len();

/// Serves `STREAM`, and compares what came of it and what was sent on.
fn check<R: AllocGlobal + Abort>(
    rt: &R,
    devices: Devices,
    expected: Result<ServeReport, StreamFault>,
    sent: &[u8],
) -> Result<(), Fail> {
    check_stream(rt, devices, STREAM, expected, sent)
}

/// Serves a stream, and compares what came of it and what was sent on.
fn check_stream<R: AllocGlobal + Abort>(
    rt: &R,
    devices: Devices,
    stream: &str,
    expected: Result<ServeReport, StreamFault>,
    sent: &[u8],
) -> Result<(), Fail> {
    let (report, writer) = devices.serve(rt.alloc(), stream)?;
    assert_eq!(rt; report, expected);
    assert_eq!(rt; writer.get_ref().sent.as_slice(), sent);
    Ok(())
}

#[test]
fn few_octets_and_interrupted_calls_change_nothing(rt: HostRuntime) -> Result<(), Fail> {
    let whole = Devices::of_octets(8_192, 8_192, 8_192);
    let answers = ANSWERS.as_bytes();
    for octets in [1, 2, 3, 7, 64] {
        check(
            &rt,
            Devices::of_octets(octets, 8_192, octets),
            Ok(SERVED),
            answers,
        )?;
        check(
            &rt,
            Devices::of_octets(8_192, octets, 8_192),
            Ok(SERVED),
            answers,
        )?;
    }
    for call in [1, 2] {
        let interrupted = Failures::new(call, 999, ErrorKind::Interrupted);
        check(
            &rt,
            Devices {
                reads: interrupted,
                ..whole
            },
            Ok(SERVED),
            answers,
        )?;
        check(
            &rt,
            Devices {
                writes: interrupted,
                ..whole
            },
            Ok(SERVED),
            answers,
        )?;
        check(
            &rt,
            Devices {
                flushes: interrupted,
                ..whole
            },
            Ok(SERVED),
            answers,
        )?;
    }
    Ok(())
}

#[test]
fn a_device_that_fails_is_named(rt: HostRuntime) -> Result<(), Fail> {
    let whole = Devices::of_octets(8_192, 8_192, 8_192);
    let endless = Failures::new(1, u32::MAX, ErrorKind::Interrupted);
    let first = Failures::new(1, 1, ErrorKind::BrokenPipe);
    let second = Failures::new(2, 1, ErrorKind::BrokenPipe);
    let read = Err(StreamFault::Serve(ServeFault::Read));
    let write = Err(StreamFault::Serve(ServeFault::Write));
    check(
        &rt,
        Devices {
            reads: endless,
            ..whole
        },
        read,
        b"",
    )?;
    check(
        &rt,
        Devices {
            writes: endless,
            ..whole
        },
        write,
        b"",
    )?;
    check(
        &rt,
        Devices {
            flushes: endless,
            ..whole
        },
        write,
        b"",
    )?;
    check(&rt, Devices { write: 0, ..whole }, write, b"")?;
    check(
        &rt,
        Devices {
            writes: Failures::new(1, 1, ErrorKind::WriteZero),
            ..whole
        },
        write,
        b"",
    )?;
    check(
        &rt,
        Devices {
            flushes: first,
            ..whole
        },
        write,
        b"",
    )?;
    check(
        &rt,
        Devices {
            writes: second,
            ..whole
        },
        write,
        first_answer().as_bytes(),
    )?;
    check(
        &rt,
        Devices {
            flushes: second,
            ..whole
        },
        write,
        first_answer().as_bytes(),
    )
}

#[test]
fn a_reader_that_fails_leaves_the_answers_sent(rt: HostRuntime) -> Result<(), Fail> {
    let one = Devices::of_octets(1, 8_192, 8_192);
    let read = Err(StreamFault::Serve(ServeFault::Read));
    for call in 1..=STREAM.len() as u32 + 1 {
        let reads = Failures::new(call, 1, ErrorKind::ConnectionReset);
        // the octet after an object's last line break shows that it has ended
        let sent = if call as usize > FIRST_END + 1 {
            first_answer().as_bytes()
        } else {
            b""
        };
        check(&rt, Devices { reads, ..one }, read, sent)?;
    }
    // the end of the input is read once: a read after it would fail
    let reads = Failures::new(STREAM.len() as u32 + 2, 1, ErrorKind::ConnectionReset);
    check(
        &rt,
        Devices { reads, ..one },
        Ok(SERVED),
        ANSWERS.as_bytes(),
    )?;
    Ok(())
}

/// A reader that gives some octets, then once nothing, and then others, as a terminal does.
#[derive(Drop)]
struct PausingReader<'a> {
    before: &'a [u8],
    after: &'a [u8],
    paused: bool,
}

impl Read for PausingReader<'_> {
    fn read(&mut self, buf: &mut [u8]) -> io::Result<usize> {
        if self.before.is_empty() && !self.paused {
            self.paused = true;
            self.before = self.after;
            return Ok(0);
        }
        let count = buf.len().min(self.before.len());
        let (front, rest) = self.before.split_at(count);
        buf[..count].copy_from_slice(front);
        self.before = rest;
        Ok(count)
    }
}

#[test]
fn a_device_that_goes_on_after_its_end_is_not_read_again(rt: HostRuntime) -> Result<(), Fail> {
    let alloc = rt.alloc();
    let one_more = "BEGIN:VCALENDAR\r\nVERSION:2.0\r\nMETHOD:REFRESH\r\nEND:VCALENDAR\r\n";
    let pausing = PausingReader {
        before: STREAM.as_bytes(),
        after: one_more.as_bytes(),
        paused: false,
    };
    let mut reader = DeviceReader::new(alloc, pausing)?;
    let mut sent = Vec::new(alloc);
    let report = serve_stream(alloc, &mut reader, &mut sent);
    assert_eq!(rt; report, Ok(SERVED));
    assert_eq!(rt; sent.as_slice(), ANSWERS.as_bytes());
    Ok(())
}

#[test]
fn a_recorder_keeps_the_octets_that_were_served(rt: HostRuntime) -> Result<(), Fail> {
    let alloc = rt.alloc();
    for call in [FIRST_END as u32 + 2, u32::MAX] {
        let slow = SlowReader {
            left: STREAM.as_bytes(),
            most: 1,
            failures: Failures::new(call, 1, ErrorKind::ConnectionReset),
        };
        let mut recorder = Recorder::new(alloc, DeviceReader::new(alloc, slow)?);
        let mut sent = Vec::new(alloc);
        let report = serve_stream(alloc, &mut recorder, &mut sent);
        // where a read fails, all that was lent before it was taken
        let (taken, answered) = match report {
            Ok(_) => (STREAM.len(), ANSWERS),
            Err(_) => (FIRST_END + 1, first_answer()),
        };
        assert_eq!(rt; recorder.octets(), &STREAM.as_bytes()[..taken]);
        assert!(rt; !recorder.is_lost());
        assert_eq!(rt; sent.as_slice(), answered.as_bytes());
    }
    Ok(())
}

#[test]
fn a_writer_that_fails_has_taken_a_beginning(rt: HostRuntime) -> Result<(), Fail> {
    let alloc = rt.alloc();
    let one = Devices::of_octets(8_192, 8_192, 1);
    for call in 1..=ANSWERS.len() as u32 {
        let writes = Failures::new(call, 1, ErrorKind::BrokenPipe);
        let (report, writer) = Devices { writes, ..one }.serve(alloc, STREAM)?;
        assert_eq!(rt; report, Err(StreamFault::Serve(ServeFault::Write)));
        let taken = writer.get_ref().sent.len() + writer.get_ref().held.len();
        assert_eq!(rt; taken + 1, call as usize);
        assert!(rt;
            ANSWERS
                .as_bytes()
                .starts_with(writer.get_ref().sent.as_slice())
        );
    }
    Ok(())
}

/// A text in which one is in the place of another.
fn replaced(alloc: Global, text: &str, from: &str, to: &str) -> Result<String, AllocError> {
    let (before, after) = text.split_once(from).unwrap_or((text, ""));
    format!(in alloc; "{before}{to}{after}")
}

/// A text, and octets after it up to that length.
fn filled(alloc: Global, text: &str, length: usize) -> Result<String, AllocError> {
    let mut filled = String::from_str(alloc, text)?;
    for _ in text.len()..length {
        filled.push('x')?;
    }
    Ok(filled)
}

/// A text of the room r1 for each of 64 rooms.
fn for_rooms(alloc: Global, text: &str) -> Result<String, AllocError> {
    let mut all = String::new(alloc);
    for room in 1..65u32 {
        let name = format!(in alloc; ":r{room}@")?;
        let one = replaced(alloc, text, ":r1@", name.as_str())?;
        all.push_str(one.as_str())?;
    }
    Ok(all)
}

/// `STREAM` with 64 rooms, all of which its first object asks, and a line in this that is longer than any buffer.
fn long_stream(alloc: Global) -> Result<String, AllocError> {
    let room = "room mailto:r1@example.com\n";
    let rooms = for_rooms(alloc, room)?;
    let stream = replaced(alloc, STREAM, room, rooms.as_str())?;
    let attendee = "ATTENDEE:mailto:r1@example.com\r\n";
    let attendees = for_rooms(alloc, attendee)?;
    let line = filled(alloc, "SUMMARY:", 70_000)?;
    let lines = format!(in alloc; "{attendees}{line}\r\n")?;
    replaced(alloc, stream.as_str(), attendee, lines.as_str())
}

#[test]
fn long_objects_and_answers_come_through_few_octets(rt: HostRuntime) -> Result<(), Fail> {
    let alloc = rt.alloc();
    let stream = long_stream(alloc)?;
    let mut answers = for_rooms(alloc, first_answer())?;
    answers.push_str(REFUSED)?;
    for octets in [1, 5, 4_096, 65_536] {
        check_stream(
            &rt,
            Devices::of_octets(8_192, octets, octets),
            stream.as_str(),
            Ok(SERVED),
            answers.as_bytes(),
        )?;
    }
    Ok(())
}

/// `STREAM` with a preamble of this many octets, its empty line included, whose 64 rooms nobody asks.
fn stream_after(alloc: Global, octets: usize) -> Result<String, AllocError> {
    let mut preamble = String::from_str(alloc, "now 20250102T000000Z\n")?;
    for room in 1..64u32 {
        let named = format!(in alloc; "room x:{room}.")?;
        let line = filled(alloc, named.as_str(), 1_029)?;
        write!(preamble, "{line}\n")?;
    }
    let last = filled(alloc, "room x:", octets.saturating_sub(preamble.len() + 2))?;
    write!(preamble, "{last}\n\n")?;
    let (_, objects) = STREAM.split_once("\n\n").unwrap_or((STREAM, ""));
    preamble.push_str(objects)?;
    Ok(preamble)
}

#[test]
fn a_preamble_has_at_most_65536_octets(rt: HostRuntime) -> Result<(), Fail> {
    let alloc = rt.alloc();
    let longest = stream_after(alloc, 65_536)?;
    let longer = stream_after(alloc, 65_537)?;
    for octets in [1, 7, 65_536, 131_072] {
        let devices = Devices::of_octets(8_192, octets, 8_192);
        check_stream(
            &rt,
            devices,
            longest.as_str(),
            Ok(SERVED),
            REFUSED.as_bytes(),
        )?;
        let (report, writer) = devices.serve(alloc, longer.as_str())?;
        assert!(rt; matches!(report, Err(StreamFault::Refused(refusal)) if refusal.number == 90));
        assert!(rt; writer.get_ref().sent.is_empty());
    }
    Ok(())
}

#[test]
fn each_fault_has_its_text(rt: HostRuntime) -> Result<(), Fail> {
    let alloc = rt.alloc();
    for (fault, text) in [
        (ServeFault::Read, "the input can't be read"),
        (ServeFault::Write, "the output can't be written"),
        (ServeFault::TooLong, "the input is too long"),
        (ServeFault::Memory, "out of memory"),
    ] {
        let alone = format!(in alloc; "{fault}")?;
        let of_stream = format!(in alloc; "{}", StreamFault::Serve(fault))?;
        assert_eq!(rt; alone.as_str(), text);
        assert_eq!(rt; of_stream.as_str(), text);
    }
    // a preamble of one empty line is refused
    let (report, _) = Devices::of_octets(8_192, 8_192, 8_192).serve(alloc, "\n")?;
    let Err(fault) = report else {
        return Err(Fail::from(ErrorKind::InvalidData));
    };
    let refused = format!(in alloc; "{fault}")?;
    assert_eq!(rt; refused.as_str(), "refused 90");
    Ok(())
}

#[test]
fn an_interrupted_call_is_tried_a_thousand_times(rt: HostRuntime) -> Result<(), Fail> {
    let whole = Devices::of_octets(8_192, 8_192, 8_192);
    let fewer = Failures::new(1, 999, ErrorKind::Interrupted);
    let all = Failures::new(1, 1_000, ErrorKind::Interrupted);
    let read = Err(StreamFault::Serve(ServeFault::Read));
    let write = Err(StreamFault::Serve(ServeFault::Write));
    let answers = ANSWERS.as_bytes();
    let served = Ok(SERVED);
    for (reads, report, sent) in [(fewer, served, answers), (all, read, b"")] {
        check(&rt, Devices { reads, ..whole }, report, sent)?;
    }
    for (calls, report, sent) in [(fewer, served, answers), (all, write, b"")] {
        check(
            &rt,
            Devices {
                writes: calls,
                ..whole
            },
            report,
            sent,
        )?;
        check(
            &rt,
            Devices {
                flushes: calls,
                ..whole
            },
            report,
            sent,
        )?;
    }
    Ok(())
}
