//! Behind the door: commands whose objects are made readable on their way in, and answers on their way back.

use crate::host::{
    ErrorPrinter, Folders, INPUT, answer_files, no_memory, read_file, read_input, report_file,
};
use crate::reasons::{Wanted, WatchedReader, WatchedWriter, say_output, say_reasons};
use ical_lines::{Fault, Limits, Unfolded};
use ical_tree::{Component, read_object};
use ical_values::Address;
use sched_box::{DeviceReader, DeviceWriter, Input, Output};
use sched_cli::commands::{KeptText, run_keep, run_serve};
use sched_cli::status::{DEVICE, DONE, REFUSED, report_read};
use sched_cli::{Log, Tally, WayBack, run_adapt, run_meetings, run_returned, run_serve_report};
use sched_devices::DiskFolder;
use sched_doors::{AdaptedInbox, Door};
use std::alloc::Global;
use std::io;
use std::rt::Runtime;

/// More octets than a command says at its end.
const SAID: usize = 8_192;

/// What is done behind the door.
#[derive(Clone, Copy)]
pub(crate) enum Work<'a> {
    Files(Folders<'a>),
    Stream(StreamWork<'a>),
    Back(Answers<'a>),
}

/// How answers on standard input are handed on.
#[derive(Clone, Copy)]
pub(crate) struct Answers<'a> {
    /// The object that they answer, as it came.
    pub(crate) original: &'a [u8],
    /// Each VEVENT in an object of its own.
    pub(crate) is_single: bool,
}

/// What is done with a stream.
#[derive(Clone, Copy)]
pub(crate) enum StreamWork<'a> {
    Adapt { report: bool },
    Serve { report: bool },
    Keep { room: &'a Address, kept: KeptText },
    Meetings { organiser: &'a Address },
}

/// Does some work behind a door, with the VTIMEZONEs of a file for it, if one is given. Where that can't be read, nothing else is.
pub(crate) fn run_behind<R: Runtime + AllocGlobal>(
    rt: &R,
    alloc: Global,
    zones: Option<&str>,
    work: Work<'_>,
) -> u8 {
    let Some(path) = zones else {
        return run_listed(rt, alloc, None, work);
    };
    let mut errors = DeviceWriter::new(ErrorPrinter { to: rt });
    let octets = match read_file(rt, alloc, path) {
        Ok(octets) => octets,
        Err(fault) => return report_file(rt, alloc, path, fault),
    };
    let text = match Unfolded::read(alloc, octets.as_slice(), Limits::Open) {
        Ok(text) => text,
        Err(fault) => return report_read(&mut errors, fault),
    };
    let object = match read_object(alloc, &text, Limits::Open) {
        Ok(object) => object,
        Err(fault) => return report_read(&mut errors, fault),
    };
    run_listed(rt, alloc, Some(&object), work)
}

/// Does the work, with these VTIMEZONEs for it.
fn run_listed<R: Runtime + AllocGlobal>(
    rt: &R,
    alloc: Global,
    listed: Option<&Component<'_>>,
    work: Work<'_>,
) -> u8 {
    match work {
        Work::Files(folders) => {
            let inbox = DiskFolder::new(rt, folders.inbox);
            answer_files(rt, alloc, folders, AdaptedInbox::new(listed, inbox))
        }
        Work::Stream(work) => run_stream(rt, alloc, listed, work),
        Work::Back(answers) => hand_back(rt, alloc, listed, answers),
    }
}

/// Reads octets that have to be one object, within the limits of a message; what is wrong with them, if something is.
pub(crate) fn read_whole(alloc: Global, octets: &[u8]) -> Result<(), Fault> {
    let text = Unfolded::read(alloc, octets, Limits::Message)?;
    read_object(alloc, &text, Limits::Message)?;
    Ok(())
}

/// Hands on answers from standard input, all of which is read first.
fn hand_back<R: Runtime + AllocGlobal>(
    rt: &R,
    alloc: Global,
    listed: Option<&Component<'_>>,
    answers: Answers<'_>,
) -> u8 {
    let mut errors = DeviceWriter::new(ErrorPrinter { to: rt });
    let octets = match read_input(rt, alloc) {
        Ok(octets) => octets,
        Err(fault) => return report_file(rt, alloc, INPUT, fault),
    };
    let way = WayBack {
        original: answers.original,
        listed,
        is_single: answers.is_single,
    };
    let mut writer = DeviceWriter::new(WatchedWriter::new(io::writer(rt)));
    let status = run_returned(alloc, way, octets.as_slice(), &mut writer, &mut errors);
    say_output(rt, alloc, status, writer.get_ref().kind())
}

/// Does the work on standard input.
fn run_stream<R: Runtime + AllocGlobal>(
    rt: &R,
    alloc: Global,
    listed: Option<&Component<'_>>,
    work: StreamWork<'_>,
) -> u8 {
    let Ok(mut input) = WatchedReader::new(alloc, rt.reader()) else {
        return no_memory(rt);
    };
    let mut output = WatchedWriter::new(io::writer(rt));
    let status = match DeviceReader::new(alloc, &mut input) {
        Ok(reader) => {
            let mut door = Door::new(alloc, listed, reader);
            work_behind(rt, alloc, &mut door, DeviceWriter::new(&mut output), work)
        }
        Err(_) => return no_memory(rt),
    };
    let wanted = match work {
        StreamWork::Keep { room, kept: _ } => Wanted::Room(room),
        StreamWork::Meetings { organiser } => Wanted::Organiser(organiser),
        StreamWork::Adapt { report: _ } | StreamWork::Serve { report: _ } => Wanted::All,
    };
    if status == REFUSED && is_adapt(work) {
        return status;
    }
    say_reasons(rt, alloc, status, &input, output.kind(), wanted)
}

/// Whether the stream has no preamble that is read.
fn is_adapt(work: StreamWork<'_>) -> bool {
    match work {
        StreamWork::Adapt { report: _ } => true,
        StreamWork::Serve { report: _ }
        | StreamWork::Keep { room: _, kept: _ }
        | StreamWork::Meetings { organiser: _ } => false,
    }
}

/// Does the work, and writes to this writer.
fn work_behind<R: Runtime + AllocGlobal, I: Input + Drop, W: Output + Drop>(
    rt: &R,
    alloc: Global,
    door: &mut Door<'_, '_, I>,
    writer: W,
    work: StreamWork<'_>,
) -> u8 {
    let mut writer = writer;
    match work {
        StreamWork::Adapt { report } => {
            let mut errors = DeviceWriter::new(ErrorPrinter { to: rt });
            run_adapt(alloc, door, report, &mut writer, &mut errors)
        }
        StreamWork::Serve { report } => serve_behind(rt, alloc, door, writer, report),
        StreamWork::Keep { room, kept } => keep_behind(rt, alloc, door, &mut writer, room, kept),
        StreamWork::Meetings { organiser } => {
            show_behind(rt, alloc, door, &mut writer, organiser)
        }
    }
}

fn serve_behind<R: Runtime + AllocGlobal, I: Input + Drop, W: Output + Drop>(
    rt: &R,
    alloc: Global,
    door: &mut Door<'_, '_, I>,
    writer: W,
    report: bool,
) -> u8 {
    let Ok(mut said) = Vec::with_capacity(alloc, SAID) else {
        return no_memory(rt);
    };
    let mut writer = writer;
    let status = if report {
        let mut log = Log::new(alloc, DeviceWriter::new(ErrorPrinter { to: rt }));
        run_serve_report(alloc, door, &mut Tally::new(writer), &mut log, &mut said)
    } else {
        run_serve(alloc, door, &mut writer, &mut said)
    };
    say_at_end(rt, door, said.as_slice(), status)
}

fn keep_behind<R: Runtime + AllocGlobal, I: Input + Drop, W: Output>(
    rt: &R,
    alloc: Global,
    door: &mut Door<'_, '_, I>,
    writer: &mut W,
    room: &Address,
    kept: KeptText,
) -> u8 {
    let Ok(mut said) = Vec::with_capacity(alloc, SAID) else {
        return no_memory(rt);
    };
    let status = run_keep(alloc, room, kept, door, writer, &mut said);
    say_at_end(rt, door, said.as_slice(), status)
}

fn show_behind<R: Runtime + AllocGlobal, I: Input + Drop, W: Output>(
    rt: &R,
    alloc: Global,
    door: &mut Door<'_, '_, I>,
    writer: &mut W,
    organiser: &Address,
) -> u8 {
    let Ok(mut said) = Vec::with_capacity(alloc, SAID) else {
        return no_memory(rt);
    };
    let status = run_meetings(alloc, organiser, door, writer, &mut said);
    say_at_end(rt, door, said.as_slice(), status)
}

/// Says what a command said at its end, and gives its status. Where it ended because the door was out of memory, it says that: to a
/// command the door is a reader, which can only fail.
fn say_at_end<R: Runtime + AllocGlobal, I: Input + Drop>(
    rt: &R,
    door: &Door<'_, '_, I>,
    said: &[u8],
    status: u8,
) -> u8 {
    if door.is_out_of_memory() {
        return no_memory(rt);
    }
    match DeviceWriter::new(ErrorPrinter { to: rt }).put(said) {
        Err(_) if status == DONE => DEVICE,
        // Where standard error fails too, nobody is left to be told.
        _ => status,
    }
}
