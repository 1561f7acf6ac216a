//! The real reader, writer and files: `run` hands them to the commands.

use crate::agenda::invoke_agenda;
use crate::behind::{Answers, StreamWork, Work, read_whole, run_behind};
use crate::progress::Progress;
use crate::reasons::{
    Wanted, WatchedReader, WatchedWriter, say_configuration, say_device, say_folder, say_output,
    say_reasons,
};
use cal_zones::RoomZone;
use command_line::{BadWord, Invocation, Reading, fault_of, read_words};
use ical_lines::Fault;
use ical_values::Address;
use sched_box::config::LONGEST;
use sched_box::objects::{KEPT, MOST_OCTETS};
use sched_box::{DeviceReader, DeviceWriter, Input, Output};
use sched_cli::commands::{KeptText, run_check, run_keep, run_serve};
use sched_cli::status::{USAGE, report_device, report_memory, report_read, report_too_long};
use sched_cli::{
    Log, Tally, run_compare, run_expand, run_explain, run_explain_object, run_folders,
    run_folders_report, run_meetings, run_serve_report,
};
use sched_devices::{DiskFolder, Explained, Folder};
use std::alloc::Global;
use std::fs::File;
use std::io::{self, ErrorKind, IsTerminal, Read, Stderr, Write};
use std::rt::Runtime;
use std::{env, str};

/// How many instances `expand` prints at most; this profile's choice.
const MOST_INSTANCES: usize = 100_000;

/// The octets that `expand` and `explain` read: one more than an object may have.
const OBJECT_OCTETS: u64 = KEPT as u64;

/// What standard input is called.
pub(crate) const INPUT: &str = "standard input";

/// The octets that `box` reads of a configuration: one more than it may have.
const CONFIG_OCTETS: u64 = LONGEST as u64 + 1;

/// Standard error, as a writer of text.
#[derive(Drop)]
pub(crate) struct ErrorPrinter<'a, R> {
    pub(crate) to: &'a R,
}

impl<R: Eprint> Write for ErrorPrinter<'_, R> {
    fn write(&mut self, octets: &[u8]) -> io::Result<usize> {
        let Ok(text) = str::from_utf8(octets) else {
            return Err(io::Error::from(ErrorKind::InvalidData));
        };
        self.to.eprint(text)?;
        Ok(octets.len())
    }

    fn flush(&mut self) -> io::Result<()> {
        Ok(())
    }
}

/// Why a file isn't taken.
#[derive(Clone, Copy)]
pub(crate) enum FileFault {
    /// It can't be read, for this reason.
    Device(ErrorKind),
    TooLong,
    Memory,
}

/// Runs the program on the words of its command line, and gives its status.
pub fn run<R: Runtime + AllocGlobal>(rt: &R, stderr: Stderr) -> u8 {
    let alloc = rt.alloc();
    let Ok(words) = words_of(rt, alloc) else {
        return no_memory(rt);
    };
    match read_words(alloc, words.as_slice()) {
        Ok(invocation) => invoke(rt, alloc, stderr, invocation),
        Err(error) => print_usage(rt, &error),
    }
}

/// Says that the program is out of memory.
pub(crate) fn no_memory<R: Runtime + AllocGlobal>(rt: &R) -> u8 {
    report_memory(&mut DeviceWriter::new(ErrorPrinter { to: rt }))
}

/// Prints what clap says: help and version on standard output, a usage fault on standard error.
fn print_usage<R: Runtime + AllocGlobal>(rt: &R, error: &clap::Error) -> u8 {
    if error.kind() == clap::error::ErrorKind::OutOfMemory {
        return no_memory(rt);
    }
    match error.print(rt) {
        Ok(()) => u8::try_from(error.exit_code()).unwrap_or(USAGE),
        Err(_) => report_device(&mut DeviceWriter::new(ErrorPrinter { to: rt })),
    }
}

/// Says that a word of the command line can't be read, and gives the status of a usage fault.
pub(crate) fn refuse_word<R: Runtime + AllocGlobal>(
    rt: &R,
    alloc: Global,
    word: BadWord<'_>,
) -> u8 {
    match fault_of(alloc, word) {
        Ok(error) => print_usage(rt, &error),
        Err(_) => no_memory(rt),
    }
}

fn words_of<R: Runtime + AllocGlobal>(rt: &R, alloc: Global) -> io::Result<Vec<String>> {
    Ok(env::args(rt)?.collect(alloc)?)
}

fn invoke<R: Runtime + AllocGlobal>(
    rt: &R,
    alloc: Global,
    stderr: Stderr,
    invocation: Invocation<'_>,
) -> u8 {
    match invocation {
        Invocation::Serve { report, reading } => invoke_serve(rt, alloc, report, reading),
        Invocation::Keep {
            room,
            certificate,
            reading,
        } => match read_room(rt, alloc, room) {
            Ok(room) => invoke_keep(rt, alloc, &room, kept_text(certificate), reading),
            Err(status) => status,
        },
        Invocation::Meetings { organiser, reading } => {
            match read_organiser(rt, alloc, organiser) {
                Ok(organiser) => invoke_meetings(rt, alloc, &organiser, reading),
                Err(status) => status,
            }
        }
        Invocation::Adapt { report, zones } => {
            run_behind(rt, alloc, zones, Work::Stream(StreamWork::Adapt { report }))
        }
        Invocation::ReplyTo {
            original,
            is_single,
            zones,
        } => invoke_reply_to(rt, alloc, original, is_single, zones),
        Invocation::Agenda(agenda) => invoke_agenda(rt, alloc, agenda),
        Invocation::Check {
            calendar,
            certificate,
            room,
        } => match read_room(rt, alloc, room) {
            Ok(room) => invoke_check(rt, alloc, calendar, certificate, &room),
            Err(status) => status,
        },
        Invocation::Expand { limit, zone } => match limit_of(limit) {
            Some(limit) => match read_zone(rt, alloc, zone) {
                Ok(zone) => invoke_expand(rt, alloc, &zone, limit),
                Err(status) => status,
            },
            None => refuse_word(rt, alloc, BadWord::Limit(limit)),
        },
        Invocation::Explain {
            number: Some(number),
        } => invoke_explain(rt, alloc, number),
        Invocation::Explain { number: None } => invoke_explain_object(rt, alloc),
        Invocation::Box {
            config,
            inbox,
            outbox,
            report,
            compare,
            reading,
        } => {
            let folders = FolderWords {
                inbox,
                outbox,
                report,
                compare,
            };
            invoke_box(rt, alloc, stderr, config, folders, reading)
        }
    }
}

/// The room that a word names; else the status of a usage fault.
pub(crate) fn read_room<R: Runtime + AllocGlobal>(
    rt: &R,
    alloc: Global,
    word: &str,
) -> Result<Address, u8> {
    match Address::read(alloc, word) {
        Ok(room) => Ok(room),
        Err(Fault::Memory) => Err(no_memory(rt)),
        Err(Fault::Refused(_)) => Err(refuse_word(rt, alloc, BadWord::Room(word))),
    }
}

/// The organiser that a word names; else the status of a usage fault.
fn read_organiser<R: Runtime + AllocGlobal>(
    rt: &R,
    alloc: Global,
    word: &str,
) -> Result<Address, u8> {
    match Address::read(alloc, word) {
        Ok(organiser) => Ok(organiser),
        Err(Fault::Memory) => Err(no_memory(rt)),
        Err(Fault::Refused(_)) => Err(refuse_word(rt, alloc, BadWord::Organiser(word))),
    }
}

/// The zone that words mean; else the status of a usage fault.
pub(crate) fn read_zone<R: Runtime + AllocGlobal>(
    rt: &R,
    alloc: Global,
    words: &str,
) -> Result<RoomZone, u8> {
    match RoomZone::read(alloc, words) {
        Ok(zone) => Ok(zone),
        Err(Fault::Memory) => Err(no_memory(rt)),
        Err(Fault::Refused(_)) => Err(refuse_word(rt, alloc, BadWord::Zone(words))),
    }
}

fn invoke_serve<R: Runtime + AllocGlobal>(
    rt: &R,
    alloc: Global,
    report: bool,
    reading: Reading<'_>,
) -> u8 {
    if let Reading::Adapted(zones) = reading {
        return run_behind(rt, alloc, zones, Work::Stream(StreamWork::Serve { report }));
    }
    let Ok(mut input) = WatchedReader::new(alloc, rt.reader()) else {
        return no_memory(rt);
    };
    let mut output = WatchedWriter::new(io::writer(rt));
    let status = match DeviceReader::new(alloc, &mut input) {
        Ok(mut reader) => {
            let mut writer = DeviceWriter::new(&mut output);
            if report {
                serve_reporting(rt, alloc, &mut reader, writer)
            } else {
                let mut errors = DeviceWriter::new(ErrorPrinter { to: rt });
                run_serve(alloc, &mut reader, &mut writer, &mut errors)
            }
        }
        Err(_) => return no_memory(rt),
    };
    say_reasons(rt, alloc, status, &input, output.kind(), Wanted::All)
}

/// Serves, and says what came to nothing.
fn serve_reporting<R: Runtime + AllocGlobal, I: Input, W: Output + Drop>(
    rt: &R,
    alloc: Global,
    reader: &mut I,
    writer: W,
) -> u8 {
    let mut errors = DeviceWriter::new(ErrorPrinter { to: rt });
    let mut log = Log::new(alloc, DeviceWriter::new(ErrorPrinter { to: rt }));
    run_serve_report(
        alloc,
        reader,
        &mut Tally::new(writer),
        &mut log,
        &mut errors,
    )
}

/// Which text of a room is asked for.
fn kept_text(certificate: bool) -> KeptText {
    if certificate {
        KeptText::Certificate
    } else {
        KeptText::Calendar
    }
}

fn invoke_keep<R: Runtime + AllocGlobal>(
    rt: &R,
    alloc: Global,
    room: &Address,
    kept: KeptText,
    reading: Reading<'_>,
) -> u8 {
    if let Reading::Adapted(zones) = reading {
        return run_behind(
            rt,
            alloc,
            zones,
            Work::Stream(StreamWork::Keep { room, kept }),
        );
    }
    let Ok(mut input) = WatchedReader::new(alloc, rt.reader()) else {
        return no_memory(rt);
    };
    let mut output = WatchedWriter::new(io::writer(rt));
    let status = match DeviceReader::new(alloc, &mut input) {
        Ok(mut reader) => {
            let mut errors = DeviceWriter::new(ErrorPrinter { to: rt });
            let mut writer = DeviceWriter::new(&mut output);
            run_keep(alloc, room, kept, &mut reader, &mut writer, &mut errors)
        }
        Err(_) => return no_memory(rt),
    };
    say_reasons(rt, alloc, status, &input, output.kind(), Wanted::Room(room))
}

fn invoke_meetings<R: Runtime + AllocGlobal>(
    rt: &R,
    alloc: Global,
    organiser: &Address,
    reading: Reading<'_>,
) -> u8 {
    if let Reading::Adapted(zones) = reading {
        return run_behind(
            rt,
            alloc,
            zones,
            Work::Stream(StreamWork::Meetings { organiser }),
        );
    }
    let Ok(mut input) = WatchedReader::new(alloc, rt.reader()) else {
        return no_memory(rt);
    };
    let mut output = WatchedWriter::new(io::writer(rt));
    let status = match DeviceReader::new(alloc, &mut input) {
        Ok(mut reader) => {
            let mut errors = DeviceWriter::new(ErrorPrinter { to: rt });
            let mut writer = DeviceWriter::new(&mut output);
            run_meetings(alloc, organiser, &mut reader, &mut writer, &mut errors)
        }
        Err(_) => return no_memory(rt),
    };
    say_reasons(
        rt,
        alloc,
        status,
        &input,
        output.kind(),
        Wanted::Organiser(organiser),
    )
}

/// Hands on answers to the object of a file, which has to be one.
fn invoke_reply_to<R: Runtime + AllocGlobal>(
    rt: &R,
    alloc: Global,
    original: &str,
    is_single: bool,
    zones: Option<&str>,
) -> u8 {
    let mut errors = DeviceWriter::new(ErrorPrinter { to: rt });
    let original = match read_file(rt, alloc, original) {
        Ok(octets) => octets,
        Err(fault) => return report_file(rt, alloc, original, fault),
    };
    if let Err(fault) = read_whole(alloc, original.as_slice()) {
        return report_read(&mut errors, fault);
    }
    let answers = Answers {
        original: original.as_slice(),
        is_single,
    };
    run_behind(rt, alloc, zones, Work::Back(answers))
}

fn invoke_check<R: Runtime + AllocGlobal>(
    rt: &R,
    alloc: Global,
    calendar: &str,
    certificate: &str,
    room: &Address,
) -> u8 {
    let mut errors = DeviceWriter::new(ErrorPrinter { to: rt });
    let calendar = match read_file(rt, alloc, calendar) {
        Ok(octets) => octets,
        Err(fault) => return report_file(rt, alloc, calendar, fault),
    };
    let certificate = match read_file(rt, alloc, certificate) {
        Ok(octets) => octets,
        Err(fault) => return report_file(rt, alloc, certificate, fault),
    };
    let mut writer = DeviceWriter::new(WatchedWriter::new(io::writer(rt)));
    let status = run_check(
        alloc,
        calendar.as_slice(),
        certificate.as_slice(),
        room,
        &mut writer,
        &mut errors,
    );
    say_output(rt, alloc, status, writer.get_ref().kind())
}

/// The number that the word of `--limit` spells: decimal digits, from 1 to 100,000.
fn limit_of(word: &str) -> Option<usize> {
    if word.starts_with('+') {
        return None;
    }
    match word.parse::<usize>() {
        Ok(limit) if limit >= 1 && limit <= MOST_INSTANCES => Some(limit),
        _ => None,
    }
}

/// The octets of one object from standard input, one more than it may have at most; else the status of what was said.
fn read_object<R: Runtime + AllocGlobal>(rt: &R, alloc: Global) -> Result<Vec<u8>, u8> {
    let mut octets = Vec::new(alloc);
    match rt.reader().take(OBJECT_OCTETS).read_to_end(&mut octets) {
        Ok(_) => Ok(octets),
        Err(error) => {
            let fault = fault_of_kind(error.kind());
            Err(report_file(rt, alloc, INPUT, fault))
        }
    }
}

fn invoke_expand<R: Runtime + AllocGlobal>(
    rt: &R,
    alloc: Global,
    zone: &RoomZone,
    limit: usize,
) -> u8 {
    let mut errors = DeviceWriter::new(ErrorPrinter { to: rt });
    match read_object(rt, alloc) {
        Ok(octets) => {
            let mut writer = DeviceWriter::new(WatchedWriter::new(io::writer(rt)));
            let status = run_expand(
                alloc,
                octets.as_slice(),
                zone,
                limit,
                &mut writer,
                &mut errors,
            );
            say_output(rt, alloc, status, writer.get_ref().kind())
        }
        Err(status) => status,
    }
}

fn invoke_explain_object<R: Runtime + AllocGlobal>(rt: &R, alloc: Global) -> u8 {
    let mut errors = DeviceWriter::new(ErrorPrinter { to: rt });
    match read_object(rt, alloc) {
        Ok(octets) => {
            let mut writer = DeviceWriter::new(WatchedWriter::new(io::writer(rt)));
            let status = run_explain_object(alloc, octets.as_slice(), &mut writer, &mut errors);
            say_output(rt, alloc, status, writer.get_ref().kind())
        }
        Err(status) => status,
    }
}

/// The number in a word, which may be a line that says it: `REFUSED;OBJECT=3:43`, `roombox: refused 43` or `no 82`.
fn number_of(word: &str) -> &str {
    let word = word.trim_ascii();
    if let Some(rest) = word.strip_prefix("REFUSED;OBJECT=") {
        return match rest.split_once(':') {
            Some((_, number)) => number,
            None => "",
        };
    }
    if let Some(number) = word.strip_prefix("roombox: refused ") {
        return number;
    }
    match word.strip_prefix("no ") {
        Some(rest) => first_word(rest),
        None => word,
    }
}

/// What comes before a blank.
fn first_word(text: &str) -> &str {
    match text.split_once(' ') {
        Some((word, _)) => word,
        None => text,
    }
}

/// Says what the number of a refusal means; a usage fault where nothing has that number.
fn invoke_explain<R: Runtime + AllocGlobal>(rt: &R, alloc: Global, word: &str) -> u8 {
    let mut errors = DeviceWriter::new(ErrorPrinter { to: rt });
    let mut writer = DeviceWriter::new(io::writer(rt));
    let status = match number_of(word).parse::<u8>() {
        Ok(number) => run_explain(number, &mut writer, &mut errors),
        Err(_) => USAGE,
    };
    if status == USAGE {
        return refuse_word(rt, alloc, BadWord::Number(word));
    }
    status
}

/// Answers the files of a folder.
fn invoke_box<R: Runtime + AllocGlobal>(
    rt: &R,
    alloc: Global,
    stderr: Stderr,
    path: &str,
    words: FolderWords<'_>,
    reading: Reading<'_>,
) -> u8 {
    let config = match read_front(rt, alloc, path, CONFIG_OCTETS) {
        Ok(octets) => octets,
        Err(fault) => return report_file(rt, alloc, path, fault),
    };
    let folders = Folders {
        config: config.as_slice(),
        inbox: words.inbox,
        outbox: words.outbox,
        report: words.report,
        compare: words.compare,
        is_watched: stderr.is_terminal(),
    };
    match reading {
        Reading::Plain => answer_files(rt, alloc, folders, DiskFolder::new(rt, words.inbox)),
        Reading::Adapted(zones) => run_behind(rt, alloc, zones, Work::Files(folders)),
    }
}

/// The folders that the words of `box` name.
#[derive(Clone, Copy)]
struct FolderWords<'a> {
    inbox: &'a str,
    outbox: &'a str,
    report: bool,
    compare: bool,
}

/// What `box` works on.
#[derive(Clone, Copy)]
pub(crate) struct Folders<'a> {
    pub(crate) config: &'a [u8],
    pub(crate) inbox: &'a str,
    pub(crate) outbox: &'a str,
    /// It is said what came to nothing.
    pub(crate) report: bool,
    /// Nothing is written: the answers are compared alone.
    pub(crate) compare: bool,
    /// Someone watches how far it is.
    pub(crate) is_watched: bool,
}

/// Answers the files of an inbox, and shows how far that is where someone watches.
pub(crate) fn answer_files<R: Runtime + AllocGlobal, I: Folder + Explained + Drop>(
    rt: &R,
    alloc: Global,
    folders: Folders<'_>,
    inbox: I,
) -> u8 {
    if folders.is_watched {
        return answer_inbox(rt, alloc, folders, &mut Progress::new(rt, inbox));
    }
    let mut inbox = inbox;
    answer_inbox(rt, alloc, folders, &mut inbox)
}

/// Answers them, and says what came to nothing where that is wanted; or compares their answers alone.
fn answer_inbox<R: Runtime + AllocGlobal, I: Folder + Explained>(
    rt: &R,
    alloc: Global,
    folders: Folders<'_>,
    inbox: &mut I,
) -> u8 {
    let mut errors = DeviceWriter::new(ErrorPrinter { to: rt });
    let mut outbox = DiskFolder::new(rt, folders.outbox);
    let status = if folders.compare {
        run_compare(alloc, folders.config, inbox, &mut outbox, &mut errors)
    } else if folders.report {
        let mut log = Log::new(alloc, DeviceWriter::new(ErrorPrinter { to: rt }));
        run_folders_report(
            alloc,
            folders.config,
            inbox,
            &mut outbox,
            &mut log,
            &mut errors,
        )
    } else {
        run_folders(alloc, folders.config, inbox, &mut outbox, &mut errors)
    };
    if let Some(failure) = inbox.last_failure() {
        say_folder(rt, alloc, folders.inbox, failure);
    }
    if let Some(failure) = outbox.last_failure() {
        say_folder(rt, alloc, folders.outbox, failure);
    }
    say_configuration(rt, alloc, status, folders.config)
}

/// Says why a file isn't taken, or standard input, and gives the status for it.
pub(crate) fn report_file<R: Runtime + AllocGlobal>(
    rt: &R,
    alloc: Global,
    name: &str,
    fault: FileFault,
) -> u8 {
    let mut errors = DeviceWriter::new(ErrorPrinter { to: rt });
    match fault {
        FileFault::Device(kind) => {
            let status = report_device(&mut errors);
            say_device(rt, alloc, name, kind);
            status
        }
        FileFault::TooLong => report_too_long(&mut errors),
        FileFault::Memory => report_memory(&mut errors),
    }
}

/// The octets of a file.
pub(crate) fn read_file<R: Runtime + AllocGlobal>(
    rt: &R,
    alloc: Global,
    path: &str,
) -> Result<Vec<u8>, FileFault> {
    within_limit(read_front(rt, alloc, path, MOST_OCTETS + 1)?)
}

/// The octets of standard input, which may be as long as a file.
pub(crate) fn read_input<R: Runtime + AllocGlobal>(
    rt: &R,
    alloc: Global,
) -> Result<Vec<u8>, FileFault> {
    let mut octets = Vec::new(alloc);
    match rt.reader().take(MOST_OCTETS + 1).read_to_end(&mut octets) {
        Ok(_) => within_limit(octets),
        Err(error) => Err(fault_of_kind(error.kind())),
    }
}

/// Why octets couldn't be read.
fn fault_of_kind(kind: ErrorKind) -> FileFault {
    match kind {
        ErrorKind::OutOfMemory => FileFault::Memory,
        kind => FileFault::Device(kind),
    }
}

fn within_limit(octets: Vec<u8>) -> Result<Vec<u8>, FileFault> {
    if octets.len() as u64 > MOST_OCTETS {
        return Err(FileFault::TooLong);
    }
    Ok(octets)
}

/// The first octets of a file, at most so many.
fn read_front<R: Runtime + AllocGlobal>(
    rt: &R,
    alloc: Global,
    path: &str,
    most: u64,
) -> Result<Vec<u8>, FileFault> {
    let file = match File::open(rt, path) {
        Ok(file) => file,
        Err(error) => return Err(FileFault::Device(error.kind())),
    };
    let mut octets = Vec::new(alloc);
    match file.take(most).read_to_end(&mut octets) {
        Ok(_) => Ok(octets),
        Err(error) => Err(fault_of_kind(error.kind())),
    }
}
