//! The words of the command line of `roombox`, which clap reads: what they ask for, its help, and the faults of words without
//! a meaning. What they mean is asked in `roombox`.
#![tactic(auto)]

use clap::error::ErrorKind;
use clap::{Arg, ArgAction, ArgMatches, Command, Error};
use std::alloc::{AllocError, Global};

/// What a command line asks for. ROOM, ORGANISER, N and NUMBER are still words here; CALENDAR, CERTIFICATE, CONFIG, INBOX, OUTBOX,
/// ORIGINAL and FILE are paths.
#[derive(Clone, Copy)]
pub enum Invocation<'a> {
    Serve {
        report: bool,
        reading: Reading<'a>,
    },
    /// What a room keeps: its certificate, or its calendar.
    Keep {
        room: &'a str,
        certificate: bool,
        reading: Reading<'a>,
    },
    Meetings {
        organiser: &'a str,
        reading: Reading<'a>,
    },
    Adapt {
        report: bool,
        zones: Option<&'a str>,
    },
    ReplyTo {
        original: &'a str,
        is_single: bool,
        zones: Option<&'a str>,
    },
    Agenda(Agenda<'a>),
    Check {
        calendar: &'a str,
        certificate: &'a str,
        room: &'a str,
    },
    Expand {
        limit: &'a str,
        zone: &'a str,
    },
    Explain {
        number: Option<&'a str>,
    },
    Box {
        config: &'a str,
        inbox: &'a str,
        outbox: &'a str,
        report: bool,
        /// Nothing is written: the answers are compared alone.
        compare: bool,
        reading: Reading<'a>,
    },
}

/// The words of `agenda`: a file, a room, and a span of two stamps.
#[derive(Clone, Copy)]
pub struct Agenda<'a> {
    pub calendar: &'a str,
    pub room: &'a str,
    pub from: Option<&'a str>,
    pub until: Option<&'a str>,
    pub zone: Option<&'a str>,
    pub form: Form,
}

/// What `agenda` prints.
#[derive(Clone, Copy, PartialEq, Eq)]
pub enum Form {
    /// A line for each instance.
    Lines,
    /// A line for each span in which the room is free.
    Free,
    /// An iCalendar object.
    Object,
    /// A page of HTML.
    Page,
}

/// How objects are read.
#[derive(Clone, Copy)]
pub enum Reading<'a> {
    /// As they came.
    Plain,
    /// Made readable on their way in; with the VTIMEZONEs of this file, if one is given.
    Adapted(Option<&'a str>),
}

const ROOMBOX: &str =
    "Answers meeting requests for rooms without double-booking, and keeps organisers' meetings.";

const ROOMBOX_MORE: &str = "\
Without a command it serves, as `roombox serve` does.

Exit status:
  0  done, also where objects of a stream were refused
  1  the checker's no; the object that explain reads is refused
  2  the words of the command line can't be read
  3  the input is refused or too long, or an answer of `roombox box` differs
  4  a device failed
  5  out of memory

`roombox explain NUMBER` says what the number of a refusal means; docs/REFERENCE.md lists all.";

const SERVE: &str =
    "Reads a preamble and objects, and writes the replies of rooms and what organisers send.";

const SERVE_MORE: &str = "\
Input: a preamble, an empty line, and iCalendar objects, one after another:
  now 20250102T000000Z
  room mailto:r1@example.com
  zone mailto:r1@example.com -0500 -0400 11 1SU 0200 3 2SU 0200
  organiser mailto:ann@example.com

  BEGIN:VCALENDAR
  ..
One `now` line, and a line for each room and each organiser, in any order; and for a room that
doesn't go by UTC its zone, in the words that `roombox expand --help` explains. Objects for rooms
have METHOD REQUEST, ADD or CANCEL; for organisers REPLY, REFRESH, or none: a meeting to store.

Output: the objects that are sent, and for the k-th object, where it is refused, a line
  REFUSED;OBJECT=k:n
`roombox explain n` says what the number n means; docs/REFERENCE.md lists all.

Exit status: 0 done, also where objects were refused; 2 usage; 3 the preamble is refused (90),
FILE is refused, or the input is too long; 4 a device failed; 5 out of memory.

Example: roombox serve < examples/first-request.ics-stream";

const KEEP: &str =
    "Reads what serve reads, and prints what a room keeps after it: its calendar, or its certificate.";

const KEEP_MORE: &str = "\
Input: a preamble and objects, as for `roombox serve`.

Output: an iCalendar object, or the lines of a certificate; docs/REFERENCE.md has their form, and
lists the numbers of refusals.

Exit status: 0 done, also where objects were refused; 2 usage; 3 the preamble is refused or
doesn't name ROOM (90), FILE is refused, or the input is too long; 4 a device failed; 5 out of
memory.

Example: roombox keep mailto:r1@example.com < examples/first-request.ics-stream";

const MEETINGS: &str =
    "Reads what serve reads, and prints what an organiser has stored after it, with the answers seen.";

const MEETINGS_MORE: &str = "\
Input: a preamble and objects, as for `roombox serve`.

Output: an iCalendar object for each meeting, by the octets of their UIDs: as it was last sent,
without METHOD, and of each attendee its answer, as PARTSTAT, with SCHEDULE-STATUS=1.1 where it
was sent a message. Nothing where none is stored.

Exit status: 0 done, also where objects were refused; 2 usage; 3 the preamble is refused or
doesn't name ORGANISER (90), FILE is refused, or the input is too long; 4 a device failed; 5 out
of memory. docs/REFERENCE.md lists the numbers.

Example: roombox meetings mailto:ann@example.com < examples/organiser-conversation.ics-stream";

const CHECK: &str =
    "Prints yes where a certificate shows that no two confirmed instances of a room share an instant.";

const CHECK_MORE: &str = "\
Input: the two files that `roombox keep` prints. Standard input isn't read.

Output: `yes`, or `no` and a number from 80 to 84; after 81 the wrong line of the certificate,
after 83 two series. `roombox explain 82` says what 82 means; docs/REFERENCE.md lists all.

Exit status: 0 yes; 1 no; 2 usage; 3 a file is too long; 4 a device failed, as where a file
isn't there; 5 out of memory.

Example: roombox check kept.ics kept.cert mailto:r1@example.com";

const AGENDA: &str =
    "Prints what a room has confirmed in a span of time, or when it is free: as lines, iCalendar or HTML.";

const AGENDA_MORE: &str = "\
Input: a calendar that `roombox keep` prints. Standard input isn't read.

Output: a line for each instance that shares an instant with the span: its start and its end, its
UID, its organiser; by start. With --free a line for each span in which nothing is confirmed: its
start and its end. A stamp is in UTC, as 20250415T070000Z; the span ends before --until. Without
--from and --until it is all time up to the year 10000, which a series without end fills.

With --zone start and end are followed by the local times of that zone, in the words that `roombox
expand --help` explains. It only shows them: the calendar names the zone of its room itself.

With --ics, --from and --until it prints an iCalendar object that programs subscribe to, with a
VEVENT for each instance, all times in UTC also with --zone, and who booked it as SUMMARY.

With --html, --from and --until it prints one page of HTML, which a tablet at the door can show: for
each day that the span touches when the room is taken, by whom, and when it is free. Days and times
go by the clocks of --zone, else by UTC. The span is at most 62 days long.

Where CALENDAR has events and none of them names ROOM as an ATTENDEE nothing is printed: a room that
isn't there isn't free. Where events name ROOM, which hasn't accepted them, and aren't cancelled,
standard error has a line that counts them.

Exit status: 0 done, and with --free, --from and --until: the whole span is free; 1 with these: it
isn't; 2 usage; 3 CALENDAR is refused: standard error has the number, which docs/REFERENCE.md lists;
or it is too long; or no event of it names ROOM; 4 a device failed, as where the file isn't there;
5 out of memory.

Example: roombox agenda kept.ics mailto:r1@example.com --from 20250415T120000Z --until \
20250415T130000Z --free";

const EXPAND: &str = "Reads one iCalendar object of one event, and prints its first instances.";

const EXPAND_MORE: &str = "\
Input: one object without preamble; METHOD has no effect.

Output: a line for each instance: original start, start, both in UTC, and length in seconds.
  20250107T090000Z 20250107T090000Z 3600

WORDS: one argument, an offset, or the offset of standard time, that of daylight saving time, and
of each when in the year it begins: month, weekday from the month's start or end, local time.
  roombox expand --zone='-0500 -0400 11 1SU 0200 3 2SU 0200' < examples/whole-day.ics

Exit status: 0 done; 2 usage; 3 the object is refused: standard error has the number, which
`roombox explain` explains and docs/REFERENCE.md lists; 4 a device failed; 5 out of memory.

Example: roombox expand --limit 5 < examples/every-second-tuesday.ics";

const EXPLAIN: &str =
    "Prints what the number of a refusal or of the checker's no means; or why an object is refused.";

const EXPLAIN_MORE: &str = "\
Without NUMBER it reads one object from standard input, as serve reads it behind its preamble,
and prints the number, the place where one line has the fault, and what the number means:
  refused 43 at line 12: DTSTART
  43: no VTIMEZONE has the name that TZID gives. What to do: ..
or what the object is:
  not refused: a REQUEST
70 to 73 depend on what an organiser has, and 90 on the preamble: an object isn't judged by
them. docs/REFERENCE.md lists all numbers.

Exit status: 0 explained, or not refused; 1 the object is refused; 2 usage, also where nothing
has that number; 4 a device failed; 5 out of memory.

Example: roombox explain 43
Example: roombox explain < invitation.ics";

const BOX: &str =
    "Answers each message of a folder by a file of another folder, also after a crash.";

const BOX_MORE: &str = "\
Input: CONFIG has the lines of a preamble, but for `now`. In INBOX each file of the name
  00000001-20250102T000000Z.ics
has objects, as `roombox serve` reads them behind its preamble, and the moment of its name is
their `now`. The digits are any eight. Files of other names are left alone. All are taken by one
box, in the byte order of their names.

Output: for each of them a file in OUTBOX, whole or not at all, of the name
  00000001-20250102T000000Z.out
with what `roombox serve` writes. One that is there is compared, and never written again: run it
again after a crash, and when files have come. Nothing is written before all that are there are
compared. The inbox has to keep all files, since the books are made from them. On a terminal it
says how many files it has read, after each 1000th.

With --compare it writes nothing, and OUTBOX may be one that can only be read: it goes on behind a
file that differs. Standard error has the name of each that does, and then how many files there are
and how many answers are missing, which is no fault:
  roombox: differs 00000001-20250102T000000Z.out
  roombox: files: 12, missing answers: 2

Exit status: 0 done: each file is answered, or with --compare none differs; 2 usage; 3 CONFIG (90)
or FILE is refused, or a file of OUTBOX differs from the answer: standard error has its name; 4 a
file or a folder can't be used; 5 out of memory. docs/REFERENCE.md lists all numbers.

Example: roombox box rooms.conf inbox outbox
Example: roombox box --compare rooms.conf inbox outbox";

const ADAPT: &str =
    "Makes objects readable whose VTIMEZONEs say more than a room reads, and hands all others on.";

const ADAPT_MORE: &str = "\
Input: a preamble and objects, as for `roombox serve`, or objects alone.

Output: the same octets, but for objects that name a VTIMEZONE in a form that a room refuses (40).
In them it gives way to one that a room reads and that does the same at each time that the object
names there. Where there is none the object is handed on as it came, and so is a longer one than a
message may be. Many programs write their zones up to a year, in 2036 or later: such a zone goes on
by its last rules, where an event repeats for longer; --report names it.

FILE is one iCalendar object. Its VTIMEZONEs are for the names that no VTIMEZONE of an object has.

With --reply-to it reads what serve wrote, and hands each object on in the words of ORIGINAL, the
object that it answers, as that came: its names of zones, its VTIMEZONEs, and its own line where a
RECURRENCE-ID names the same instant. What can't be told so is handed on as it is, and so is a line
REFUSED. All is read before anything is written. --single takes an object of several VEVENTs apart.

Exit status: 0 done; 2 usage; 3 FILE or ORIGINAL is refused: standard error has the number; or one,
or the input with --reply-to, is too long; 4 a device failed, as where a file isn't there; 5 out of
memory. docs/REFERENCE.md lists all numbers.

Example: roombox adapt < examples/first-request.ics-stream | roombox serve
Example: roombox adapt --reply-to invitation.ics < answers";

/// How many instances are printed where no limit is given.
const LIMIT: &str = "100";

/// The zone in which a whole day or a time without zone is read where none is given: UTC.
const ZONE: &str = "+0000";

const ROOM_HELP: &str = "The room's address, as mailto:r1@example.com";

const ORGANISER_HELP: &str = "The organiser's address, as mailto:ann@example.com";

const NUMBER_HELP: &str =
    "The number behind REFUSED;OBJECT=k:, `refused` or `no`; or the whole line that has it";

const CALENDAR_HELP: &str = "The file of the calendar, as `roombox keep` prints it";

const CERTIFICATE_HELP: &str =
    "The file of its certificate, as `roombox keep --certificate` prints it";

const CONFIG_HELP: &str = "The file of the rooms and organisers, a line each";

const INBOX_HELP: &str = "The folder of the messages, each written whole before it gets its name";

const READABLE_HELP: &str = "Make objects readable on their way in, as `roombox adapt` does";

const ZONES_HELP: &str = "The file of VTIMEZONEs for names without one";

const REPORT_HELP: &str =
    "Say on standard error which objects came to nothing and why; at the end how many were refused, by number";

const BOX_REPORT_HELP: &str =
    "Say on standard error which objects of files that weren't answered before came to nothing, and why";

const COMPARE_HELP: &str =
    "Write nothing: name each file of OUTBOX that differs, and count the answers that are missing";

const REPLY_TO_HELP: &str = "Hand on answers to the object of this file, in its words";

const SINGLE_HELP: &str = "Hand on each VEVENT of an answer in an object of its own";

const OUTBOX_HELP: &str = "The folder of the answers, which this program alone writes";

/// Reads the words; the first is the program's name. An error is what clap says of them, help and version too, or out of memory.
pub fn read_words<'a>(alloc: Global, words: &'a [String]) -> Result<Invocation<'a>, Error> {
    let matches = program(alloc)?.try_get_matches_from(words)?;
    Ok(invocation_of(&matches))
}

/// A word that clap accepts for an argument, and that has no meaning there.
#[derive(Clone, Copy)]
pub enum BadWord<'a> {
    Room(&'a str),
    Limit(&'a str),
    Zone(&'a str),
    Organiser(&'a str),
    Number(&'a str),
    From(&'a str),
    Until(&'a str),
    PageSpan(&'a str),
}

/// The usage fault for such a word, in the form of clap's own.
pub fn fault_of(alloc: Global, bad: BadWord<'_>) -> Result<Error, AllocError> {
    let message = match bad {
        BadWord::Room(word) => format!(in alloc;
            "invalid value '{word}' for '<ROOM>': it isn't an address such as mailto:r1@example.com"
        )?,
        BadWord::Limit(word) => format!(in alloc;
            "invalid value '{word}' for '--limit <N>': it isn't a number from 1 to 100000"
        )?,
        BadWord::Zone(word) => format!(in alloc;
            "invalid value '{word}' for '--zone <WORDS>': it isn't an offset, or two offsets and when each begins, such as '-0500 -0400 11 1SU 0200 3 2SU 0200'"
        )?,
        BadWord::Organiser(word) => format!(in alloc;
            "invalid value '{word}' for '<ORGANISER>': it isn't an address such as mailto:ann@example.com"
        )?,
        BadWord::Number(word) => format!(in alloc;
            "invalid value '{word}' for '[NUMBER]': it isn't the number of a refusal, such as 43"
        )?,
        BadWord::From(word) => format!(in alloc;
            "invalid value '{word}' for '--from <STAMP>': it isn't an instant in UTC such as 20250415T070000Z"
        )?,
        BadWord::Until(word) => format!(in alloc;
            "invalid value '{word}' for '--until <STAMP>': it isn't an instant in UTC behind that of --from, such as 20250415T080000Z"
        )?,
        BadWord::PageSpan(word) => format!(in alloc;
            "invalid value '{word}' for '--until <STAMP>': with --html it is at most 62 days behind that of --from, in the years 2 to 9998"
        )?,
    };
    program(alloc)?.error(ErrorKind::ValueValidation, message.as_str())
}

fn program<'a>(alloc: Global) -> Result<Command<'a>, AllocError> {
    let program = Command::new(alloc, "roombox")
        .about(ROOMBOX)
        .after_help(ROOMBOX_MORE)
        .version("0.1.0")
        .disable_help_subcommand(true)
        .args_conflicts_with_subcommands(true);
    with_reading(alloc, program)?
        .subcommand(serve_command(alloc)?)?
        .subcommand(keep_command(alloc)?)?
        .subcommand(meetings_command(alloc)?)?
        .subcommand(adapt_command(alloc)?)?
        .subcommand(agenda_command(alloc)?)?
        .subcommand(check_command(alloc)?)?
        .subcommand(expand_command(alloc)?)?
        .subcommand(explain_command(alloc)?)?
        .subcommand(box_command(alloc)?)
}

fn serve_command<'a>(alloc: Global) -> Result<Command<'a>, AllocError> {
    let report = Arg::new(alloc, "report")
        .long("report")
        .action(ArgAction::SetTrue)
        .help(REPORT_HELP);
    let serve = Command::new(alloc, "serve")
        .about(SERVE)
        .after_help(SERVE_MORE)
        .arg(report)?;
    with_reading(alloc, serve)
}

fn keep_command<'a>(alloc: Global) -> Result<Command<'a>, AllocError> {
    let certificate = Arg::new(alloc, "certificate")
        .long("certificate")
        .action(ArgAction::SetTrue)
        .help("Print the certificate in place of the calendar");
    let keep = Command::new(alloc, "keep")
        .about(KEEP)
        .after_help(KEEP_MORE)
        .arg(certificate)?
        .arg(required(alloc, "ROOM", ROOM_HELP))?;
    with_reading(alloc, keep)
}

fn meetings_command<'a>(alloc: Global) -> Result<Command<'a>, AllocError> {
    let meetings = Command::new(alloc, "meetings")
        .about(MEETINGS)
        .after_help(MEETINGS_MORE)
        .arg(required(alloc, "ORGANISER", ORGANISER_HELP))?;
    with_reading(alloc, meetings)
}

fn adapt_command<'a>(alloc: Global) -> Result<Command<'a>, AllocError> {
    let report = Arg::new(alloc, "report")
        .long("report")
        .action(ArgAction::SetTrue)
        .help(
            "Say on standard error which objects were made readable, and which of their zones go on",
        );
    let command = Command::new(alloc, "adapt")
        .about(ADAPT)
        .after_help(ADAPT_MORE)
        .arg(zones(alloc))?
        .arg(report)?;
    with_way_back(alloc, command)
}

/// The command, with the words for answers on their way back.
fn with_way_back<'a>(alloc: Global, command: Command<'a>) -> Result<Command<'a>, AllocError> {
    let original = Arg::new(alloc, "reply-to")
        .long("reply-to")
        .value_name("ORIGINAL")
        .help(REPLY_TO_HELP)
        .conflicts_with("report")?;
    let single = Arg::new(alloc, "single")
        .long("single")
        .action(ArgAction::SetTrue)
        .help(SINGLE_HELP)
        .requires_arg("reply-to")?;
    command.arg(original)?.arg(single)
}

fn check_command<'a>(alloc: Global) -> Result<Command<'a>, AllocError> {
    Command::new(alloc, "check")
        .about(CHECK)
        .after_help(CHECK_MORE)
        .arg(required(alloc, "CALENDAR", CALENDAR_HELP))?
        .arg(required(alloc, "CERTIFICATE", CERTIFICATE_HELP))?
        .arg(required(alloc, "ROOM", ROOM_HELP))
}

fn agenda_command<'a>(alloc: Global) -> Result<Command<'a>, AllocError> {
    let from = Arg::new(alloc, "from")
        .long("from")
        .value_name("STAMP")
        .help("The first instant of the span, in UTC; the year 1 where it isn't given");
    let until = Arg::new(alloc, "until")
        .long("until")
        .value_name("STAMP")
        .help("The instant behind the span, in UTC; the year 10000 where it isn't given");
    let zone = Arg::new(alloc, "zone")
        .long("zone")
        .value_name("WORDS")
        .help("The zone of the local times to print too, and of the days and times of --html");
    let command = Command::new(alloc, "agenda")
        .about(AGENDA)
        .after_help(AGENDA_MORE)
        .arg(required(alloc, "CALENDAR", CALENDAR_HELP))?
        .arg(required(alloc, "ROOM", ROOM_HELP))?
        .arg(from)?
        .arg(until)?
        .arg(zone)?;
    with_forms(alloc, command)
}

/// The command, with the words for what it prints in place of lines.
fn with_forms<'a>(alloc: Global, command: Command<'a>) -> Result<Command<'a>, AllocError> {
    let free = Arg::new(alloc, "free")
        .long("free")
        .action(ArgAction::SetTrue)
        .help("Print when the room is free; status 1 where it isn't all of the span");
    let ics = Arg::new(alloc, "ics")
        .long("ics")
        .action(ArgAction::SetTrue)
        .help("Print an iCalendar object for subscribing; with --from and --until")
        .conflicts_with("free")?
        .requires_arg("from")?
        .requires_arg("until")?;
    let html = Arg::new(alloc, "html")
        .long("html")
        .action(ArgAction::SetTrue)
        .help("Print a page for the room's door; with --from and --until")
        .conflicts_with("free")?
        .conflicts_with("ics")?
        .requires_arg("from")?
        .requires_arg("until")?;
    command.arg(free)?.arg(ics)?.arg(html)
}

fn expand_command<'a>(alloc: Global) -> Result<Command<'a>, AllocError> {
    let limit = Arg::new(alloc, "limit").long("limit").value_name("N").help(
        "How many instances at most, from 1 to 100000; 100 where it isn't given",
    );
    let zone = Arg::new(alloc, "zone")
        .long("zone")
        .value_name("WORDS")
        .help("The zone of whole days and of times without zone; UTC where it isn't given");
    Command::new(alloc, "expand")
        .about(EXPAND)
        .after_help(EXPAND_MORE)
        .arg(limit)?
        .arg(zone)
}

fn explain_command<'a>(alloc: Global) -> Result<Command<'a>, AllocError> {
    Command::new(alloc, "explain")
        .about(EXPLAIN)
        .after_help(EXPLAIN_MORE)
        .arg(Arg::new(alloc, "NUMBER").help(NUMBER_HELP))
}

fn box_command<'a>(alloc: Global) -> Result<Command<'a>, AllocError> {
    let report = Arg::new(alloc, "report")
        .long("report")
        .action(ArgAction::SetTrue)
        .help(BOX_REPORT_HELP);
    let compare = Arg::new(alloc, "compare")
        .long("compare")
        .action(ArgAction::SetTrue)
        .help(COMPARE_HELP)
        .conflicts_with("report")?;
    let command = Command::new(alloc, "box")
        .about(BOX)
        .after_help(BOX_MORE)
        .arg(report)?
        .arg(compare)?
        .arg(required(alloc, "CONFIG", CONFIG_HELP))?
        .arg(required(alloc, "INBOX", INBOX_HELP))?
        .arg(required(alloc, "OUTBOX", OUTBOX_HELP))?;
    with_reading(alloc, command)
}

/// The command, with the words for objects that are made readable on their way in.
fn with_reading<'a>(alloc: Global, command: Command<'a>) -> Result<Command<'a>, AllocError> {
    let adapt = Arg::new(alloc, "adapt")
        .long("adapt")
        .action(ArgAction::SetTrue)
        .help(READABLE_HELP);
    command.arg(adapt)?.arg(zones(alloc).requires_arg("adapt")?)
}

fn zones<'a>(alloc: Global) -> Arg<'a> {
    Arg::new(alloc, "zones")
        .long("zones")
        .value_name("FILE")
        .help(ZONES_HELP)
}

fn required<'a>(alloc: Global, name: &'a str, help: &'a str) -> Arg<'a> {
    Arg::new(alloc, name).required(true).help(help)
}

fn invocation_of<'a>(matches: &ArgMatches<'a>) -> Invocation<'a> {
    match matches.subcommand() {
        Some(("keep", words)) => Invocation::Keep {
            room: words.get_str("ROOM").unwrap_or(""),
            certificate: words.get_flag("certificate"),
            reading: reading_of(words),
        },
        Some(("meetings", words)) => Invocation::Meetings {
            organiser: words.get_str("ORGANISER").unwrap_or(""),
            reading: reading_of(words),
        },
        Some(("adapt", words)) => adapt_of(words),
        Some(("agenda", words)) => Invocation::Agenda(Agenda {
            calendar: words.get_str("CALENDAR").unwrap_or(""),
            room: words.get_str("ROOM").unwrap_or(""),
            from: words.get_str("from"),
            until: words.get_str("until"),
            zone: words.get_str("zone"),
            form: form_of(words),
        }),
        Some(("check", words)) => Invocation::Check {
            calendar: words.get_str("CALENDAR").unwrap_or(""),
            certificate: words.get_str("CERTIFICATE").unwrap_or(""),
            room: words.get_str("ROOM").unwrap_or(""),
        },
        Some(("expand", words)) => Invocation::Expand {
            limit: words.get_str("limit").unwrap_or(LIMIT),
            zone: words.get_str("zone").unwrap_or(ZONE),
        },
        Some(("explain", words)) => Invocation::Explain {
            number: words.get_str("NUMBER"),
        },
        Some(("box", words)) => Invocation::Box {
            config: words.get_str("CONFIG").unwrap_or(""),
            inbox: words.get_str("INBOX").unwrap_or(""),
            outbox: words.get_str("OUTBOX").unwrap_or(""),
            report: words.get_flag("report"),
            compare: words.get_flag("compare"),
            reading: reading_of(words),
        },
        Some(("serve", words)) => Invocation::Serve {
            report: words.get_flag("report"),
            reading: reading_of(words),
        },
        _ => Invocation::Serve {
            report: false,
            reading: reading_of(matches),
        },
    }
}

fn form_of<'a>(words: &ArgMatches<'a>) -> Form {
    if words.get_flag("free") {
        Form::Free
    } else if words.get_flag("ics") {
        Form::Object
    } else if words.get_flag("html") {
        Form::Page
    } else {
        Form::Lines
    }
}

fn adapt_of<'a>(words: &ArgMatches<'a>) -> Invocation<'a> {
    let zones = words.get_str("zones");
    match words.get_str("reply-to") {
        Some(original) => Invocation::ReplyTo {
            original,
            is_single: words.get_flag("single"),
            zones,
        },
        None => Invocation::Adapt {
            report: words.get_flag("report"),
            zones,
        },
    }
}

fn reading_of<'a>(words: &ArgMatches<'a>) -> Reading<'a> {
    if words.get_flag("adapt") {
        Reading::Adapted(words.get_str("zones"))
    } else {
        Reading::Plain
    }
}
