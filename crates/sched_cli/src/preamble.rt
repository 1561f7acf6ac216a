//! Which line of a preamble or a configuration can't be read, and why: said behind `refused 90`.

ghost use Rattle.std.specs.Prelude.{◌≡◌, IfOk};
ghost use Rattle.sched_cli.specs.Logging.{cut_shown};

use crate::shown::append_cut;
use cal_zones::RoomZone;
use ical_lines::Fault;
use ical_values::{Address, Stamp};
use itoa::Buffer;
use sched_box::config::LONGEST;
use sched_box::{MOST_ORGANISERS, MOST_ROOMS};
use std::alloc::{AllocError, Global};
use std::str;

/// Which octets these are.
#[derive(Clone, Copy, PartialEq, Eq)]
pub enum Front {
    /// The front of a stream, whose preamble has `now`.
    Stream,
    /// A configuration, which hasn't.
    Configuration,
}

/// What is wrong.
#[derive(Clone, Copy, PartialEq, Eq)]
enum Why {
    TooLong,
    NotUtf8,
    Empty,
    NoEmptyLine,
    UnknownWord,
    NoStamp,
    SecondNow,
    NowHere,
    NoAddress,
    NoZone,
    SecondRoom,
    SecondZone,
    SecondOrganiser,
    ManyRooms,
    ManyZones,
    ManyOrganisers,
    ZoneOfNoRoom,
    MoreBehind,
    NoNow,
    NoHost,
}

/// What is wrong, and on which line, counted from 1; 0 where it isn't one line.
#[derive(Clone, Copy)]
struct Found {
    line: u64,
    why: Why,
}

/// What the lines so far name.
#[derive(Drop)]
struct Named {
    rooms: Vec<Address>,
    zones: Vec<Address>,
    /// The lines of these.
    zone_lines: Vec<u64>,
    organisers: Vec<Address>,
    has_now: bool,
}

/// `roombox: line 3: a line before it names this room: room mailto:r1@example.com`, as a line, of octets that are refused with 90: which line can't
/// be read, and why. Nothing where nothing is wrong with them. Each line is looked at once, and its address beside those before it.
pub fn preamble_fault(alloc: Global, octets: &[u8], front: Front) -> Result<Vec<u8>, AllocError> {
    let octets = front_in(octets, front);
    let mut line = Vec::new(alloc);
    let Some(found) = found_in(alloc, octets, front)? else {
        return Ok(line);
    };
    line.extend_from_slice(b"roombox: ")?;
    append_number(&mut line, found.line)?;
    found.why.append_words(&mut line)?;
    append_text(&mut line, octets, found.line)?;
    line.extend_from_slice(b"\n")?;
    Ok(line)
}

/// The octets that are looked at: all of a configuration, behind whose empty line nothing may stand.
fn front_in(octets: &[u8], front: Front) -> &[u8] {
    match front {
        Front::Stream => preamble_in(octets),
        Front::Configuration => octets,
    }
}

/// `line 3: `; nothing of line 0.
fn append_number(out: &mut Vec<u8>, line: u64) -> Result<(), AllocError> {
    if line == 0 {
        return Ok(());
    }
    let mut digits = Buffer::new();
    out.extend_from_slice(b"line ")?;
    out.extend_from_slice(digits.format(line).as_bytes())?;
    out.extend_from_slice(b": ")
}

/// A line of some octets, as it is shown; nothing of line 0, and of an empty one.
fn append_text(out: &mut Vec<u8>, octets: &[u8], number: u64) -> Result<(), AllocError> {
    let mut left = number;
    for line in octets.split(|octet| *octet == b'\n') {
        if left == 1 {
            return append_line(out, line.strip_suffix(b"\r").unwrap_or(line));
        }
        left = left.saturating_sub(1);
    }
    Ok(())
}

fn append_line(out: &mut Vec<u8>, line: &[u8]) -> Result<(), AllocError> {
    if line.is_empty() {
        return Ok(());
    }
    out.extend_from_slice(b": ")?;
    append_cut(out, line)
}

/// What is wrong with some octets, if something is.
fn found_in(alloc: Global, octets: &[u8], front: Front) -> Result<Option<Found>, AllocError> {
    if octets.is_empty() {
        return Ok(Some(Found::whole(Why::Empty)));
    }
    let Ok(text) = str::from_utf8(octets) else {
        return Ok(Some(Found::whole(why_no_text(octets))));
    };
    let mut named = Named::new(alloc);
    let mut number: u64 = 0;
    let mut end: usize = 0;
    for whole in text.split('\n') {
        let line = whole.strip_suffix('\r').unwrap_or(whole);
        number = number.saturating_add(1);
        end = end.saturating_add(whole.len()).saturating_add(1);
        if line.is_empty() {
            return Ok(named.ends_at(number, end, octets, front));
        }
        if let Some(why) = named.take(alloc, number, line, front)? {
            return Ok(Some(Found { line: number, why }));
        }
    }
    Ok(named.lacks(octets, front))
}

/// Of octets that aren't UTF-8: they are too long, where what was cut off is the reason.
fn why_no_text(octets: &[u8]) -> Why {
    if octets.len() > LONGEST {
        Why::TooLong
    } else {
        Why::NotUtf8
    }
}

impl Found {
    /// Of the whole.
    fn whole(why: Why) -> Found {
        Found { line: 0, why }
    }
}

impl Named {
    fn new(alloc: Global) -> Named {
        Named {
            rooms: Vec::new(alloc),
            zones: Vec::new(alloc),
            zone_lines: Vec::new(alloc),
            organisers: Vec::new(alloc),
            has_now: false,
        }
    }

    /// Takes one line more, or says what is wrong with it.
    fn take(
        &mut self,
        alloc: Global,
        number: u64,
        line: &str,
        front: Front,
    ) -> Result<Option<Why>, AllocError> {
        if let Some(stamp) = line.strip_prefix("now ") {
            return Ok(self.take_now(stamp, front));
        }
        if let Some(address) = line.strip_prefix("room ") {
            return take_room(alloc, &mut self.rooms, address);
        }
        if let Some(address) = line.strip_prefix("organiser ") {
            return take_organiser(alloc, &mut self.organisers, address);
        }
        if let Some(zone) = line.strip_prefix("zone ") {
            return self.take_zone(alloc, number, zone);
        }
        if line.starts_with("BEGIN:") {
            return Ok(Some(Why::NoEmptyLine));
        }
        Ok(Some(Why::UnknownWord))
    }

    fn take_now(&mut self, stamp: &str, front: Front) -> Option<Why> {
        if front == Front::Configuration {
            return Some(Why::NowHere);
        }
        if self.has_now {
            return Some(Why::SecondNow);
        }
        self.has_now = true;
        match Stamp::read(stamp) {
            Ok(_) => None,
            Err(_) => Some(Why::NoStamp),
        }
    }

    fn take_zone(
        &mut self,
        alloc: Global,
        number: u64,
        zone: &str,
    ) -> Result<Option<Why>, AllocError> {
        let Some((address, words)) = zone.split_once(' ') else {
            return Ok(Some(Why::NoZone));
        };
        let Some(address) = address_of(alloc, address)? else {
            return Ok(Some(Why::NoAddress));
        };
        if !is_zone(alloc, words)? {
            return Ok(Some(Why::NoZone));
        }
        if self.zones.len() >= MOST_ROOMS {
            return Ok(Some(Why::ManyZones));
        }
        if contains(self.zones.as_slice(), &address) {
            return Ok(Some(Why::SecondZone));
        }
        self.zones.push(address)?;
        self.zone_lines.push(number)?;
        Ok(None)
    }

    /// What is wrong where the line of this number is empty, which ends here.
    fn ends_at(&self, line: u64, end: usize, octets: &[u8], front: Front) -> Option<Found> {
        if end < octets.len() {
            return Some(Found {
                line,
                why: Why::MoreBehind,
            });
        }
        self.lacks(octets, front)
    }

    /// What is wrong once all lines are taken.
    fn lacks(&self, octets: &[u8], front: Front) -> Option<Found> {
        if octets.len() > LONGEST {
            return Some(Found::whole(Why::TooLong));
        }
        if let Some(line) = self.zone_of_no_room() {
            return Some(Found {
                line,
                why: Why::ZoneOfNoRoom,
            });
        }
        if self.rooms.is_empty() && self.organisers.is_empty() {
            return Some(Found::whole(Why::NoHost));
        }
        if front == Front::Stream && !self.has_now {
            return Some(Found::whole(Why::NoNow));
        }
        None
    }

    /// The line of the first zone whose room isn't named.
    fn zone_of_no_room(&self) -> Option<u64> {
        for (zone, line) in self.zones.iter().zip(self.zone_lines.iter()) {
            if !contains(self.rooms.as_slice(), zone) {
                return Some(*line);
            }
        }
        None
    }
}

/// Takes one room more.
fn take_room(
    alloc: Global,
    rooms: &mut Vec<Address>,
    text: &str,
) -> Result<Option<Why>, AllocError> {
    if rooms.len() >= MOST_ROOMS {
        return Ok(Some(Why::ManyRooms));
    }
    let Some(address) = address_of(alloc, text)? else {
        return Ok(Some(Why::NoAddress));
    };
    if contains(rooms.as_slice(), &address) {
        return Ok(Some(Why::SecondRoom));
    }
    rooms.push(address)?;
    Ok(None)
}

/// Takes one organiser more.
fn take_organiser(
    alloc: Global,
    organisers: &mut Vec<Address>,
    text: &str,
) -> Result<Option<Why>, AllocError> {
    if organisers.len() >= MOST_ORGANISERS {
        return Ok(Some(Why::ManyOrganisers));
    }
    let Some(address) = address_of(alloc, text)? else {
        return Ok(Some(Why::NoAddress));
    };
    if contains(organisers.as_slice(), &address) {
        return Ok(Some(Why::SecondOrganiser));
    }
    organisers.push(address)?;
    Ok(None)
}

fn contains(hosts: &[Address], address: &Address) -> bool {
    hosts.iter().any(|host| *host == *address)
}

/// The address that a text is, if it is one.
fn address_of(alloc: Global, text: &str) -> Result<Option<Address>, AllocError> {
    match Address::read(alloc, text) {
        Ok(address) => Ok(Some(address)),
        Err(Fault::Memory) => Err(AllocError),
        Err(Fault::Refused(_)) => Ok(None),
    }
}

/// Whether some words mean a zone.
fn is_zone(alloc: Global, words: &str) -> Result<bool, AllocError> {
    match RoomZone::read(alloc, words) {
        Ok(_) => Ok(true),
        Err(Fault::Memory) => Err(AllocError),
        Err(Fault::Refused(_)) => Ok(false),
    }
}

impl Why {
    /// Appends what it is, in words that follow the number of the line.
    fn append_words(self, out: &mut Vec<u8>) -> Result<(), AllocError> {
        let words = match self {
            Why::TooLong => return append_limit(
                out,
                "no empty line is among the first ",
                LONGEST,
                " octets",
            ),
            Why::ManyRooms => return append_limit(out, "it is one room more than ", MOST_ROOMS, ""),
            Why::ManyZones => return append_limit(out, "it is one zone more than ", MOST_ROOMS, ""),
            Why::ManyOrganisers => return append_limit(
                out,
                "it is one organiser more than ",
                MOST_ORGANISERS,
                "",
            ),
            Why::NotUtf8 => "the preamble isn't UTF-8",
            Why::Empty => "there is no preamble",
            Why::NoEmptyLine => "no empty line stands before the first object",
            Why::UnknownWord => "it doesn't begin with `now `, `room `, `zone ` or `organiser `",
            Why::NoStamp => "behind `now ` is no time such as 20250102T000000Z",
            Why::SecondNow => "it is a second `now`",
            Why::NowHere => "a configuration has no `now`",
            Why::NoAddress => "it has no address such as mailto:r1@example.com",
            Why::NoZone => "behind the address are no words that mean a zone",
            Why::SecondRoom => "a line before it names this room",
            Why::SecondZone => "a line before it gives this room a zone",
            Why::SecondOrganiser => "a line before it names this organiser",
            Why::ZoneOfNoRoom => "no line names this room",
            Why::MoreBehind => "it is empty, and more stands behind it",
            Why::NoNow => "no line is `now` and a time",
            Why::NoHost => "no line names a room or an organiser",
        };
        out.extend_from_slice(words.as_bytes())
    }
}

/// Appends words around a limit.
fn append_limit(
    out: &mut Vec<u8>,
    before: &str,
    limit: usize,
    behind: &str,
) -> Result<(), AllocError> {
    let mut digits = Buffer::new();
    out.extend_from_slice(before.as_bytes())?;
    out.extend_from_slice(digits.format(limit as u64).as_bytes())?;
    out.extend_from_slice(behind.as_bytes())
}

/// The preamble at the front of a stream: up to its empty line, if there is one.
pub fn preamble_in(octets: &[u8]) -> &[u8] {
    let mut length: usize = 0;
    for line in octets.split(|octet| *octet == b'\n') {
        length = length.saturating_add(line.len()).saturating_add(1);
        if matches!(line, [] | [b'\r']) {
            return &octets[..length.min(octets.len())];
        }
    }
    octets
}

/// The name of a file or of another device, as it is shown: in printable ASCII, and at most 200 octets of it.
pub fn shown_name(alloc: Global, name: &str) -> Result<Vec<u8>, AllocError>
    ensures { IfOk result (λ text. text.items ≡ cut_shown name.now) }
{
    shown_octets(alloc, name.as_bytes())
}

/// The same of a name that may be no text.
pub fn shown_octets(alloc: Global, name: &[u8]) -> Result<Vec<u8>, AllocError>
    ensures { IfOk result (λ text. text.items ≡ cut_shown name.now) }
{
    let mut text = Vec::new(alloc);
    append_cut(&mut text, name)?;
    Ok(text)
}
