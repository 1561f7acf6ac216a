//! The cut of a stream into objects (RFC 5545 3.4; where an object ends is this profile's choice).
//! An object ends with the first unfolded line that is caselessly `END:VCALENDAR`, its line break included, or with
//! the input. A line may still be continued after its line break, so one more octet has to be seen.
ghost use Rattle.std.specs.Prelude.{◌≡◌, ◌≤◌, [], length, take, drop, MatchOption, is_some, if◌then◌else◌};
ghost use Rattle.profile.specs.text.Objects.{after_object, is_begun};
ghost use Rattle.ical_lines.specs.Cut.{
  ChangeNothing,
  added,
  after_break,
  after_line,
  after_mark,
  after_return,
  at_place,
  at_start,
  ends_before,
  fresh,
  is_blank,
  is_whole,
  next_seen,
  step,
};

use memchr::memchr2;

/// The line that ends an object, in lower case.
const LAST_LINE: [u8; 13] = *b"end:vcalendar";

/// The number of octets of the line that ends an object.
const LAST_LENGTH: u8 = 13;

/// How much of the logical line that has begun is the beginning of `END:VCALENDAR`.
#[derive(Clone, Copy)]
enum Seen {
    /// The line is this many of its first octets.
    First(u8),
    /// The line is something else.
    Other,
}

/// Where the octets so far have come to.
#[derive(Clone, Copy)]
enum CutPlace {
    /// This many octets of a byte order mark were seen, and nothing else.
    Mark(u8),
    /// Inside a physical line.
    Line,
    /// After a CR, which is part of the line unless an LF or the end of the input follows.
    Return,
    /// After an LF: a space or a tab would continue the line.
    Break,
}

/// Finds the end of one object, octet by octet, in constant space.
///
/// Begin with `Cutter::new()` at the first octet of an object and call `feed` with each octet in turn; those that
/// `idle` counts may be left out.
/// Where `feed` answers true, the object ended before that octet: the octet is the first of the next object,
/// so give it to the `feed` of a new `Cutter` (which answers false). Where the input ends instead, `has_begun`
/// says whether the octets so far are an object; if not, they are only empty lines, which aren't an object.
#[derive(Clone, Copy)]
pub struct Cutter {
    place: CutPlace,
    seen: Seen,
    begun: bool,
}

impl Cutter {
    /// At the start of an object, before its first octet.
    pub fn new() -> Cutter
        ensures { result ≡ fresh }
    {
        Cutter {
            place: CutPlace::Mark(0),
            seen: Seen::First(0),
            begun: false,
        }
    }

    /// Takes the next octet, and returns whether the object ended before it.
    /// After true the cutter is as it was: a new one is made for the next object.
    pub fn feed(&mut self, octet: u8) -> bool
        ensures ended { result ≡ ends_before self.old octet }
        ensures after { self.new ≡ (if ends_before self.old octet then self.old else step self.old octet) }
    {
        let ended = self.ends_before(octet);
        if !ended {
            *self = self.step(octet);
        }
        ended
    }

    /// How many of the octets that come next need not be fed, since they change nothing: they go on with a line that is
    /// known to be something else than `END:VCALENDAR`, up to its next CR or LF.
    pub fn idle(&self, octets: &[u8]) -> usize
        ensures within { result ≤ length octets.now }
        ensures idle { ChangeNothing self.now (take result octets.now) }
    {
        match (self.place, self.seen) {
            (CutPlace::Line, Seen::Other) if self.begun => {
                memchr2(b'\r', b'\n', octets).unwrap_or(octets.len())
            }
            _ => 0,
        }
    }

    /// Whether the octets so far hold more than empty lines. A byte order mark is more.
    pub fn has_begun(&self) -> bool
        ensures { result ≡ self.now.begun }
    {
        self.begun
    }

    /// Whether the object ended before this octet.
    fn ends_before(&self, octet: u8) -> bool
        ensures { result ≡ ends_before self.now octet }
    {
        match self.place {
            CutPlace::Break => !is_blank(octet) && is_whole(self.seen),
            _ => false,
        }
    }

    /// The cutter after one more octet.
    fn step(&self, octet: u8) -> Cutter
        ensures { result ≡ step self.now octet }
    {
        match self.place {
            CutPlace::Mark(count) => self.after_mark(count, octet),
            CutPlace::Line => self.after_line(octet),
            CutPlace::Return => self.after_return(octet),
            CutPlace::Break => self.after_break(octet),
        }
    }

    /// After an octet that follows this many of a byte order mark.
    fn after_mark(&self, count: u8, octet: u8) -> Cutter
        ensures { result ≡ after_mark count self.now octet }
    {
        if count == 0 && octet == 0xEF {
            self.added(octet).at(CutPlace::Mark(1))
        } else if count == 1 && octet == 0xBB {
            self.added(octet).at(CutPlace::Mark(2))
        } else if count == 2 && octet == 0xBF {
            self.at_start().at(CutPlace::Line)
        } else {
            self.after_line(octet)
        }
    }

    /// After an octet inside a physical line.
    fn after_line(&self, octet: u8) -> Cutter
        ensures { result ≡ after_line self.now octet }
    {
        if octet == b'\n' {
            self.at(CutPlace::Break)
        } else if octet == b'\r' {
            self.at(CutPlace::Return)
        } else {
            self.added(octet).at(CutPlace::Line)
        }
    }

    /// After an octet that follows a CR.
    fn after_return(&self, octet: u8) -> Cutter
        ensures { result ≡ after_return self.now octet }
    {
        if octet == b'\n' {
            self.after_line(octet)
        } else {
            self.added(b'\r').after_line(octet)
        }
    }

    /// After an octet that follows an LF: it continues the line, or begins another.
    fn after_break(&self, octet: u8) -> Cutter
        ensures { result ≡ after_break self.now octet }
    {
        if is_blank(octet) {
            self.at(CutPlace::Line)
        } else {
            self.at_start().after_line(octet)
        }
    }

    /// With one more octet in the logical line that has begun.
    fn added(&self, octet: u8) -> Cutter
        ensures { result ≡ added self.now octet }
    {
        Cutter {
            place: self.place,
            seen: next_seen(self.seen, octet),
            begun: true,
        }
    }

    /// The same at another place.
    fn at(&self, place: CutPlace) -> Cutter
        ensures { result ≡ at_place place self.now }
    {
        Cutter {
            place,
            seen: self.seen,
            begun: self.begun,
        }
    }

    /// At the start of a logical line.
    fn at_start(&self) -> Cutter
        ensures { result ≡ at_start self.now }
    {
        Cutter {
            place: self.place,
            seen: Seen::First(0),
            begun: self.begun,
        }
    }
}

/// How much is seen of `END:VCALENDAR` with one more octet.
fn next_seen(seen: Seen, octet: u8) -> Seen
    ensures { result ≡ next_seen seen octet }
{
    match seen {
        Seen::First(count) => {
            if count < LAST_LENGTH && octet.to_ascii_lowercase() == LAST_LINE[count as usize] {
                Seen::First(count + 1)
            } else {
                Seen::Other
            }
        }
        Seen::Other => Seen::Other,
    }
}

/// Whether the line is all of `END:VCALENDAR`.
fn is_whole(seen: Seen) -> bool
    ensures { result ≡ is_whole seen }
{
    match seen {
        Seen::First(count) => count == LAST_LENGTH,
        Seen::Other => false,
    }
}

/// Whether an octet continues a line at the start of a physical line.
fn is_blank(octet: u8) -> bool
    ensures { result ≡ is_blank octet }
{
    octet == b' ' || octet == b'\t'
}

/// How many octets the first object has, its last line break included.
/// None where only empty lines are left. It takes no memory.
pub fn cut(bytes: &[u8]) -> Option<usize>
    ensures rest { MatchOption result
        (after_object bytes.now ≡ [])
        (λ n. (n ≤ length bytes.now) × (drop n bytes.now ≡ after_object bytes.now)) }
    ensures begun { is_some result ≡ is_begun bytes.now }
{
    let mut cutter = Cutter::new();
    for (place, octet) in bytes.iter().enumerate() {
        if cutter.feed(*octet) {
            return Some(place);
        }
    }
    if cutter.has_begun() {
        Some(bytes.len())
    } else {
        None
    }
}
