//! Refusals: the one error convention of all crates. A number is printed at the edge and named here.
ghost use Rattle.std.specs.Prelude.{◌≡◌};
ghost use Rattle.ical_lines.specs.declared.fault.Fault.TheVariants.{Refused, Memory};

use std::alloc::{AllocError, AllocFailed};
use thiserror::Error;

/// Why an input is refused, by the number that is printed for it, and at which line of it.
#[derive(Clone, Copy, Debug, PartialEq, Eq, Drop, Error)]
#[error("refused {number}")]
pub struct Refusal {
    pub number: u8,
    /// The number of the logical line at which reading stopped, from 1; 0 where there is none, or where it isn't known yet.
    line: usize,
}

impl Refusal {
    ghost use Rattle.std.specs.Prelude.{◌≡◌};
    ghost use Rattle.ical_lines.specs.Fault.{refusal_at};

    /// A content line without a colon (RFC 5545 3.1).
    pub const NO_COLON: Refusal = Refusal { number: 1, line: 0 };
    /// A name of a property or a parameter that isn't letters, digits and `-`, at least one (RFC 5545 3.1).
    pub const BAD_NAME: Refusal = Refusal { number: 2, line: 0 };
    /// A quoted parameter value that isn't closed, or a quote inside a bare one (RFC 5545 3.1).
    pub const BAD_QUOTE: Refusal = Refusal { number: 3, line: 0 };
    /// A control octet other than TAB, or a CR that ends no line (RFC 5545 3.1).
    pub const CONTROL: Refusal = Refusal { number: 4, line: 0 };
    /// The unfolded octets aren't UTF-8 (RFC 5545 3.1.4).
    pub const NOT_UTF8: Refusal = Refusal { number: 5, line: 0 };
    /// More than 1,048,576 octets or 65,536 lines; this profile's choice.
    pub const TOO_LONG: Refusal = Refusal { number: 6, line: 0 };
    /// Not a UTC date-time (RFC 5545 3.3.5, form 2).
    pub const BAD_STAMP: Refusal = Refusal {
        number: 10,
        line: 0,
    };
    /// Not a date-time, or a form that doesn't go with its parameters (RFC 5545 3.3.5).
    pub const BAD_DATE_TIME: Refusal = Refusal {
        number: 11,
        line: 0,
    };
    /// Not a duration (RFC 5545 3.3.6).
    pub const BAD_DURATION: Refusal = Refusal {
        number: 12,
        line: 0,
    };
    /// Not a UTC offset; `-0000` isn't one (RFC 5545 3.3.14).
    pub const BAD_OFFSET: Refusal = Refusal {
        number: 13,
        line: 0,
    };
    /// A UID of no octets or more than 1,024 (RFC 5545 3.8.4.7; the bound is this profile's).
    pub const BAD_UID: Refusal = Refusal {
        number: 14,
        line: 0,
    };
    /// Not a calendar address, or more than 1,024 octets (RFC 5545 3.3.3; the bound is this profile's).
    pub const BAD_ADDRESS: Refusal = Refusal {
        number: 15,
        line: 0,
    };
    /// Not a whole number from 0 to 2,147,483,647 (RFC 5545 3.8.7.4).
    pub const BAD_SEQUENCE: Refusal = Refusal {
        number: 16,
        line: 0,
    };
    /// An END without its BEGIN (RFC 5545 3.6).
    pub const STRAY_END: Refusal = Refusal {
        number: 20,
        line: 0,
    };
    /// A BEGIN without its END (RFC 5545 3.6).
    pub const NOT_CLOSED: Refusal = Refusal {
        number: 21,
        line: 0,
    };
    /// Components nested more than 8 deep; this profile's choice.
    pub const TOO_DEEP: Refusal = Refusal {
        number: 22,
        line: 0,
    };
    /// No VCALENDAR, or something outside it (RFC 5545 3.4).
    pub const NOT_ONE_CALENDAR: Refusal = Refusal {
        number: 23,
        line: 0,
    };
    /// VERSION missing, twice or not `2.0` (RFC 5545 3.7.4).
    pub const BAD_VERSION: Refusal = Refusal {
        number: 24,
        line: 0,
    };
    /// More than 200 VEVENTs in one message; this profile's choice.
    pub const TOO_MANY_EVENTS: Refusal = Refusal {
        number: 25,
        line: 0,
    };
    /// A part of a rule that is unknown or not supported, or a text that isn't parts (RFC 5545 3.3.10).
    pub const UNKNOWN_RULE_PART: Refusal = Refusal {
        number: 30,
        line: 0,
    };
    /// A value of a rule's part that isn't one, is out of its range, or is a list that is too long (RFC 5545 3.3.10).
    pub const BAD_RULE_VALUE: Refusal = Refusal {
        number: 31,
        line: 0,
    };
    /// Parts of a rule that don't go together, a part twice, or no FREQ (RFC 5545 3.3.10).
    pub const BAD_RULE_PARTS: Refusal = Refusal {
        number: 32,
        line: 0,
    };
    /// COUNT beside UNTIL (RFC 5545 3.3.10).
    pub const TWO_RULE_ENDS: Refusal = Refusal {
        number: 33,
        line: 0,
    };
    /// A DTSTART that its own rule doesn't give; the standard calls that set undefined (RFC 5545 3.8.5.3).
    pub const START_OUTSIDE_RULE: Refusal = Refusal {
        number: 34,
        line: 0,
    };
    /// A VTIMEZONE of a shape that isn't one of those accepted (RFC 5545 3.6.5; the shapes are this profile's choice).
    pub const ZONE_SHAPE: Refusal = Refusal {
        number: 40,
        line: 0,
    };
    /// TZOFFSETFROM and TZOFFSETTO that don't match, or are more than 12 hours apart; this profile's choice.
    pub const ZONE_OFFSETS: Refusal = Refusal {
        number: 41,
        line: 0,
    };
    /// Onsets of a VTIMEZONE less than two days apart; this profile's choice.
    pub const ZONE_ONSETS: Refusal = Refusal {
        number: 42,
        line: 0,
    };
    /// No VTIMEZONE of the object has the name that TZID gives (RFC 5545 3.2.19).
    pub const NO_ZONE: Refusal = Refusal {
        number: 43,
        line: 0,
    };
    /// X-ROOM-ZONE twice, or words that mean no zone of a room; this profile's own form.
    pub const ROOM_ZONE: Refusal = Refusal {
        number: 44,
        line: 0,
    };
    /// DTEND before DTSTART (RFC 5545 3.8.2.2).
    pub const END_BEFORE_START: Refusal = Refusal {
        number: 50,
        line: 0,
    };
    /// A duration past 366 days, or a negative one; this profile's choice.
    pub const LONG_OR_NEGATIVE: Refusal = Refusal {
        number: 51,
        line: 0,
    };
    /// A time before 1970 or not before 10000-01-01T00:00:00Z; this profile's choice.
    pub const OUT_OF_DATES: Refusal = Refusal {
        number: 52,
        line: 0,
    };
    /// Two VEVENTs of one meeting without RECURRENCE-ID (RFC 5545 3.8.4.4).
    pub const TWO_MASTERS: Refusal = Refusal {
        number: 53,
        line: 0,
    };
    /// Two VEVENTs of one meeting with one RECURRENCE-ID (RFC 5545 3.8.4.4).
    pub const TWO_OVERRIDES: Refusal = Refusal {
        number: 54,
        line: 0,
    };
    /// An RDATE or EXDATE of more than 366 entries, or a PERIOD (RFC 5545 3.8.5.2; the bound is this profile's).
    pub const LIST_OR_PERIOD: Refusal = Refusal {
        number: 56,
        line: 0,
    };
    /// DTEND or DURATION doesn't go with the form of DTSTART (RFC 5545 3.8.2.2, 3.8.2.5), or a RECURRENCE-ID that isn't fixed where it has to be;
    /// the latter is this profile's choice.
    pub const OTHER_FORM: Refusal = Refusal {
        number: 57,
        line: 0,
    };
    /// A METHOD that isn't supported (RFC 5546 1.4).
    pub const BAD_METHOD: Refusal = Refusal {
        number: 60,
        line: 0,
    };
    /// A property that is missing, occurs twice or excludes another (RFC 5545 3.6.1).
    pub const BAD_PROPERTY: Refusal = Refusal {
        number: 61,
        line: 0,
    };
    /// Two UIDs or two ORGANIZERs in one message (RFC 5546 3.2).
    pub const TWO_MEETINGS: Refusal = Refusal {
        number: 62,
        line: 0,
    };
    /// A message without ORGANIZER (RFC 5546 3.2).
    pub const NO_ORGANIZER: Refusal = Refusal {
        number: 63,
        line: 0,
    };
    /// A VEVENT of a REPLY or a REFRESH that doesn't have one attendee (RFC 5546 3.2.3, 3.2.6).
    pub const NOT_ONE_ATTENDEE: Refusal = Refusal {
        number: 64,
        line: 0,
    };
    /// RECURRENCE-ID with RANGE (RFC 5545 3.2.13, 3.8.4.4).
    pub const RANGE: Refusal = Refusal {
        number: 65,
        line: 0,
    };
    /// No VEVENT (RFC 5546 3.2).
    pub const NO_EVENT: Refusal = Refusal {
        number: 66,
        line: 0,
    };
    /// RRULE or RDATE beside RECURRENCE-ID: a single instance doesn't recur (RFC 5545 3.8.4.4).
    pub const RECURRING_INSTANCE: Refusal = Refusal {
        number: 67,
        line: 0,
    };
    /// An ORGANIZER that isn't hosted.
    pub const NOT_HOSTED: Refusal = Refusal {
        number: 70,
        line: 0,
    };
    /// A REPLY to a SEQUENCE that wasn't sent yet, or a REPLY or a REFRESH for a meeting that isn't known (RFC 5546 2.1.4).
    pub const NOT_SENT: Refusal = Refusal {
        number: 71,
        line: 0,
    };
    /// A store for which no greater SEQUENCE is left (RFC 5545 3.8.7.4).
    pub const SEQUENCE_SPENT: Refusal = Refusal {
        number: 72,
        line: 0,
    };
    /// A REPLY or a REFRESH of one who isn't an attendee of the meeting (RFC 5546 3.2.3, 3.2.6).
    pub const NOT_AN_ATTENDEE: Refusal = Refusal {
        number: 73,
        line: 0,
    };
    /// A preamble or a configuration that can't be read.
    pub const BAD_PREAMBLE: Refusal = Refusal {
        number: 90,
        line: 0,
    };

    /// The number of the logical line at which reading stopped, from 1; 0 where there is none.
    pub fn line(self) -> usize
        ensures { result ≡ self.line }
    {
        self.line
    }

    /// The same refusal at the logical line of this number.
    pub fn at(self, line: usize) -> Refusal
        ensures { result ≡ refusal_at line self }
    {
        Refusal {
            number: self.number,
            line,
        }
    }
}

/// How a call that reads can fail. Either way nothing has changed.
#[derive(Clone, Copy, Debug, PartialEq, Eq, Drop, Error)]
pub enum Fault {
    /// The input is refused.
    #[error(transparent)]
    Refused(Refusal),
    /// The memory that was asked for was refused.
    #[error("out of memory")]
    Memory,
}

impl Fault {
    ghost use Rattle.std.specs.Prelude.{◌≡◌};
    ghost use Rattle.ical_lines.specs.Fault.{fault_at};

    /// The same fault; a refusal is at the logical line of this number.
    pub fn at(self, line: usize) -> Fault
        ensures { result ≡ fault_at line self }
    {
        match self {
            Fault::Refused(refusal) => Fault::Refused(refusal.at(line)),
            Fault::Memory => Fault::Memory,
        }
    }
}

impl From<Refusal> for Fault {
    ghost from_gives = { λ r e. e ≡ Refused r };

    fn from(refusal: Refusal) -> Fault {
        Fault::Refused(refusal)
    }
}

impl From<AllocError> for Fault {
    ghost from_gives = { λ _ e. e ≡ Memory };

    fn from(_error: AllocError) -> Fault {
        Fault::Memory
    }
}

impl<T: Drop> From<AllocFailed<T>> for Fault {
    ghost from_gives = { λ _ e. e ≡ Memory };

    fn from(_error: AllocFailed<T>) -> Fault {
        Fault::Memory
    }
}
