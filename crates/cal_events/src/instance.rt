//! Instances: a meeting's hold on the room for one span of time, and which one it is.
ghost use Rattle.std.specs.Prelude.{◌≡◌};
ghost use Rattle.cal_events.specs.Calendar.{key_of, owned_key_of};

use crate::sweep::Span;
use ical_values::{Address, Text};

/// The instant from which on nothing is compared: 10000-01-01T00:00:00Z, in seconds from
/// 1970-01-01T00:00:00Z. This profile's choice.
pub const HORIZON: i64 = 253_402_300_800;

/// Which instance of which meeting: the organiser, the UID (RFC 5545 3.8.4.3, 3.8.4.7) and the
/// original start in seconds. Keys are in order by organiser and UID as octets, and then by slot.
#[derive(Clone, Copy, PartialEq, Eq, PartialOrd, Ord)]
pub struct InstanceKey<'a> {
    pub organiser: &'a str,
    pub uid: &'a str,
    pub slot: i64,
}

/// A meeting holds the room from `start` on and before `end`, in seconds (RFC 5545 3.6.1).
#[derive(Clone, Copy, PartialEq, Eq)]
pub struct Instance<'a> {
    pub key: InstanceKey<'a>,
    pub start: i64,
    pub end: i64,
}

/// An instance of an event that is known: its original start (RFC 5545 3.8.4.4), and when it takes place. Seconds from
/// 1970-01-01T00:00:00Z.
#[derive(Clone, Copy, PartialEq, Eq)]
pub struct Single {
    pub slot: i64,
    pub span: Span,
}

/// A key that owns its texts.
#[derive(Clone, Drop)]
pub struct OwnedKey {
    pub organiser: Address,
    pub uid: Text,
    pub slot: i64,
}

impl OwnedKey {
    /// The key, with its texts borrowed.
    pub fn lend(&self) -> InstanceKey<'_>
        ensures { key_of result ≡ owned_key_of self.now }
    {
        InstanceKey {
            organiser: self.organiser.as_str(),
            uid: self.uid.as_str(),
            slot: self.slot,
        }
    }
}
