//! The names of a box's files: `dddddddd-STAMP.ics`, eight digits and the moment at which it is answered, for a message in the inbox, and the same
//! with `.out` for its answers in the outbox. These names are roombox's own.

ghost use Rattle.std.specs.Prelude.{◌≡◌, ◌↔◌, ◌++◌, ◌&&◌, codes, length, string_bytes, IfOk, IsTrue, MatchOption};
ghost use Rattle.std.specs.List.{list_all};
ghost use Rattle.std.specs.Char.{is_ascii_digit};
ghost use Rattle.std.specs.Str.Parse.{AllDigits};
ghost use Rattle.sched_box.specs.FileNames.{IsCut, IsLeftAlone, IsNamed, IsNoName, name_end, name_stem, renamed};

use ical_values::Stamp;
use ical_values::stamp::one_stamp;
use std::alloc::{AllocError, Global};

/// The name of a message, and the moment that it says.
#[derive(Drop)]
pub struct MessageName {
    name: String,
    moment: Stamp,
    ghost ends: { string_bytes name ≡ name_stem (string_bytes name) ++ codes ".ics" },
}

impl MessageName {
    ghost use Rattle.std.specs.Prelude.{◌≡◌, ◌++◌, codes, string_bytes, IfOk, MatchOption};
    ghost use Rattle.sched_box.specs.FileNames.{IsNamed, IsNoName, renamed};

    /// Reads a name. None where it isn't of this form or its stamp is no date: such a file is left alone.
    pub fn read(name: String) -> Option<MessageName>
        ensures { MatchOption result (IsNoName (string_bytes name)) (λ file. (string_bytes file.name ≡ string_bytes name) × IsNamed (string_bytes name) file.moment) }
    {
        let moment = moment_of(name.as_str())?;
        Some(MessageName { name, moment })
    }

    /// The name in the inbox.
    pub fn name(&self) -> &str
        ensures { result.now ≡ string_bytes self.now.name }
    {
        self.name.as_str()
    }

    /// The moment at which the message is answered.
    pub fn moment(&self) -> Stamp
        ensures { result ≡ self.now.moment }
    {
        self.moment
    }

    /// The name of its answers in the outbox: the same stem and `.out`.
    pub fn answer_name(&self, alloc: Global) -> Result<String, AllocError>
        ensures { IfOk result (λ answer. string_bytes answer ≡ renamed (string_bytes self.now.name)) }
    {
        let stem = cut_end(self.name.as_str()).unwrap_or("");
        Ok(format!(in alloc; "{stem}.out")?)
    }
}

/// Whether a name ends as a message's does, in upper or lower case, and is none.
pub(crate) fn is_left_alone(name: &str) -> bool
    ensures { IsTrue result ↔ IsLeftAlone name.now }
{
    let ends = ends_as_message(name);
    let is_none = is_no_message(name);
    both(ends, is_none)
}

fn both(a: bool, b: bool) -> bool
    ensures { result ≡ (a && b) }
{
    a && b
}

/// Whether the last four octets are `.ics`, in upper or lower case.
fn ends_as_message(name: &str) -> bool
    ensures { IsTrue result ↔ (name_end name.now ≡ codes ".ics") }
{
    let octets = name.as_bytes();
    let end = &octets[octets.len().saturating_sub(4)..];
    end.eq_ignore_ascii_case(b".ics")
}

/// Whether it is the name of no message.
fn is_no_message(name: &str) -> bool
    ensures { IsTrue result ↔ IsNoName name.now }
{
    moment_of(name).is_none()
}

/// The moment that a name says, if it is of the form.
fn moment_of(name: &str) -> Option<Stamp>
    ensures { MatchOption result (IsNoName name.now) (IsNamed name.now) }
{
    one_stamp();
    let stem = cut_end(name)?;
    let (number, stamp) = stem.split_once('-')?;
    if !is_number(number.as_bytes()) {
        return None;
    }
    Stamp::read(stamp).ok()
}

/// What stands before `.ics`.
fn cut_end(name: &str) -> Option<&str>
    ensures { IsCut name.now result }
{
    name.strip_suffix(".ics")
}

/// Whether the octets are eight ASCII digits.
fn is_number(octets: &[u8]) -> bool
    ensures { IsTrue result ↔ (length octets.now ≡ 8) × AllDigits 10 octets.now }
{
    octets.len() == 8 && all_digits(octets)
}

fn all_digits(octets: &[u8]) -> bool
    ensures { result ≡ list_all is_ascii_digit octets.now }
{
    octets.iter().all(|octet| octet.is_ascii_digit())
}
