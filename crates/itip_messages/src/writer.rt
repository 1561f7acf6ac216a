//! An object that is being written, line by line (RFC 5545 3.1): each line folded, ended by CRLF.
ghost use Rattle.std.specs.Prelude.{◌≡◌, [], ◌++◌, codes, decimal, option_map, length, take, OnOk, OnErr};
ghost use Rattle.profile.specs.text.Lines.{folded, written};
ghost use Rattle.profile.specs.text.Values.{escaped};
ghost use Rattle.profile.specs.rooms.Messages.{opening_lines, method_lines};
ghost use Rattle.ical_values.specs.Octets.{text_octets};
ghost use Rattle.ical_values.specs.Written.{Appends};
ghost use Rattle.itip_messages.specs.Reply.{IsWrittenStampLine, text_now};

use ical_lines::fold::{write_line, write_pieces};
use ical_values::shown::{escaped_text, sequence_text, stamp_text};
use ical_values::{Sequence, Stamp, Text};
use std::alloc::{AllocError, Global};
use std::marker::Model;

/// The octets of a usual object, for which room is made at once: a reply with one answer has some 350.
const USUAL: usize = 512;

/// The lines written so far. A call for which memory is refused leaves them as they were.
#[derive(Drop)]
pub struct ObjectWriter {
    octets: Vec<u8>,
}

impl Model for ObjectWriter {
    ghost use Rattle.std.specs.Prelude.{List, ℕ};

    ghost Value = { List ℕ };

    ghost view = { λ writer. writer.octets.items };
}

impl ObjectWriter {
    /// No lines yet.
    pub fn new(alloc: Global) -> ObjectWriter
        ensures { result ≡ [] }
    {
        ObjectWriter {
            octets: Vec::new(alloc),
        }
    }

    /// The octets of the lines written.
    pub fn finish(self) -> Vec<u8>
        ensures { result.items ≡ self }
    {
        self.octets
    }

    /// The allocator that the lines are kept with.
    pub fn alloc(&self) -> Global {
        *self.octets.allocator()
    }

    /// How many octets are written.
    pub(crate) fn len(&self) -> usize
        ensures { result ≡ length self.now }
    {
        self.octets.len()
    }

    /// Takes back all but the first octets.
    pub(crate) fn truncate(&mut self, kept: usize)
        ensures { self.new ≡ take kept self.old }
    {
        self.octets.truncate(kept);
    }

    /// The first lines of each object: BEGIN, VERSION and PRODID, and METHOD where there is one.
    pub fn begin_calendar(&mut self, method: Option<&str>) -> Result<(), AllocError>
        ensures ok { OnOk result (self.new ≡ self.old ++ written (opening_lines (option_map text_now method.entry))) }
        ensures err { OnErr result (self.new ≡ self.old) }
    {
        let kept = self.len();
        match self.opening(method) {
            Ok(()) => Ok(()),
            Err(error) => {
                self.truncate(kept);
                Err(error)
            }
        }
    }

    /// As `begin_calendar`. On an error some of the lines may have been written.
    fn opening(&mut self, method: Option<&str>) -> Result<(), AllocError>
        ensures ok { OnOk result (self.new ≡ self.old ++ written (opening_lines (option_map text_now method.entry))) }
        ensures keeps { take (length self.old) self.new ≡ self.old }
    {
        self.octets.reserve(USUAL)?;
        self.line("BEGIN:VCALENDAR")?;
        self.line("VERSION:2.0")?;
        self.line("PRODID:-//iTIP room box//EN")?;
        self.method(method)?;
        Ok(())
    }

    /// METHOD, where there is one.
    fn method(&mut self, method: Option<&str>) -> Result<(), AllocError>
        ensures ok { OnOk result (self.new ≡ self.old ++ written (method_lines (option_map text_now method.entry))) }
        ensures err { OnErr result (self.new ≡ self.old) }
    {
        match method {
            Some(method) => self.named("METHOD:", method),
            None => Ok(()),
        }
    }

    /// The last line of each object.
    pub fn end_calendar(&mut self) -> Result<(), AllocError>
        ensures ok { OnOk result (self.new ≡ self.old ++ folded (codes "END:VCALENDAR")) }
        ensures err { OnErr result (self.new ≡ self.old) }
    {
        self.line("END:VCALENDAR")
    }

    /// One line, as it is.
    pub fn line(&mut self, text: &str) -> Result<(), AllocError>
        ensures ok { OnOk result (self.new ≡ self.old ++ folded text.now) }
        ensures err { OnErr result (self.new ≡ self.old) }
    {
        write_line(&mut self.octets, text)
    }

    /// Octets, as they are.
    pub fn octets(&mut self, octets: &[u8]) -> Result<(), AllocError>
        ensures ok { OnOk result (self.new ≡ self.old ++ octets.now) }
        ensures err { OnErr result (self.new ≡ self.old) }
    {
        self.octets.extend_from_slice(octets)
    }

    /// A line of two pieces: a name with its parameters and colon, and a value that is written as it is.
    pub fn named(&mut self, name: &str, value: &str) -> Result<(), AllocError>
        ensures ok { OnOk result (self.new ≡ self.old ++ folded (name.now ++ value.now)) }
        ensures err { OnErr result (self.new ≡ self.old) }
    {
        write_pieces(&mut self.octets, name, value)
    }

    /// UID, with its escapes.
    pub fn uid(&mut self, uid: &Text) -> Result<(), AllocError>
        ensures ok { OnOk result (self.new ≡ self.old ++ folded (codes "UID:" ++ escaped (text_octets uid.now))) }
        ensures err { OnErr result (self.new ≡ self.old) }
    {
        let text = escaped_text(self.alloc(), uid)?;
        self.named("UID:", text.as_str())
    }

    /// SUMMARY, with its escapes.
    pub fn summary(&mut self, summary: &Text) -> Result<(), AllocError>
        ensures ok { OnOk result (self.new ≡ self.old ++ folded (codes "SUMMARY:" ++ escaped (text_octets summary.now))) }
        ensures err { OnErr result (self.new ≡ self.old) }
    {
        let text = escaped_text(self.alloc(), summary)?;
        self.named("SUMMARY:", text.as_str())
    }

    /// SEQUENCE, in digits.
    pub fn sequence(&mut self, sequence: Sequence) -> Result<(), AllocError>
        ensures ok { OnOk result (self.new ≡ self.old ++ folded (codes "SEQUENCE:" ++ decimal sequence)) }
        ensures err { OnErr result (self.new ≡ self.old) }
    {
        let text = sequence_text(self.alloc(), sequence)?;
        self.named("SEQUENCE:", text.as_str())
    }

    /// A line of a name with its colon, and a UTC stamp.
    pub fn stamp(&mut self, name: &str, stamp: Stamp) -> Result<(), AllocError>
        ensures ok { OnOk result (Appends self.old self.new (IsWrittenStampLine name.now stamp)) }
        ensures err { OnErr result (self.new ≡ self.old) }
    {
        let text = stamp_text(self.alloc(), stamp)?;
        self.named(name, text.as_str())
    }
}
