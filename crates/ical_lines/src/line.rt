//! One content line: `name *(";" param) ":" value` (RFC 5545 3.1).
ghost use Rattle.std.specs.Prelude.{◌≡◌, ◌==◌, ◌%◌, count_by, option_map, true, IsTrue};
ghost use Rattle.std.specs.List.{list_any};
ghost use Rattle.profile.specs.text.Lines.{line_name, line_params, is_quote, has_control};
ghost use Rattle.ical_lines.specs.Breaks.{is_one_line, value_or_none};
ghost use Rattle.ical_lines.specs.Plain.{IsPlain};
ghost use Rattle.ical_lines.specs.PiecesOf.{pieces_of};

use crate::fault::{Fault, Refusal};
use crate::name::{is_name, is_name_octet};
use crate::param::{Param, Params, fault_of};
use crate::pieces::{Pieces, split_mark, split_outside};

/// A content line, unfolded, without its line break, and its number. It borrows its text; its parts are found once, when it is made.
#[derive(Clone, Copy)]
pub struct Line<'a> {
    text: &'a str,
    /// Its number among the logical lines of its octets, from 1; 0 of a line by itself.
    number: usize,
    /// What comes before the parameters and the colon.
    name: &'a str,
    /// What is between the name's semicolon and the colon; None where the name has no semicolon.
    params: Option<&'a str>,
    /// What comes after the colon; None where there is none.
    value: Option<&'a str>,
    ghost one_line: { is_one_line text.now ≡ true },
    ghost has_name: { name.now ≡ line_name text.now },
    ghost has_params: { pieces_of 59 (option_map (λ after. after.now) params) ≡ line_params text.now },
    ghost has_value: { option_map (λ after. after.now) value ≡ value_or_none text.now },
}

impl<'a> Line<'a> {
    ghost use Rattle.std.specs.Prelude.{◌≡◌, true, false, map, option_map, MatchOption, MatchResult, Ok, IfSome, IsTrue};
    ghost use Rattle.ical_lines.specs.Fault.{IsPlacedAt, IsFaultAt};
    ghost use Rattle.profile.specs.text.Lines.{line_name, line_value, line_params, line_param, is_same_name, is_faulty, lacks_colon, line_has};
    ghost use Rattle.profile.specs.faults.Faults.{is_line_fault};
    ghost use Rattle.profile.specs.faults.First.{least_fault};
    ghost use Rattle.ical_lines.specs.Breaks.{is_one_line};
    ghost use Rattle.ical_lines.specs.Pieces.{pieces_left};
    ghost use Rattle.ical_lines.specs.Text.{line_text, params_left, param_of};

    /// The line of a text, None where the text holds a line break.
    pub fn read(text: &'a str) -> Option<Line<'a>>
        ensures { MatchOption result (is_one_line text.now ≡ false) (λ line. line_text line ≡ text.now) }
    {
        if text.as_bytes().contains(&b'\n') {
            return None;
        }
        Some(Line::of(text, 0))
    }

    /// The line of a text that holds no line break, of this number.
    pub(crate) fn of(text: &'a str, number: usize) -> Line<'a>
        requires { is_one_line text.now ≡ true }
        ensures text { line_text result ≡ text.now }
        ensures number { result.number ≡ number }
    {
        let (name, rest) = split_mark(text);
        if let Some(value) = rest.strip_prefix(':') {
            return Line {
                text,
                number,
                name,
                params: None,
                value: Some(value),
            };
        }
        if let Some(after) = rest.strip_prefix(';') {
            let (params, value) = split_outside(after, b':');
            return Line {
                text,
                number,
                name,
                params: Some(params),
                value,
            };
        }
        Line::with_quoted_name(text, number)
    }

    /// The line of a text whose first mark is a quote, or that has none.
    #[inline(never)]
    fn with_quoted_name(text: &'a str, number: usize) -> Line<'a>
        requires { is_one_line text.now ≡ true }
        ensures text { line_text result ≡ text.now }
        ensures number { result.number ≡ number }
    {
        let (head, value) = split_outside(text, b':');
        let (name, params) = split_outside(head, b';');
        Line {
            text,
            number,
            name,
            params,
            value,
        }
    }

    /// The whole line, without its line break.
    pub fn text(&self) -> &'a str
        ensures value { result.now ≡ line_text self.now }
        ensures one_line { is_one_line result.now ≡ true }
    {
        self.text
    }

    /// Its number among the logical lines of its octets, from 1; 0 of a line by itself.
    pub fn number(&self) -> usize
        ensures { result ≡ self.now.number }
    {
        self.number
    }

    /// What was read of the line; a refusal is at this line.
    pub fn placed<T>(&self, read: Result<T, Refusal>) -> Result<T, Refusal>
        ensures { MatchResult result (λ value. read ≡ Ok value) (IsPlacedAt self.now.number read) }
    {
        match read {
            Ok(value) => Ok(value),
            Err(refusal) => Err(refusal.at(self.number)),
        }
    }

    /// What was read of the line with memory; a refusal is at this line.
    pub fn placed_fault<T>(&self, read: Result<T, Fault>) -> Result<T, Fault>
        ensures { MatchResult result (λ value. read ≡ Ok value) (IsFaultAt self.now.number read) }
    {
        match read {
            Ok(value) => Ok(value),
            Err(fault) => Err(fault.at(self.number)),
        }
    }

    /// The name of the property, in the case in which it is written.
    pub fn name(&self) -> &'a str
        ensures { result.now ≡ line_name (line_text self.now) }
    {
        self.name
    }

    /// The parameters, in order. It takes no memory.
    pub fn params(&self) -> Params<'a>
        ensures { params_left result ≡ map param_of (line_params (line_text self.now)) }
    {
        Params::of(self.pieces())
    }

    /// The parameters as they are written.
    fn pieces(&self) -> Pieces<'a>
        ensures { pieces_left result ≡ line_params (line_text self.now) }
    {
        Pieces::left(self.params, b';')
    }

    /// The octets after the colon, as they are written.
    pub fn value(&self) -> &'a str
        ensures { result.now ≡ line_value (line_text self.now) }
    {
        self.value.unwrap_or("")
    }

    /// Whether the line's name is this one; ASCII letters are compared caseless.
    pub fn is_named(&self, name: &str) -> bool
        ensures { result ≡ is_same_name (line_name (line_text self.now)) name.now }
    {
        self.name.eq_ignore_ascii_case(name)
    }

    /// The first value of the first parameter of this name, its quotes taken off.
    /// Names are compared caseless. None where no parameter has the name.
    pub fn param(&self, name: &str) -> Option<&'a str>
        ensures { option_map (λ x. x.now) result ≡ line_param name.now (line_text self.now) }
    {
        for piece in self.pieces() {
            let param = Param::of(piece);
            if param.name.eq_ignore_ascii_case(name) {
                return Some(param.first_value());
            }
        }
        None
    }

    /// The least of the faults 1 to 4 in the line of a text that has no line break. Nearly every line is a name, a colon and
    /// a value: of these the name is gone over once, and no other part is looked for.
    pub(crate) fn fault_in(text: &'a str) -> Option<Refusal>
        requires { is_one_line text.now ≡ true }
        ensures fault { MatchOption result (is_faulty text.now ≡ false) (λ refusal. IsTrue (line_has refusal.number text.now)) }
        ensures least { option_map (λ refusal. refusal.number) result ≡ least_fault text.now }
        ensures refuses { IfSome result (λ refusal. IsTrue (is_line_fault refusal.number)) }
    {
        if !is_plain(text.as_bytes()) {
            return Line::of(text, 0).fault();
        }
        if has_control(text.as_bytes()) {
            return Some(Refusal::CONTROL);
        }
        None
    }

    /// The least of the faults 1 to 4 in the line.
    fn fault(&self) -> Option<Refusal>
        ensures fault { MatchOption result (is_faulty (line_text self.now) ≡ false)
            (λ refusal. IsTrue (line_has refusal.number (line_text self.now))) }
        ensures least { option_map (λ refusal. refusal.number) result ≡ least_fault (line_text self.now) }
        ensures refuses { IfSome result (λ refusal. IsTrue (is_line_fault refusal.number)) }
    {
        if self.lacks_colon() {
            return Some(Refusal::NO_COLON);
        }
        if !is_name(self.name) {
            return Some(Refusal::BAD_NAME);
        }
        if let Some(refusal) = fault_of(self.pieces()) {
            return Some(refusal);
        }
        if has_control(self.text.as_bytes()) {
            return Some(Refusal::CONTROL);
        }
        None
    }

    /// Whether no colon ends the head: there is none, or only in closed quotes.
    fn lacks_colon(&self) -> bool
        ensures { result ≡ lacks_colon (line_text self.now) }
    {
        self.value.is_none() && (!has_open_quote(self.text) || !has_colon(self.text))
    }
}

/// Whether a line begins with a name and a colon right after it.
fn is_plain(line: &[u8]) -> bool
    ensures { IsTrue result → IsPlain line.now }
{
    match line.iter().position(|octet| !is_name_octet(*octet)) {
        Some(place) => place > 0 && line[place] == b':',
        None => false,
    }
}

/// Whether a text has a colon.
fn has_colon(text: &str) -> bool
    ensures { result ≡ list_any (λ c. c == 58) text.now }
{
    text.as_bytes().contains(&b':')
}

/// Whether the last quote of a text isn't closed.
fn has_open_quote(text: &str) -> bool
    ensures { result ≡ (count_by is_quote text.now % 2 == 1) }
{
    text.bytes().filter(|octet| *octet == b'"').count() % 2 == 1
}

/// Whether a line has a control octet other than TAB.
fn has_control(line: &[u8]) -> bool
    ensures { result ≡ has_control line.now }
{
    let mut found = false;
    // To the end in any case: so several octets are looked at in one step.
    for octet in line {
        found |= (*octet < 0x20 && *octet != b'\t') || *octet == 0x7F;
    }
    found
}
