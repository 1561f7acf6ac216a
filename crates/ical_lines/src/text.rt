//! An unfolded text: its logical lines, in order, which it lends.
//! Its lines are what is between LFs, one CR at the end of each taken off, and the empty ones left out.
ghost use Rattle.std.specs.Prelude.{
  ◌≡◌,
  ◌++◌,
  [],
  ◌∷◌,
  ◌&&◌,
  ◌||◌,
  ◌==◌,
  ◌+◌,
  ◌<◌,
  ◌^◌,
  nat_lt,
  length,
  filter,
  true,
  false,
  IsTrue,
  MatchResult,
  IfErr,
};
ghost use Rattle.std.specs.List.{list_any};
ghost use Rattle.profile.specs.faults.Faults.{is_line_fault};
ghost use Rattle.profile.specs.faults.First.{lines_fault, lines_place, is_number};
ghost use Rattle.profile.specs.text.Lines.{is_faulty, is_filled, line_has, without_return};
ghost use Rattle.ical_lines.specs.Breaks.{is_one_line, lines_of};
ghost use Rattle.ical_lines.specs.Limits.{is_bounded};

use crate::fault::{Fault, Refusal};
use crate::limits::Limits;
use crate::line::Line;
use crate::unfold::UnfoldedText;
use memchr::memchr;
use std::alloc::Global;
use std::marker::Model;

/// The logical lines of some octets, without the empty ones.
/// It borrows the octets; where something in them is folded it keeps its own copy, unfolded.
#[derive(Drop)]
pub struct Unfolded<'a> {
    text: UnfoldedText<'a>,
}

impl<'a> Model for Unfolded<'a> {
    ghost use Rattle.std.specs.Prelude.{List, ℕ};
    ghost use Rattle.ical_lines.specs.Breaks.{lines_of};
    ghost use Rattle.ical_lines.specs.Text.{unfolded_octets};

    ghost Value = { List (List ℕ) };

    ghost view = { λ u. lines_of (unfolded_octets u.text) };
}

impl<'a> Unfolded<'a> {
    ghost use Rattle.std.specs.Prelude.{◌≡◌, true, IfOk, OnOk, IfErr};
    ghost use Rattle.profile.specs.faults.Faults.{is_line_fault};
    ghost use Rattle.profile.specs.faults.First.{text_fault, text_place, is_number};
    ghost use Rattle.profile.specs.text.Lines.{logical_lines, text_has, reads_as_lines};
    ghost use Rattle.ical_lines.specs.Fault.{RefusesOnly, RefusesAt};
    ghost use Rattle.ical_lines.specs.Limits.{is_bounded};
    ghost use Rattle.ical_lines.specs.Text.{lines_left};

    /// Reads octets as content lines. It refuses, in this order: more octets than the limits allow (6),
    /// unfolded octets that aren't UTF-8 (5), and then in text order the first line with a fault
    /// (the least of 1 to 4), or the first past the number of lines that the limits allow (6).
    /// It takes memory only where something is folded.
    pub fn read(alloc: Global, bytes: &'a [u8], limits: Limits) -> Result<Unfolded<'a>, Fault>
        ensures lines { IfOk result (λ read. read ≡ logical_lines bytes.now) }
        ensures reads { OnOk result (reads_as_lines (is_bounded limits) bytes.now ≡ true) }
        ensures refuses { IfErr result (RefusesOnly is_line_fault) }
        ensures fault { IfErr result (RefusesOnly (λ n. text_has (is_bounded limits) n bytes.now)) }
        ensures first { IfErr result (RefusesOnly (is_number (text_fault (is_bounded limits) bytes.now))) }
        ensures at { IfErr result (RefusesAt (λ line. line ≡ text_place (is_bounded limits) bytes.now)) }
    {
        if limits.exceeds_octets(bytes.len()) {
            return Err(Fault::Refused(Refusal::TOO_LONG));
        }
        let text = UnfoldedText::of(alloc, bytes)?;
        check_lines(text.as_str(), limits)?;
        Ok(Unfolded { text })
    }

    /// The lines, in order. It takes no memory.
    pub fn lines(&self) -> Lines<'_>
        ensures { (lines_left result ≡ self.now) × (result.passed ≡ 0) }
    {
        Lines {
            rest: self.text.as_str(),
            passed: 0,
        }
    }
}

/// The first line with a fault, or past the limits' number of lines, is refused.
fn check_lines(text: &str, limits: Limits) -> Result<(), Refusal>
    ensures refuses { IfErr result (λ r. IsTrue (is_line_fault r.number)) }
    ensures first { IfErr result (λ r. IsTrue (is_number (lines_fault (is_bounded limits) (lines_of text.now)) r.number)) }
    ensures at { IfErr result (λ r. r.line ≡ lines_place (is_bounded limits) (lines_of text.now)) }
    ensures fault { MatchResult result
        (λ _. (list_any is_faulty (lines_of text.now) ≡ false)
        × ((is_bounded limits && nat_lt 65536 (length (lines_of text.now))) ≡ false))
        (λ r. IsTrue (list_any (line_has r.number) (lines_of text.now)
        || (r.number == 6 && (is_bounded limits && nat_lt 65536 (length (lines_of text.now)))))) }
{
    let mut lines = Lines {
        rest: text,
        passed: 0,
    };
    while let Some(line) = lines.next_text() {
        if limits.exceeds_lines(lines.passed) {
            return Err(Refusal::TOO_LONG.at(lines.passed));
        }
        if let Some(refusal) = Line::fault_in(line) {
            return Err(refusal.at(lines.passed));
        }
    }
    Ok(())
}

/// The lines of a text that are left, in order. It takes no memory.
#[derive(Clone, Copy)]
pub struct Lines<'a> {
    rest: &'a str,
    /// How many lines came before.
    passed: usize,
    // a text in memory: a number of its lines fits `usize`
    ghost is_in_memory: { length rest.now + passed < 2 ^ 63 },
}

impl<'a> Lines<'a> {
    ghost use Rattle.std.specs.Prelude.{◌≡◌, ◌∷◌, [], ◌+◌, true, MatchOption, IfSome, IfNone};
    ghost use Rattle.ical_lines.specs.Breaks.{is_one_line};
    ghost use Rattle.ical_lines.specs.Text.{lines_left, line_text};

    /// No lines.
    pub fn none() -> Lines<'a>
        ensures { lines_left result ≡ [] }
    {
        Lines {
            rest: "",
            passed: 0,
        }
    }

    /// The text of the next line, no part of which is looked for. None after the last.
    #[inline]
    pub fn next_text(&mut self) -> Option<&'a str>
        ensures next { MatchOption result ((lines_left self.old ≡ []) × (lines_left self.new ≡ []))
            (λ text. lines_left self.old ≡ text.now ∷ lines_left self.new) }
        ensures one_line { IfSome result (λ text. is_one_line text.now ≡ true) }
        ensures number { IfSome result (λ _. self.new.passed ≡ self.old.passed + 1) }
        ensures last { IfNone result (self.new.passed ≡ self.old.passed) }
    {
        while !self.rest.is_empty() {
            let (line, rest) = split_line(self.rest);
            self.rest = rest;
            if !line.is_empty() {
                self.passed += 1;
                return Some(line);
            }
        }
        None
    }

    /// The next line with its number. None after the last.
    #[inline]
    pub fn next_line(&mut self) -> Option<Line<'a>>
        ensures next { MatchOption result ((lines_left self.old ≡ []) × (lines_left self.new ≡ []))
            (λ line. lines_left self.old ≡ line_text line ∷ lines_left self.new) }
        ensures number { IfSome result (λ line. (self.new.passed ≡ self.old.passed + 1) × (line.number ≡ self.new.passed)) }
        ensures last { IfNone result (self.new.passed ≡ self.old.passed) }
    {
        match self.next_text() {
            Some(text) => Some(Line::of(text, self.passed)),
            None => None,
        }
    }

    /// How many lines came before: the number of the line that was given last.
    pub fn passed(&self) -> usize
        ensures { result ≡ self.now.passed }
    {
        self.passed
    }
}

impl<'a> Iterator for Lines<'a> {
    ghost use Rattle.std.specs.Iterator.{YieldsFirstBy, item_count};
    ghost use Rattle.ical_lines.specs.Text.{line_text, lines_left};

    type Item = Line<'a>;

    ghost next_gives = { YieldsFirstBy line_text lines_left };

    ghost remaining = { item_count lines_left };

    #[inline]
    fn next(&mut self) -> Option<Line<'a>> {
        self.next_line()
    }
}

/// The first line of a text, which may be empty, and what follows its LF.
fn split_line(text: &str) -> (&str, &str)
    ensures lines { lines_of text.now ≡ filter is_filled (result.0.now ∷ []) ++ lines_of result.1.now }
    ensures one_line { is_one_line result.0.now ≡ true }
    ensures shorter { 0 < length text.now → length result.1.now < length text.now }
{
    match memchr(b'\n', text.as_bytes()) {
        Some(end) => {
            let (line, ended) = text.split_at(end);
            let (_end, rest) = ended.split_at(1);
            (without_return(line), rest)
        }
        None => (without_return(text), ""),
    }
}

/// A line without the CR at its end.
fn without_return(line: &str) -> &str
    ensures { result.now ≡ without_return line.now }
{
    line.strip_suffix('\r').unwrap_or(line)
}
