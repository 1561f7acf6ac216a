//! The parameters of a content line: `name "=" value *("," value)` each (RFC 5545 3.1).
ghost use Rattle.std.specs.Prelude.{◌≡◌, Option, None, Some, not, option_map, if◌then◌else◌};
ghost use Rattle.std.specs.List.{list_any};
ghost use Rattle.ical_lines.specs.Pieces.{pieces_left};
ghost use Rattle.profile.specs.text.Lines.{front, unquoted, is_item, is_badly_quoted, lacks_name};

use crate::fault::Refusal;
use crate::name::is_name;
use crate::pieces::{Pieces, split_outside};

/// One parameter of a line, as it is written.
#[derive(Clone, Copy)]
pub struct Param<'a> {
    /// The name, in the case in which it is written.
    pub name: &'a str,
    /// The octets after the `=`, with their quotes and commas.
    pub value: &'a str,
}

impl<'a> Param<'a> {
    ghost use Rattle.std.specs.Prelude.{◌≡◌};
    ghost use Rattle.profile.specs.text.Lines.{unquoted, front};
    ghost use Rattle.ical_lines.specs.Text.{param_view, param_of};

    /// The parameter of a piece between two semicolons. Without a `=` its value is empty.
    pub(crate) fn of(piece: &'a str) -> Param<'a>
        ensures { param_view result ≡ param_of piece.now }
    {
        let (name, value) = split_outside(piece, b'=');
        Param {
            name,
            value: value.unwrap_or(""),
        }
    }

    /// The first of its values, which commas part, without its quotes.
    pub(crate) fn first_value(self) -> &'a str
        ensures { result.now ≡ unquoted (front 44 self.entry.value.now) }
    {
        let (first, _others) = split_outside(self.value, b',');
        unquoted(first)
    }
}

/// The parameters of a line that are left, in order. It takes no memory.
#[derive(Clone, Copy)]
pub struct Params<'a> {
    pieces: Pieces<'a>,
}

impl<'a> Params<'a> {
    ghost use Rattle.std.specs.Prelude.{◌≡◌, map};
    ghost use Rattle.ical_lines.specs.Pieces.{pieces_left};
    ghost use Rattle.ical_lines.specs.Text.{params_left, param_of};

    /// The parameters that the pieces of a head are.
    pub(crate) fn of(pieces: Pieces<'a>) -> Params<'a>
        ensures { params_left result ≡ map param_of (pieces_left pieces.entry) }
    {
        Params { pieces }
    }
}

impl<'a> Iterator for Params<'a> {
    ghost use Rattle.std.specs.Iterator.{YieldsFirstBy, item_count};
    ghost use Rattle.ical_lines.specs.Text.{param_view, params_left};

    type Item = Param<'a>;

    ghost next_gives = { YieldsFirstBy param_view params_left };

    ghost remaining = { item_count params_left };

    fn next(&mut self) -> Option<Param<'a>> {
        match self.pieces.next() {
            Some(piece) => Some(Param::of(piece)),
            None => None,
        }
    }
}

/// The lesser of the faults 2 and 3 that some parameters have: one that doesn't begin with a name and `=`, one with a quote
/// where none is allowed or that isn't closed.
pub(crate) fn fault_of(params: Pieces<'_>) -> Option<Refusal>
    ensures { option_map (λ refusal. refusal.number) result ≡ (if list_any lacks_name (pieces_left params.entry) then Some 2
        else if list_any is_badly_quoted (pieces_left params.entry) then Some 3 else None) }
{
    let mut has_bad_quote = false;
    for param in params {
        let (name, Some(value)) = split_outside(param, b'=') else {
            return Some(Refusal::BAD_NAME);
        };
        if !is_name(name) {
            return Some(Refusal::BAD_NAME);
        }
        has_bad_quote |= has_no_item(Pieces::of(value, b','));
    }
    if has_bad_quote {
        Some(Refusal::BAD_QUOTE)
    } else {
        None
    }
}

/// Whether one of some values is neither quoted nor free of quotes.
fn has_no_item(values: Pieces<'_>) -> bool
    ensures { result ≡ list_any (λ item. not (is_item item)) (pieces_left values.entry) }
{
    for value in values {
        if unquoted(value).as_bytes().contains(&b'"') {
            return true;
        }
    }
    false
}

/// A value of a parameter without the quotes around it.
fn unquoted(text: &str) -> &str
    ensures { result.now ≡ unquoted text.now }
{
    match text.strip_prefix('"') {
        Some(rest) => rest.strip_suffix('"').unwrap_or(text),
        None => text,
    }
}
