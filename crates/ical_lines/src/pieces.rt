//! A text cut at an octet that is outside quotes (RFC 5545 3.1, param-value).
//! A quote opens and the next one closes; an octet between them is inside.
ghost use Rattle.std.specs.Prelude.{◌≡◌, ◌++◌, ◌<◌, ◌≤◌, false, length, MatchOption, slice_index};
ghost use Rattle.std.specs.List.{list_any};
ghost use Rattle.profile.specs.text.Lines.{outside, front, back};
ghost use Rattle.ical_lines.specs.Breaks.{is_mark};

use memchr::memchr2;

/// How many octets come before the first `stop` outside quotes; all of them where there is none.
fn outside(text: &[u8], stop: u8) -> usize
    ensures value { result ≡ outside stop text.now }
    ensures bound { result ≤ length text.now }
    ensures at { result < length text.now → slice_index text.now result ≡ stop }
{
    match memchr2(b'"', stop, text) {
        Some(place) if text[place] != b'"' => place,
        Some(_) => outside_quotes(text, stop),
        None => text.len(),
    }
}

/// The same, octet by octet, for a text with quotes.
fn outside_quotes(text: &[u8], stop: u8) -> usize
    ensures value { result ≡ outside stop text.now }
    ensures bound { result ≤ length text.now }
    ensures at { result < length text.now → slice_index text.now result ≡ stop }
{
    let mut quoted = false;
    for (place, octet) in text.iter().enumerate() {
        if *octet == b'"' {
            quoted = !quoted;
        } else if *octet == stop && !quoted {
            return place;
        }
    }
    text.len()
}

/// A text cut before its first colon, semicolon or quote; where it has none, all of it comes before.
pub fn split_mark(text: &str) -> (&str, &str)
    ensures whole { text.now ≡ result.0.now ++ result.1.now }
    ensures plain { list_any is_mark result.0.now ≡ false }
{
    let mut octets = text.bytes();
    match octets.position(|octet| matches!(octet, b':' | b';' | b'"')) {
        Some(place) => text.split_at(place),
        None => (text, ""),
    }
}

/// The text before the first `stop` outside quotes, and the text after it where there is one.
pub fn split_outside(text: &str, stop: u8) -> (&str, Option<&str>)
    requires { stop < 128 }
    ensures front { result.0.now ≡ front stop text.now }
    ensures back { MatchOption result.1 (length text.now ≤ outside stop text.now)
        (λ after. (outside stop text.now < length text.now) × (after.now ≡ back stop text.now)) }
{
    let place = outside(text.as_bytes(), stop);
    let (front, rest) = text.split_at(place);
    if rest.is_empty() {
        return (front, None);
    }
    let (_stop, after) = rest.split_at(1);
    (front, Some(after))
}

/// The pieces of a text between the octets `stop` outside quotes, in order. It takes no memory.
#[derive(Clone, Copy)]
pub struct Pieces<'a> {
    rest: Option<&'a str>,
    stop: u8,
    ghost is_ascii: { stop < 128 },
}

impl<'a> Pieces<'a> {
    ghost use Rattle.std.specs.Prelude.{◌≡◌, ◌<◌, option_map};
    ghost use Rattle.profile.specs.text.Lines.{pieces};
    ghost use Rattle.ical_lines.specs.Pieces.{pieces_left};
    ghost use Rattle.ical_lines.specs.PiecesOf.{pieces_of};

    /// The pieces of a text; of an empty text one, which is empty.
    pub fn of(text: &'a str, stop: u8) -> Pieces<'a>
        requires { stop < 128 }
        ensures { pieces_left result ≡ pieces stop text.now }
    {
        Pieces {
            rest: Some(text),
            stop,
        }
    }

    /// The pieces of a text, if there is one; else none.
    pub fn left(rest: Option<&'a str>, stop: u8) -> Pieces<'a>
        requires { stop < 128 }
        ensures { pieces_left result ≡ pieces_of stop (option_map (λ x. x.now) rest.entry) }
    {
        Pieces { rest, stop }
    }
}

impl<'a> Iterator for Pieces<'a> {
    ghost use Rattle.std.specs.Iterator.{YieldsFirstBy, item_count};
    ghost use Rattle.ical_lines.specs.Pieces.{pieces_left};

    type Item = &'a str;

    ghost next_gives = { YieldsFirstBy (λ piece. piece.now) pieces_left };

    ghost remaining = { item_count pieces_left };

    fn next(&mut self) -> Option<&'a str> {
        match self.rest {
            Some(text) => {
                let (piece, rest) = split_outside(text, self.stop);
                self.rest = rest;
                Some(piece)
            }
            None => None,
        }
    }
}
