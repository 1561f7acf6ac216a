//! The end of the first logical line (RFC 5545 3.1): there another line may be put, and all other octets stay as they are.
ghost use Rattle.std.specs.Prelude.{◌≡◌, ◌≤◌, ◌∷◌, ◌&&◌, ◌||◌, not, drop, length, IfSome, IfNone, if◌then◌else◌};
ghost use Rattle.profile.specs.text.Lines.{physical_lines, is_continuation, is_filled, logical_lines};
ghost use Rattle.ical_lines.specs.Unfold.{lines_after};
ghost use Rattle.ical_lines.specs.FirstLine.{IsAfterBreak, EndsFirstLine};

use crate::unfold::{split_line, without_mark};

/// How many octets come before the second logical line, or before the end where there is only one: the first line with its
/// line break, and empty lines before it. None where no line break ends it.
pub fn first_line_end(octets: &[u8]) -> Option<usize>
    ensures found { IfSome result (EndsFirstLine octets.now) }
    ensures none { IfNone result (length (logical_lines octets.now) ≤ 1) }
{
    let (first, mut left) = split_line(without_mark(octets));
    // Whether the line that has begun has an octet.
    let mut filled = !first.is_empty();
    while let Some(rest) = left {
        if is_ended(filled, rest) {
            return Some(octets.len() - rest.len());
        }
        let (line, next) = split_line(rest);
        filled = is_filled_with(filled, line);
        left = next;
    }
    None
}

/// Whether the line that has begun has an octet, and what follows its line break doesn't continue it.
fn is_ended(filled: bool, rest: &[u8]) -> bool
    ensures { result ≡ (filled && not (is_continuation rest.now)) }
{
    match rest {
        [b' ' | b'\t', ..] => false,
        _ => filled,
    }
}

/// Whether the line that has begun has an octet, once a physical line continues it or begins another.
fn is_filled_with(filled: bool, line: &[u8]) -> bool
    ensures { result ≡ (if is_continuation line.now then filled || is_filled (drop 1 line.now) else is_filled line.now) }
{
    match line {
        [b' ' | b'\t', continued @ ..] => filled || !continued.is_empty(),
        _ => !line.is_empty(),
    }
}
