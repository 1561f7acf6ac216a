//! UTC offsets (RFC 5545 3.3.14): `+hhmm`, `-hhmm`, or with seconds. Hours go to 23. `-0000` and
//! `-000000` aren't offsets.

ghost use Rattle.std.specs.Prelude.{List, ◌≡◌, ◌↔◌, ◌<◌, ℕ, ℤ, IsSome, IfSome, IfNone, IfOk, IfErr, OnOk, OnErr};
ghost use Rattle.profile.specs.text.Values.{SpellsOffset, WritesOffset, SpellsSize, IsOffset};
ghost use Rattle.ical_values.specs.Written.{Appends};

use crate::append::append_all;
use crate::clock::{self, DAY_SECONDS};
use ical_lines::Refusal;
use std::alloc::AllocError;
use std::marker::Model;

/// How far local time is ahead of UTC.
#[derive(Clone, Copy, PartialEq, Eq)]
pub struct UtcOffset {
    seconds: i32,
}

impl Model for UtcOffset {
    ghost use Rattle.std.specs.Prelude.{ℤ};
    ghost use Rattle.profile.specs.text.Values.{IsOffset};

    ghost Value = { ℤ };

    ghost view = { λ s. s.seconds };

    ghost inverse = { λ n. record { seconds = n } };

    ghost invariant = { λ s. IsOffset s.seconds };
}

impl UtcOffset {
    /// Reads an offset. Anything else is refused as a bad offset (13).
    pub fn read(text: &str) -> Result<UtcOffset, Refusal>
        ensures reads { IfOk result (SpellsOffset text.now) }
        ensures refuses { IfErr result (λ e. e.number ≡ 13) }
        ensures none { OnErr result ((offset : ℤ) → SpellsOffset text.now offset → ⊥) }
    {
        match read_seconds(text) {
            Some(seconds) => Ok(UtcOffset { seconds }),
            None => Err(Refusal::BAD_OFFSET),
        }
    }

    /// Appends a sign, two digits of hours, two of minutes, and two of seconds where they aren't 0.
    /// Where memory is refused, nothing is appended.
    pub fn write(self, out: &mut Vec<u8>) -> Result<(), AllocError>
        ensures ok { OnOk result (Appends out.old.items out.new.items (λ text. WritesOffset text self)) }
        ensures err { OnErr result (out.new.items ≡ out.old.items) }
    {
        let UtcOffset { seconds } = self;
        let sign = [if seconds < 0 { b'-' } else { b'+' }];
        let size = seconds.unsigned_abs();
        let time = clock::time_text(size);
        if size % 60 == 0 {
            append_all(out, &[&sign, &time[..4]])
        } else {
            append_all(out, &[&sign, &time])
        }
    }

    /// The offset of those seconds. None for a day and more to either side.
    pub fn of_seconds(seconds: i32) -> Option<UtcOffset>
        ensures found { IsSome result ↔ IsOffset seconds }
        ensures value { IfSome result (λ offset. offset ≡ seconds) }
    {
        if seconds.unsigned_abs() >= DAY_SECONDS as u32 {
            return None;
        }
        Some(UtcOffset { seconds })
    }

    /// Seconds that local time is ahead of UTC, from -86,399 to 86,399.
    pub fn seconds(self) -> i32
        ensures value { result ≡ self }
        ensures range { IsOffset result }
    {
        self.seconds
    }
}

/// The seconds of an offset's text.
fn read_seconds(text: &str) -> Option<i32>
    ensures found { IfSome result (SpellsOffset text.now) }
    ensures range { IfSome result IsOffset }
    ensures none { IfNone result ((offset : ℤ) → SpellsOffset text.now offset → ⊥) }
{
    if let Some(digits) = text.strip_prefix('+') {
        let size = read_size(digits.as_bytes())?;
        return Some(size as i32);
    }
    let digits = text.strip_prefix('-')?;
    match read_size(digits.as_bytes())? {
        0 => None,
        size => Some(-(size as i32)),
    }
}

/// The seconds of `hhmmss`, or of `hhmm`, which is `hhmm00`.
fn read_size(digits: &[u8]) -> Option<u32>
    ensures found { IfSome result (SpellsSize digits.now) }
    ensures range { IfSome result (λ n. n < 86_400) }
    ensures none { IfNone result ((size : ℕ) → SpellsSize digits.now size → ⊥) }
{
    if digits.len() != 4 {
        return clock::read_time(digits, 59);
    }
    let [h1, h2, m1, m2] = [digits[0], digits[1], digits[2], digits[3]];
    clock::read_time(&[h1, h2, m1, m2, b'0', b'0'], 59)
}

/// A text spells at most one offset, what is written of one spells it, and it is written in one form.
pub fn one_offset()
    ensures reading { (text : List ℕ) (a b : ℤ) → SpellsOffset text a → SpellsOffset text b → a ≡ b }
    ensures written { (text : List ℕ) (a : ℤ) → WritesOffset text a → SpellsOffset text a }
    ensures form { (x y : List ℕ) (a : ℤ) → WritesOffset x a → WritesOffset y a → x ≡ y }
{}
