//! Local date-times (RFC 5545 3.3.5, forms 1 and 3): `YYYYMMDDTHHMMSS`, of the years 0001 to 9999,
//! without a zone. Second 60 is read as 59.

ghost use Rattle.std.specs.Prelude.{ℕ, List, ◌≡◌, ◌↔◌, ◌<◌, ◌≤ℤ◌, ◌+ℤ◌, ◌*ℤ◌, pos, ℤ, IsSome, IfSome, IfOk, IfErr, OnOk, OnErr};
ghost use Rattle.profile.specs.text.Values.{SpellsLocal, WritesLocal, IsClockSeconds};
ghost use Rattle.ical_values.specs.Written.{Appends};

use crate::clock::{self, DAY_SECONDS, seconds_at};
use cal_days::Day;
use ical_lines::Refusal;
use std::alloc::AllocError;
use std::marker::Model;

/// A date and a time of day, kept as seconds from 1970-01-01T00:00:00 on the same clock.
#[derive(Clone, Copy, PartialEq, Eq)]
pub struct LocalTime {
    seconds: i64,
}

impl Model for LocalTime {
    ghost use Rattle.std.specs.Prelude.{ℤ};
    ghost use Rattle.profile.specs.text.Values.{IsClockSeconds};

    ghost Value = { ℤ };

    ghost view = { λ s. s.seconds };

    ghost inverse = { λ n. record { seconds = n } };

    ghost invariant = { λ s. IsClockSeconds s.seconds };
}

impl LocalTime {
    /// Reads `YYYYMMDDTHHMMSS`. Anything else is refused as a bad date-time (11).
    pub fn read(text: &str) -> Result<LocalTime, Refusal>
        ensures reads { IfOk result (SpellsLocal text.now) }
        ensures refuses { IfErr result (λ e. e.number ≡ 11) }
        ensures none { OnErr result ((seconds : ℤ) → SpellsLocal text.now seconds → ⊥) }
    {
        match clock::read(text.as_bytes()) {
            Some(seconds) => Ok(LocalTime { seconds }),
            None => Err(Refusal::BAD_DATE_TIME),
        }
    }

    /// Appends `YYYYMMDDTHHMMSS`. Where memory is refused, nothing is appended.
    pub fn write(self, out: &mut Vec<u8>) -> Result<(), AllocError>
        ensures ok { OnOk result (Appends out.old.items out.new.items (λ text. WritesLocal text self)) }
        ensures err { OnErr result (out.new.items ≡ out.old.items) }
    {
        let LocalTime { seconds } = self;
        clock::write(seconds, b"", out)
    }

    /// Seconds from 1970-01-01T00:00:00 on the same clock.
    pub fn seconds(self) -> i64
        ensures value { result ≡ self }
        ensures range { IsClockSeconds result }
    {
        self.seconds
    }

    /// The local time of those seconds. None before the year 1 and after the year 9999.
    pub fn of_seconds(seconds: i64) -> Option<LocalTime>
        ensures found { IsSome result ↔ IsClockSeconds seconds }
        ensures value { IfSome result (λ s. s ≡ seconds) }
    {
        if seconds < clock::FIRST || seconds > clock::LAST {
            return None;
        }
        Some(LocalTime { seconds })
    }

    /// The day that it is in, and the second of that day, from 0 to 86,399.
    pub fn day_and_second(self) -> (Day, u32)
        ensures day { result.0 ≤ℤ pos 2_932_896 }
        ensures second { result.1 < 86_400 }
        ensures sum { self ≡ (result.0 *ℤ pos 86_400) +ℤ pos result.1 }
    {
        let LocalTime { seconds } = self;
        clock::split(seconds)
    }

    /// That second of a day. None where a day has no such second, and after the year 9999.
    pub fn of_day(day: Day, second: u32) -> Option<LocalTime>
        ensures found { IsSome result ↔ ((second < 86_400) × (day ≤ℤ pos 2_932_896)) }
        ensures value { IfSome result (λ s. s ≡ (day *ℤ pos 86_400) +ℤ pos second) }
    {
        if second >= DAY_SECONDS as u32 {
            return None;
        }
        LocalTime::of_seconds(seconds_at(day.index(), second))
    }
}

/// A text spells at most one local time, what is written of one spells it, and it is written in one form.
pub fn one_local_time()
    ensures reading { (text : List ℕ) (a b : ℤ) → SpellsLocal text a → SpellsLocal text b → a ≡ b }
    ensures written { (text : List ℕ) (a : ℤ) → WritesLocal text a → SpellsLocal text a }
    ensures form { (x y : List ℕ) (a : ℤ) → WritesLocal x a → WritesLocal y a → x ≡ y }
{
    cal_days::one_date();
}
