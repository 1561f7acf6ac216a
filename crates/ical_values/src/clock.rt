//! A date and a time of day as `YYYYMMDDTHHMMSS` (RFC 5545 3.3.5), kept as seconds from
//! 1970-01-01T00:00:00. Years are 0001 to 9999. Second 60 is read as 59.

ghost use Rattle.std.specs.Prelude.{◌≡◌, ◌++◌, ◌<◌, ◌≤◌, ◌≤ℤ◌, ◌+ℤ◌, ◌*ℤ◌, ℕ, ℤ, List, pos, IfSome, IfNone, OnOk, OnErr};
ghost use Rattle.profile.specs.series.Zones.{local_time};
ghost use Rattle.profile.specs.text.Values.{SpellsTime, SpellsClock, IsClockSeconds};
ghost use Rattle.ical_values.specs.Written.{Appends};

use crate::append::append_all;
use crate::date::{date_text, read_date};
use crate::digits;
use cal_days::{Day, FIRST_NUMBER, LAST_NUMBER, number_at};
use std::alloc::AllocError;

/// The seconds of a day.
pub const DAY_SECONDS: i64 = 86_400;

/// Seconds of 0001-01-01T00:00:00.
pub const FIRST: i64 = FIRST_NUMBER * DAY_SECONDS;

/// Seconds of 9999-12-31T23:59:59.
pub const LAST: i64 = LAST_NUMBER * DAY_SECONDS + DAY_SECONDS - 1;

/// The seconds of a date and a time of day. None where the text isn't one.
pub fn read(text: &[u8]) -> Option<i64>
    ensures found { IfSome result (SpellsClock 60 text.now) }
    ensures range { IfSome result IsClockSeconds }
    ensures none { IfNone result ((seconds : ℤ) → SpellsClock 60 text.now seconds → ⊥) }
{
    if text.len() != 15 || text[8] != b'T' {
        return None;
    }
    let day = read_date(&text[..8])?;
    let second = read_time(&text[9..], 60)?;
    Some(seconds_at(day.index(), second))
}

/// Seconds from 1970-01-01T00:00:00 to that second of the day of that index, also of a day past 9999-12-31.
pub fn seconds_at(index: u32, second: u32) -> i64
    ensures { result ≡ local_time index second }
{
    number_at(index) * DAY_SECONDS + second as i64
}

/// The second of the day of `HHMMSS`, where second 60 means 59. `limit` is the greatest second that
/// is allowed, 59 or 60.
#[tactic(auto, using(crate::proofs::Exits::if_none))]
pub fn read_time(text: &[u8], limit: u8) -> Option<u32>
    requires { limit ≤ 60 }
    ensures found { IfSome result (SpellsTime limit text.now) }
    ensures range { IfSome result (λ n. n < 86_400) }
    ensures none { IfNone result ((total : ℕ) → SpellsTime limit text.now total → ⊥) }
{
    let [h1, h2, m1, m2, s1, s2] = text else {
        return None;
    };
    let hour = digits::read_two(*h1, *h2)?;
    let minute = digits::read_two(*m1, *m2)?;
    let second = digits::read_two(*s1, *s2)?;
    if hour > 23 || minute > 59 || second > limit {
        return None;
    }
    Some(hour as u32 * 3600 + minute as u32 * 60 + second.min(59) as u32)
}

/// Appends `YYYYMMDDTHHMMSS` and then the octets of `zone`, of seconds from `FIRST` to `LAST`.
pub fn write(seconds: i64, zone: &[u8], out: &mut Vec<u8>) -> Result<(), AllocError>
    requires { IsClockSeconds seconds }
    ensures ok { OnOk result
        (Appends out.old.items out.new.items
        (λ text. (clock : List ℕ) × SpellsClock 59 clock seconds × (text ≡ clock ++ zone.now))) }
    ensures err { OnErr result (out.new.items ≡ out.old.items) }
{
    let (day, second) = split(seconds);
    let date = date_text(day);
    let time = time_text(second);
    append_all(out, &[&date, b"T", &time, zone])
}

/// The day, and the second of that day.
pub fn split(seconds: i64) -> (Day, u32)
    requires { IsClockSeconds seconds }
    ensures high { result.0 ≤ℤ pos 2_932_896 }
    ensures second { result.1 < 86_400 }
    ensures sum { seconds ≡ (result.0 *ℤ pos 86_400) +ℤ pos result.1 }
{
    let number = seconds.div_euclid(DAY_SECONDS);
    let day = Day::of_number(number).unwrap();
    (day, seconds.rem_euclid(DAY_SECONDS) as u32)
}

/// The digits `HHMMSS` of a second of the day.
pub fn time_text(second: u32) -> [u8; 6]
    requires { second < 86_400 }
    ensures { SpellsTime 59 result second }
{
    let [h1, h2] = digits::two((second / 3600) as u8);
    let [m1, m2] = digits::two((second / 60 % 60) as u8);
    let [s1, s2] = digits::two((second % 60) as u8);
    [h1, h2, m1, m2, s1, s2]
}
