//! Durations (RFC 5545 3.3.6): weeks, or days with hours, minutes and seconds. Weeks and days are
//! nominal; the rest is exact. Negative ones and counts past 32 bits aren't kept.

ghost use Rattle.std.specs.Prelude.{◌≡◌, ◌+◌, ◌*◌, ◌<◌, ◌≤◌, ◌^◌, ◌++◌, ◌∷◌, ◌⊎◌, ℕ, List, length, take, slice_index, IfSome, IfNone, IfOk, IfErr, OnOk, OnErr};
ghost use Rattle.std.specs.Int.{IsInRange};
ghost use Rattle.std.specs.Str.Parse.{AllDigits, digits_value};
ghost use Rattle.profile.specs.text.Values.{duration_text, SpellsDuration, SpellsNegative, SpellsLong, SpellsUnsigned, SpellsDays, SpellsExact};
ghost use Rattle.ical_values.specs.Counts.{capped, BeginsNumber, TakesCapped, TakesOrSkips, CountsExact, CountsDays, CountsUnsigned, SpellsLongBody};

use crate::append::append_all;
use ical_lines::Refusal;
use itoa::Buffer;
use std::alloc::AllocError;

/// Nominal days, and exact seconds beside them.
#[derive(Clone, Copy)]
pub struct Duration {
    /// Days, each as long as it is where they are counted; a week is 7.
    pub days: u32,
    /// Seconds of hours, minutes and seconds.
    pub seconds: u32,
}

/// What a text spells before its range is judged. Counts stop at the greatest u64.
#[derive(Clone, Copy)]
struct Counts {
    days: u64,
    seconds: u64,
}

impl Duration {
    /// Reads `P`, and weeks, or days with hours, minutes and seconds in this order. Each may be missing,
    /// and at least one follows `T`. A `+` may come first. Refused are a text that isn't one (12), and
    /// one with a minus sign or with a count of days or seconds past u32 (51).
    pub fn read(text: &str) -> Result<Duration, Refusal>
        ensures reads { IfOk result (λ d. SpellsDuration text.now d.days d.seconds) }
        ensures refuses { IfErr result (λ e. (e.number ≡ 12) ⊎ (e.number ≡ 51)) }
        ensures none { IfErr result
            (λ e. e.number ≡ 12 → (days seconds : ℕ) → SpellsDuration text.now days seconds → ⊥) }
        ensures not_negative { IfErr result (λ e. e.number ≡ 12 → SpellsNegative text.now → ⊥) }
        ensures range { IfErr result
            (λ e. e.number ≡ 51 → SpellsNegative text.now ⊎ SpellsLong text.now) }
    {
        if let Some(body) = text.strip_prefix('+') {
            return read_unsigned(body.as_bytes());
        }
        let Some(body) = text.strip_prefix('-') else {
            return read_unsigned(text.as_bytes());
        };
        match read_counts(body.as_bytes()) {
            Some(_) => Err(Refusal::LONG_OR_NEGATIVE),
            None => Err(Refusal::BAD_DURATION),
        }
    }

    /// Appends `PnD`, `PnDTnS` or `PTnS`; nothing at all is `PT0S`. Where memory is refused, nothing is appended.
    pub fn write(self, out: &mut Vec<u8>) -> Result<(), AllocError>
        ensures ok { OnOk result (out.new.items ≡ out.old.items ++ duration_text self.days self.seconds) }
        ensures err { OnErr result (out.new.items ≡ out.old.items) }
    {
        let mut days_buffer = Buffer::new();
        let mut seconds_buffer = Buffer::new();
        let days = days_buffer.format(self.days).as_bytes();
        let seconds = seconds_buffer.format(self.seconds).as_bytes();
        match (self.days, self.seconds) {
            (0, _) => append_all(out, &[b"PT", seconds, b"S"]),
            (_, 0) => append_all(out, &[b"P", days, b"D"]),
            _ => append_all(out, &[b"P", days, b"DT", seconds, b"S"]),
        }
    }
}

/// Reads a duration without its sign.
fn read_unsigned(text: &[u8]) -> Result<Duration, Refusal>
    ensures reads { IfOk result (λ d. SpellsUnsigned text.now d.days d.seconds) }
    ensures refuses { IfErr result (λ e. (e.number ≡ 12) ⊎ (e.number ≡ 51)) }
    ensures none { IfErr result
        (λ e. e.number ≡ 12 → (days seconds : ℕ) → SpellsUnsigned text.now days seconds → ⊥) }
    ensures range { IfErr result (λ e. e.number ≡ 51 → SpellsLongBody text.now) }
{
    let counts = read_counts(text).ok_or(Refusal::BAD_DURATION)?;
    fit(counts)
}

/// The duration of those counts, where both fit.
fn fit(counts: Counts) -> Result<Duration, Refusal>
    ensures ok { IfOk result (λ d. (d.days ≡ counts.days) × (d.seconds ≡ counts.seconds)
        × (d.days < 2 ^ 32) × (d.seconds < 2 ^ 32)) }
    ensures range { IfErr result
        (λ e. (e.number ≡ 51) × ((2 ^ 32 ≤ counts.days) ⊎ (2 ^ 32 ≤ counts.seconds))) }
{
    let limit = u32::MAX as u64;
    if counts.days > limit || counts.seconds > limit {
        return Err(Refusal::LONG_OR_NEGATIVE);
    }
    Ok(Duration {
        days: counts.days as u32,
        seconds: counts.seconds as u32,
    })
}

/// The counts of `P` and what follows it.
#[tactic(auto, using(crate::proofs::Exits::if_none))]
fn read_counts(text: &[u8]) -> Option<Counts>
    ensures found { IfSome result (λ c. CountsUnsigned text.now c.days c.seconds) }
    ensures none { IfNone result
        ((days seconds : ℕ) → SpellsUnsigned text.now days seconds → ⊥) }
{
    let body = after(text, b'P')?;
    let Some((weeks, rest)) = take_part(body, b'W') else {
        return read_days(body);
    };
    if !rest.is_empty() {
        return None;
    }
    Some(Counts {
        days: weeks.saturating_mul(7),
        seconds: 0,
    })
}

/// Days, a time, or both.
fn read_days(text: &[u8]) -> Option<Counts>
    ensures found { IfSome result (λ c. CountsDays text.now c.days c.seconds) }
    ensures none { IfNone result ((days seconds : ℕ) → SpellsDays text.now days seconds → ⊥) }
{
    let Some((days, rest)) = take_part(text, b'D') else {
        let seconds = read_time(text)?;
        return Some(Counts { days: 0, seconds });
    };
    if rest.is_empty() {
        return Some(Counts { days, seconds: 0 });
    }
    let seconds = read_time(rest)?;
    Some(Counts { days, seconds })
}

/// The seconds of `T`, and hours, minutes and seconds, of which at least one is there.
#[tactic(auto, using(crate::proofs::Exits::if_none))]
fn read_time(text: &[u8]) -> Option<u64>
    ensures found { IfSome result (CountsExact text.now) }
    ensures none { IfNone result ((total : ℕ) → SpellsExact text.now total → ⊥) }
{
    let body = after(text, b'T')?;
    if body.is_empty() {
        return None;
    }
    let (hours, after_hours) = part_or_zero(body, b'H');
    let (minutes, after_minutes) = part_or_zero(after_hours, b'M');
    let (seconds, rest) = part_or_zero(after_minutes, b'S');
    if !rest.is_empty() {
        return None;
    }
    Some(total(hours, minutes, seconds))
}

/// Hours, minutes and seconds as seconds, at most the greatest u64.
fn total(hours: u64, minutes: u64, seconds: u64) -> u64
    ensures { result ≡ capped (3600 * hours + 60 * minutes + seconds) }
{
    hours
        .saturating_mul(3600)
        .saturating_add(minutes.saturating_mul(60))
        .saturating_add(seconds)
}

/// What follows the letter at the front.
fn after(text: &[u8], letter: u8) -> Option<&[u8]>
    ensures found { IfSome result (λ rest. text.now ≡ letter ∷ rest.now) }
    ensures none { IfNone result ((rest : List ℕ) → text.now ≡ letter ∷ rest → ⊥) }
{
    match text {
        [first, rest @ ..] if *first == letter => Some(rest),
        _ => None,
    }
}

/// The number before the letter and what follows the letter. Where the text doesn't begin with a number
/// and the letter: 0, and the text.
fn part_or_zero(text: &[u8], letter: u8) -> (u64, &[u8])
    requires { 57 < letter }
    ensures { TakesOrSkips letter text.now result.0 result.1.now }
{
    take_part(text, letter).unwrap_or((0, text))
}

/// The number at the front, which the letter follows, and the rest after the letter.
fn take_part(text: &[u8], letter: u8) -> Option<(u64, &[u8])>
    requires { 57 < letter }
    ensures found { IfSome result (λ r. TakesCapped letter text.now r.0 r.1.now) }
    ensures none { IfNone result ((n : ℕ) (rest : List ℕ) → BeginsNumber letter text.now n rest → ⊥) }
{
    let (number, count) = leading_number(text);
    if count == 0 {
        return None;
    }
    if count >= text.len() {
        return None;
    }
    if text[count] != letter {
        return None;
    }
    Some((number, &text[count + 1..]))
}

/// The number of the digits at the front, and how many they are. A number past u64 is the greatest u64.
fn leading_number(text: &[u8]) -> (u64, usize)
    ensures within { result.1 ≤ length text.now }
    ensures digits { AllDigits 10 (take result.1 text.now) }
    ensures value { result.0 ≡ capped (digits_value 10 (take result.1 text.now)) }
    ensures end { result.1 < length text.now → IsInRange 48 57 (slice_index text.now result.1) → ⊥ }
{
    let mut number: u64 = 0;
    for (i, octet) in text.iter().enumerate() {
        if !octet.is_ascii_digit() {
            return (number, i);
        }
        number = number
            .saturating_mul(10)
            .saturating_add((*octet - b'0') as u64);
    }
    (number, text.len())
}

/// A text spells at most one duration, negative or not, and what is written of one spells it.
pub fn one_duration()
    ensures reading { (text : List ℕ) (days seconds other_days other_seconds : ℕ)
        → SpellsDuration text days seconds → SpellsDuration text other_days other_seconds
        → (days ≡ other_days) × (seconds ≡ other_seconds) }
    ensures negative { (text : List ℕ) (days seconds : ℕ)
        → SpellsDuration text days seconds → SpellsNegative text → ⊥ }
    ensures written { (days seconds : ℕ) → days < 2 ^ 32 → seconds < 2 ^ 32
        → SpellsDuration (duration_text days seconds) days seconds }
{}
