//! The text of a rule, written in one form (RFC 5545 3.3.10).

ghost use Rattle.std.specs.Prelude.{Option, ◌≡◌, ◌++◌, ◌<◌, ◌≤◌, ◌^◌, ◌==◌, ℕ, ℤ, List, [], ◌∷◌, length, true, All, Contains, map, option_map, codes, decimal, string_bytes, if◌then◌else◌, IfOk, OnOk};
ghost use Rattle.std.specs.Fmt.{signed_decimal};
ghost use Rattle.std.specs.List.{list_all};
ghost use Rattle.std.specs.List.Sorted.{IsStrictlyIncreasing};
ghost use Rattle.profile.specs.faults.Faults.{is_between};
ghost use Rattle.profile.specs.series.Rules.{is_place, is_entry};
ghost use Rattle.cal_days.specs.Views.{frequency_of};
ghost use Rattle.cal_rules.specs.Views.{weekday_number_of, rule_text_said, until_of};
ghost use Rattle.profile.specs.series.Rules as rules;
ghost use Rattle.profile.specs.series.RuleTexts as texts;

use crate::text::RuleText;
use crate::written::{Until, WeekdayNumber, Written};
use cal_days::Frequency;
use std::alloc::{AllocError, Global};

/// The text in its one form.
pub(crate) fn rule_text(
    alloc: Global,
    written: &Written,
    until: Option<&str>,
) -> Result<String, AllocError>
    requires { rules.is_in_range (rule_text_said written.now) ≡ true }
    ensures { IfOk result
        (λ text. string_bytes text
        ≡ texts.rule_text (rule_text_said written.now) (option_map (λ text. text.now) until.entry)) }
{
    let mut text = String::from_str(alloc, "FREQ=")?;
    text.push_str(frequency_word(written.frequency))?;
    push_count(&mut text, written.count)?;
    push_until(&mut text, written.until, until)?;
    push_interval(&mut text, written.interval)?;
    push_months(&mut text, &written.months)?;
    push_numbers(&mut text, ";BYMONTHDAY=", &written.month_days)?;
    push_weekdays(&mut text, &written.weekdays)?;
    push_numbers(&mut text, ";BYSETPOS=", &written.positions)?;
    push_week_start(&mut text, written.week_start)?;
    Ok(text)
}

/// Appends COUNT where it is written.
fn push_count(text: &mut String, count: Option<u32>) -> Result<(), AllocError>
    ensures { OnOk result (string_bytes text.new ≡ string_bytes text.old ++ texts.count_text count) }
{
    let Some(count) = count else {
        return Ok(());
    };
    text.push_str(";COUNT=")?;
    push_number(text, count)?;
    Ok(())
}

/// Appends UNTIL, where it is written, as it was given.
fn push_until(text: &mut String, end: Option<Until>, until: Option<&str>) -> Result<(), AllocError>
    ensures { OnOk result
        (string_bytes text.new ≡ string_bytes text.old
        ++ texts.until_text (option_map until_of end) (option_map (λ text. text.now) until.entry)) }
{
    let Some(_end) = end else {
        return Ok(());
    };
    let Some(until) = until else {
        return Ok(());
    };
    text.push_str(";UNTIL=")?;
    text.push_str(until)?;
    Ok(())
}

/// Appends INTERVAL unless 1.
fn push_interval(text: &mut String, interval: u16) -> Result<(), AllocError>
    ensures { OnOk result
        (string_bytes text.new ≡ string_bytes text.old
        ++ (if interval == 1 then [] else codes ";INTERVAL=" ++ decimal interval)) }
{
    if interval == 1 {
        return Ok(());
    }
    text.push_str(";INTERVAL=")?;
    push_number(text, interval as u32)?;
    Ok(())
}

/// Appends WKST unless MO.
fn push_week_start(text: &mut String, week_start: u8) -> Result<(), AllocError>
    ensures { OnOk result
        (string_bytes text.new ≡ string_bytes text.old
        ++ (if week_start == 0 then [] else codes ";WKST=" ++ texts.weekday_word week_start)) }
{
    if week_start == 0 {
        return Ok(());
    }
    text.push_str(";WKST=")?;
    text.push_str(weekday_word(week_start))?;
    Ok(())
}

/// Appends BYMONTH.
fn push_months(text: &mut String, months: &[u8]) -> Result<(), AllocError>
    requires { list_all (is_between 1 12) months.now ≡ true }
    ensures { OnOk result
        (string_bytes text.new ≡ string_bytes text.old
        ++ texts.listed (codes ";BYMONTH=") (map decimal (texts.months_from 1 months.now))) }
{
    let places = months_in_order(*text.allocator(), months)?;
    let mut is_first = true;
    for place in &places {
        push_lead(text, is_first, ";BYMONTH=")?;
        push_number(text, *place as u32)?;
        is_first = false;
    }
    Ok(())
}

/// Appends a list of numbers from -366 to 366 under its name.
fn push_numbers(text: &mut String, name: &str, numbers: &[i16]) -> Result<(), AllocError>
    requires { list_all (is_place 366) numbers.now ≡ true }
    ensures { OnOk result
        (string_bytes text.new ≡ string_bytes text.old
        ++ texts.listed name.now (map signed_decimal (texts.numbers_from 0 numbers.now))) }
{
    let places = numbers_in_order(*text.allocator(), numbers)?;
    let mut is_first = true;
    for place in &places {
        push_lead(text, is_first, name)?;
        push_signed(text, *place as i16 - 366)?;
        is_first = false;
    }
    Ok(())
}

/// Appends BYDAY.
fn push_weekdays(text: &mut String, entries: &[WeekdayNumber]) -> Result<(), AllocError>
    requires { list_all is_entry (map weekday_number_of entries.now) ≡ true }
    ensures { OnOk result
        (string_bytes text.new ≡ string_bytes text.old
        ++ texts.listed (codes ";BYDAY=") (map texts.weekday_number_text (texts.entries_from 0 (map weekday_number_of entries.now)))) }
{
    let places = entries_in_order(*text.allocator(), entries)?;
    let mut is_first = true;
    for place in &places {
        push_lead(text, is_first, ";BYDAY=")?;
        push_entry(text, nth_entry(*place))?;
        is_first = false;
    }
    Ok(())
}

/// The months, ascending, each once.
fn months_in_order(alloc: Global, months: &[u8]) -> Result<Vec<u16>, AllocError>
    requires { list_all (is_between 1 12) months.now ≡ true }
    ensures { IfOk result (λ places. places.items ≡ texts.months_from 1 months.now) }
{
    let mut places = Vec::new(alloc);
    for month in months {
        places.push(*month as u16)?;
    }
    put_in_order(&mut places);
    Ok(places)
}

/// The places of the numbers, counted from -366 on: ascending, each once.
fn numbers_in_order(alloc: Global, numbers: &[i16]) -> Result<Vec<u16>, AllocError>
    requires { list_all (is_place 366) numbers.now ≡ true }
    ensures lists { IfOk result (λ places. map texts.nth_number places.items ≡ texts.numbers_from 0 numbers.now) }
    ensures below { IfOk result (λ places. All (λ place. place < 733) places.items) }
{
    let mut places = Vec::new(alloc);
    for number in numbers {
        places.push(place_of_number(*number))?;
    }
    put_in_order(&mut places);
    Ok(places)
}

/// The places of the entries in the order in which BYDAY is written: ascending, each once.
fn entries_in_order(alloc: Global, entries: &[WeekdayNumber]) -> Result<Vec<u16>, AllocError>
    requires { list_all is_entry (map weekday_number_of entries.now) ≡ true }
    ensures lists { IfOk result
        (λ places. map texts.nth_entry places.items ≡ texts.entries_from 0 (map weekday_number_of entries.now)) }
    ensures below { IfOk result (λ places. All (λ place. place < 749) places.items) }
{
    let mut places = Vec::new(alloc);
    for entry in entries {
        places.push(place_of_entry(*entry))?;
    }
    put_in_order(&mut places);
    Ok(places)
}

/// Puts numbers into ascending order, each once.
fn put_in_order(places: &mut Vec<u16>)
    ensures rises { IsStrictlyIncreasing places.new.items }
    ensures keeps { (x : ℕ) → Contains places.old.items x → Contains places.new.items x }
    ensures adds_none { (x : ℕ) → Contains places.new.items x → Contains places.old.items x }
{
    places.sort_unstable();
    places.dedup();
}

/// The place of a number, counted from -366 on.
fn place_of_number(number: i16) -> u16
    requires { is_place 366 number ≡ true }
    ensures { (result < 733) × (texts.nth_number result ≡ number) }
{
    (number + 366) as u16
}

/// The place of an entry in the order in which BYDAY is written: by number, then from Monday on.
fn place_of_entry(entry: WeekdayNumber) -> u16
    requires { is_entry (weekday_number_of entry) ≡ true }
    ensures { (result < 749) × (texts.nth_entry result ≡ weekday_number_of entry) }
{
    (entry.number + 53) as u16 * 7 + entry.weekday as u16
}

/// The entry at a place in that order.
fn nth_entry(place: u16) -> WeekdayNumber
    requires { place < 749 }
    ensures { weekday_number_of result ≡ texts.nth_entry place }
{
    WeekdayNumber {
        number: (place / 7) as i16 - 53,
        weekday: (place % 7) as u8,
    }
}

/// Appends an entry of BYDAY.
fn push_entry(text: &mut String, entry: WeekdayNumber) -> Result<(), AllocError>
    ensures { OnOk result (string_bytes text.new ≡ string_bytes text.old ++ texts.weekday_number_text (weekday_number_of entry)) }
{
    if entry.number != 0 {
        push_signed(text, entry.number)?;
    }
    text.push_str(weekday_word(entry.weekday))?;
    Ok(())
}

/// Appends the name before the first entry of a list, and a comma before each other.
fn push_lead(text: &mut String, is_first: bool, name: &str) -> Result<(), AllocError>
    ensures { OnOk result
        (string_bytes text.new ≡ string_bytes text.old ++ (if is_first then name.now else codes ",")) }
{
    if is_first {
        text.push_str(name)?;
        return Ok(());
    }
    text.push_str(",")?;
    Ok(())
}

/// Appends a number in decimal digits.
fn push_number(text: &mut String, number: u32) -> Result<(), AllocError>
    ensures { OnOk result (string_bytes text.new ≡ string_bytes text.old ++ decimal number) }
{
    let digits = number.to_string(*text.allocator())?;
    text.push_str(digits.as_str())?;
    Ok(())
}

/// Appends a number in decimal digits, with `-` before a negative one.
fn push_signed(text: &mut String, number: i16) -> Result<(), AllocError>
    ensures { OnOk result (string_bytes text.new ≡ string_bytes text.old ++ signed_decimal number) }
{
    let digits = number.to_string(*text.allocator())?;
    text.push_str(digits.as_str())?;
    Ok(())
}

/// The word of a frequency.
fn frequency_word(frequency: Frequency) -> &'static str
    ensures { result.now ≡ texts.frequency_word (frequency_of frequency) }
{
    match frequency {
        Frequency::Daily => "DAILY",
        Frequency::Weekly => "WEEKLY",
        Frequency::Monthly => "MONTHLY",
        Frequency::Yearly => "YEARLY",
    }
}

/// The two letters of a weekday, 0 for Monday; those past Saturday are Sunday's.
pub fn weekday_word(weekday: u8) -> &'static str
    ensures { result.now ≡ texts.weekday_word weekday }
{
    match weekday {
        0 => "MO",
        1 => "TU",
        2 => "WE",
        3 => "TH",
        4 => "FR",
        5 => "SA",
        _ => "SU",
    }
}

/// What is written of each value of a rule spells that value: a number, a place, an entry of BYDAY, and a list of at
/// most 366 of them with commas between (RFC 5545 3.3.10). With the contract of `RuleText::write`: each value that it
/// writes reads back.
pub fn values_read_back()
    ensures number { (low high n : ℕ) → n < 2 ^ 64 → is_between low high n ≡ true
        → texts.SpellsBetween low high (decimal n) n }
    ensures months { (month : ℕ) (months : List ℕ) → list_all (is_between 1 12) (month ∷ months) ≡ true
        → length (month ∷ months) ≤ 366
        → texts.SpellsMonths (decimal month ++ texts.listed (codes ",") (map decimal months)) (month ∷ months) }
    ensures places { (most : ℕ) (place : ℤ) (places : List ℤ) → most ≤ 366
        → list_all (is_place most) (place ∷ places) ≡ true → length (place ∷ places) ≤ 366
        → texts.SpellsList (texts.SpellsPlace most)
        (signed_decimal place ++ texts.listed (codes ",") (map signed_decimal places)) (place ∷ places) }
    ensures entries { (entry : rules.WeekdayNumber) (entries : List rules.WeekdayNumber)
        → list_all is_entry (entry ∷ entries) ≡ true → length (entry ∷ entries) ≤ 366
        → texts.SpellsEntries (texts.weekday_number_text entry ++ texts.listed (codes ",") (map texts.weekday_number_text entries))
        (entry ∷ entries) }
{}

/// What is written of a rule spells that rule, with its lists in order, each entry once, and with the end that was
/// given. With the contracts of `RuleText::write` and `RuleText::read`: what was written is read as that rule.
pub fn rule_reads_back()
    ensures { (rule : rules.RuleText) (until : Option (List ℕ)) (end : Option rules.Until)
        → rules.IsAllowed rule
        → texts.HandsIn rule.until until end
        → texts.SpellsRule (texts.rule_text rule until) (texts.as_written rule end) }
{}

/// A rule whose lists are put in order, each entry once, has the same days. With `rule_reads_back`: what was written of
/// a rule and is read again has the days of that rule.
pub fn written_means_the_same()
    ensures { (rule : rules.RuleText) (end : Option rules.Until) (start last day : ℕ)
        → rules.IsAllowed rule
        → rules.is_rule_day (rules.rule_of (texts.as_written rule end) start last) day
        ≡ rules.is_rule_day (rules.rule_of rule start last) day }
{}
