//! Dates as `YYYYMMDD` (RFC 5545 3.3.4), of the years 0001 to 9999.

ghost use Rattle.std.specs.Prelude.{◌≤◌, ◌≤ℤ◌, ℤ, pos, IfSome, IfNone};
ghost use Rattle.profile.specs.text.Values.{SpellsDate};

use crate::digits;
use cal_days::Day;

/// The day of `YYYYMMDD`. None where the text isn't a date of those years.
pub fn read_date(text: &[u8]) -> Option<Day>
    ensures found { IfSome result (SpellsDate text.now) }
    ensures high { IfSome result (λ day. day ≤ℤ pos 2_932_896) }
    ensures none { IfNone result ((number : ℤ) → SpellsDate text.now number → ⊥) }
{
    let [y1, y2, y3, y4, m1, m2, d1, d2] = text else {
        return None;
    };
    let year = digits::read_four(*y1, *y2, *y3, *y4)?;
    let month = digits::read_two(*m1, *m2)?;
    let day = digits::read_two(*d1, *d2)?;
    Day::of(year as i32, month, day)
}

/// The digits `YYYYMMDD` of a day up to 9999-12-31.
pub(crate) fn date_text(day: Day) -> [u8; 8]
    requires { day ≤ℤ pos 2_932_896 }
    ensures { SpellsDate result day }
{
    let date = day.civil();
    let year = date.year.unsigned_abs();
    let [y1, y2] = digits::two((year / 100) as u8);
    let [y3, y4] = digits::two((year % 100) as u8);
    let [m1, m2] = digits::two(date.month);
    let [d1, d2] = digits::two(date.day);
    [y1, y2, y3, y4, m1, m2, d1, d2]
}
