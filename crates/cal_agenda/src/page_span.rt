//! Which spans of time have a page, and what a day of one is.
ghost use Rattle.std.specs.Prelude.{◌≡◌, ◌↔◌, ◌≤◌, IsSome, IfSome};
ghost use Rattle.cal_agenda.specs.Pages.{IsPageSpan, IsWellWithin};

use cal_events::Span;

/// A span of time that has a page: of the years 2 to 9998, and at most 62 days of 24 hours long.
#[derive(Clone, Copy)]
pub struct PageSpan {
    pub start: i64,
    pub end: i64,
    ghost shown: { IsPageSpan start end },
}

/// The most seconds of such a span: 62 days of 24 hours.
const LONGEST: i64 = 5_356_800;

/// 0002-01-01T00:00:00Z, where the first of them begins.
const EARLIEST: i64 = -62_104_060_800;

/// 9999-01-01T00:00:00Z, where the last of them ends.
const LATEST: i64 = 253_370_764_800;

impl PageSpan {
    /// None where a span has no page.
    pub fn of(span: Span) -> Option<PageSpan>
        ensures found { IsSome result ↔ IsPageSpan span.start span.end }
        ensures value { IfSome result (λ page. (page.start ≡ span.start) × (page.end ≡ span.end)) }
    {
        let Span { start, end } = span;
        if start < EARLIEST || end > LATEST || start >= end || end - start > LONGEST {
            return None;
        }
        Some(PageSpan { start, end })
    }
}

/// A day on the clocks of a zone: its index, and the instants with which it and the next day begin.
#[derive(Clone, Copy)]
pub(crate) struct LocalDay {
    pub(crate) index: u32,
    pub(crate) start: i64,
    pub(crate) end: i64,
    ghost of_calendar: { (366 ≤ index) × (index ≤ 3_652_424) },
    ghost within: { IsWellWithin start × IsWellWithin end },
}
