//! The days of a rule apart from COUNT, one after another, and where COUNT ends (RFC 5545 3.3.10). One period is looked up
//! and counted at a time. Where all set positions count from its end, only so many of its last days can have one: the
//! listing enters the period there, and looks at no day before (BYSETPOS).

ghost use Rattle.std.specs.Prelude.{◌≡◌, ◌+◌, ◌-◌, ◌*◌, ◌%◌, ◌<◌, ◌≤◌, true, false, ℕ, MatchOption, IfSome};
ghost use Rattle.cal_days.specs.Views.{frequency_of};
ghost use Rattle.profile.specs.series.Days.{day_index, period_of, shortest_period};
ghost use Rattle.profile.specs.series.Rules.{is_counted, is_in_step, count_days, passes, is_missing};
ghost use Rattle.cal_rules.specs.Views.{pattern_of, rule_said};
ghost use Rattle.cal_rules.specs.Known.{AreFacts};
ghost use Rattle.cal_rules.specs.Counted.{NoneIn, HasNoDayFrom, RuleEndsAt, is_chosen};
ghost use Rattle.cal_rules.specs.Cursors.{IsCursorOf, IsPastFirst, IsPastNext, is_among_last};
ghost use Rattle.cal_rules.specs.Spans.{IsPeriodSpan};
ghost use Rattle.std.specs.List.{list_all};

use crate::cursor::{Cursor, PeriodDays};
use crate::facts::{DayFacts, looked_up};
use crate::written::{Written, allows_nth};
use cal_days::{Day, Frequency, LAST_INDEX};

/// The days of the shortest period.
fn shortest(written: &Written) -> u32
    ensures value { result ≡ shortest_period (frequency_of written.now.frequency) }
    ensures range { result ≤ 365 }
{
    match written.frequency {
        Frequency::Daily => 1,
        Frequency::Weekly => 7,
        Frequency::Monthly => 28,
        Frequency::Yearly => 365,
    }
}

/// How many periods after that of a day is the next one that is a multiple of INTERVAL from that
/// of DTSTART: 0 where its own is.
fn periods_to_step(written: &Written, start: DayFacts, day: Day) -> u32
    requires interval { 1 ≤ written.now.interval }
    requires start { AreFacts start }
    ensures range { result ≤ 65_535 }
    ensures here { result ≡ 0 → is_in_step (pattern_of written.now start.index) (day_index day) ≡ true }
    ensures none_sooner { let p = pattern_of written.now start.index in (j : ℕ) → j < result
        → (period_of p.frequency p.week_start (day_index day) % p.interval + j) % p.interval
        ≡ period_of p.frequency p.week_start p.start % p.interval → ⊥ }
{
    let interval = written.interval as u32;
    if interval == 1 {
        return 0;
    }
    let here = written.period(day).number() % interval;
    let there = written.period(start.day()).number() % interval;
    periods_ahead(interval, here, there)
}

/// From where to look further after that period, where the next one in step is this many periods after
/// it. No period is shorter than the shortest.
fn beyond(written: &Written, span: PeriodDays, ahead: u32) -> u32
    requires span { span.end ≤ 3_652_790 }
    requires ahead { ahead ≤ 65_535 }
    ensures { result ≡ span.end + shortest_period (frequency_of written.now.frequency) * (ahead - 1) }
{
    if ahead == 0 {
        return span.end;
    }
    span.end + shortest(written) * (ahead - 1)
}

/// The cursor after the first base day with a set position, from the day of that index on and up to the last one.
fn first_chosen(written: &Written, start: DayFacts, from: u32, last: u32) -> Option<Cursor>
    requires interval { 1 ≤ written.now.interval }
    requires start { AreFacts start }
    requires from { 366 ≤ from }
    requires last { last ≤ 3_652_424 }
    ensures { let p = pattern_of written.now start.index in
        MatchOption result (NoneIn (is_chosen p) from (last + 1)) (IsPastFirst p from (last + 1)) }
{
    // Only for the proof: no period is shorter than the shortest, and later days are in no earlier one.
    cal_days::periods_grow();
    let mut index = from;
    while index <= last {
        let day = Day::at_index(index).unwrap();
        let here = DayFacts::of(day);
        let span = PeriodDays::of(written.frequency, written.week_start, here);
        let ahead = periods_to_step(written, start, day);
        if let Some(after) = first_in_period(written, start, here, span, ahead) {
            if after.is_past(last) {
                return None;
            }
            return Some(after);
        }
        index = beyond(written, span, ahead);
    }
    None
}

/// The cursor after the first base day with a set position, from that cursor on and up to the last day.
fn next_chosen(written: &Written, start: DayFacts, from: Cursor, last: u32) -> Option<Cursor>
    requires interval { 1 ≤ written.now.interval }
    requires start { AreFacts start }
    requires is_cursor { IsCursorOf (pattern_of written.now start.index) from }
    requires last { last ≤ 3_652_424 }
    ensures { let p = pattern_of written.now start.index in MatchOption result
        (NoneIn (is_chosen p) from.day.index (last + 1)) (IsPastFirst p from.day.index (last + 1)) }
{
    let Some(after) = go_on(written, start, from) else {
        return first_chosen(written, start, from.span.end, last);
    };
    if after.is_past(last) {
        return None;
    }
    Some(after)
}

/// Is this a rule day apart from COUNT?
#[tactic(auto, using(std::proofs::lemmas::Bool::Decides::nat_tests), unfolding(profile::specs::series::Rules::is_counted))]
pub(crate) fn is_counted(written: &Written, start: DayFacts, last: Day, day: Day) -> bool
    requires interval { 1 ≤ written.now.interval }
    requires start { AreFacts start }
    ensures { result ≡ is_counted (rule_said written.now start.index (day_index last)) (day_index day) }
{
    let index = day.index();
    if index < start.index || index > last.index().min(LAST_INDEX) {
        return false;
    }
    is_chosen(written, start, index)
}

/// Is this a base day with a set position?
fn is_chosen(written: &Written, start: DayFacts, index: u32) -> bool
    requires interval { 1 ≤ written.now.interval }
    requires start { AreFacts start }
    requires range { (366 ≤ index) × (index ≤ 3_652_424) }
    ensures { result ≡ is_chosen (pattern_of written.now start.index) index }
{
    first_chosen(written, start, index, index).is_some()
}

/// The cursor after the least rule day apart from COUNT, from that cursor on.
pub(crate) fn next_counted(
    written: &Written,
    start: DayFacts,
    last: Day,
    from: Cursor,
) -> Option<Cursor>
    requires interval { 1 ≤ written.now.interval }
    requires start { AreFacts start }
    requires is_cursor { IsCursorOf (pattern_of written.now start.index) from }
    ensures { let parts = rule_said written.now start.index (day_index last) in
        MatchOption result (HasNoDayFrom parts from.day.index) (IsPastNext parts from.day.index) }
{
    let limit = last.index().min(LAST_INDEX);
    let begin = from.not_before(start);
    next_chosen(written, start, begin, limit)
}

/// The last day that COUNT allows: where it is never reached, 9999-12-31.
pub(crate) fn find_end(written: &Written, start: DayFacts, last: Day) -> u32
    requires interval { 1 ≤ written.now.interval }
    requires start { AreFacts start }
    ensures { RuleEndsAt (rule_said written.now start.index (day_index last)) result }
{
    let Some(count) = written.count else {
        return LAST_INDEX;
    };
    let mut cursor = Cursor::at(start);
    for done in 0..count {
        let Some(after) = next_counted(written, start, last, cursor) else {
            return LAST_INDEX;
        };
        cursor = after;
    }
    cursor.day.index - 1
}

/// From a period with that remainder by the interval, how many periods are to be gone on to reach the
/// other remainder.
fn periods_ahead(interval: u32, here: u32, there: u32) -> u32
    requires here { here < interval }
    requires there { there < interval }
    ensures none_sooner { (j : ℕ) → j < result → (here + j) % interval ≡ there → ⊥ }
    ensures none_left { result ≡ 0 → here ≡ there }
    ensures range { result ≤ interval }
{
    if here <= there {
        return there - here;
    }
    interval - (here - there)
}

/// How many days from that one on and before the end pass each part.
fn count_passing(written: &Written, start: DayFacts, from: DayFacts, end: u32) -> u32
    requires start { AreFacts start }
    requires from { AreFacts from }
    requires range { (366 ≤ from.index) × (from.index ≤ end) × (end ≤ 3_653_155) }
    ensures { result ≡ count_days (passes (pattern_of written.now start.index)) from.index (end - from.index) }
{
    let mut day = from;
    let mut count = 0;
    while day.index < end {
        if written.passes(start, day) {
            count += 1;
        }
        day = day.tomorrow(end);
    }
    count
}

/// How many days of its period before a day pass each part.
fn count_before(written: &Written, start: DayFacts, day: DayFacts, span: PeriodDays) -> u32
    requires start { AreFacts start }
    requires range { (366 ≤ span.first) × (span.first ≤ day.index) × (day.index ≤ 3_653_155) }
    ensures { result
        ≡ count_days (passes (pattern_of written.now start.index)) span.first (day.index - span.first) }
{
    if span.first == day.index {
        return 0;
    }
    let first = looked_up(span.first);
    count_passing(written, start, first, day.index)
}

/// The cursor at a day whose period is in step; or at a later one, where no day before that has a set position.
fn enter(written: &Written, start: DayFacts, day: DayFacts, span: PeriodDays) -> Cursor
    requires start { AreFacts start }
    requires day { AreFacts day }
    requires end { span.end ≤ 3_653_155 }
    requires span { IsPeriodSpan (frequency_of written.now.frequency) written.now.week_start day.index span.first span.end }
    requires in_step { is_in_step (pattern_of written.now start.index) day.index ≡ true }
    ensures not_before { day.index ≤ result.day.index }
    ensures span { result.span ≡ span }
    ensures none { NoneIn (is_chosen (pattern_of written.now start.index)) day.index result.day.index }
    ensures is_cursor { IsCursorOf (pattern_of written.now start.index) result }
{
    if written.positions.is_empty() {
        return Cursor {
            day,
            span,
            earlier: 0,
            later: 0,
        };
    }
    if let Some(depth) = depth_from_end(&written.positions) {
        return enter_from_end(written, start, day, span, depth);
    }
    Cursor {
        day,
        span,
        earlier: count_before(written, start, day, span),
        later: count_passing(written, start, day, span.end),
    }
}

/// Is the cursor's day a base day with a set position? And the cursor at the day after it.
fn pass(written: &Written, start: DayFacts, cursor: Cursor) -> (bool, Cursor)
    requires start { AreFacts start }
    requires is_cursor { IsCursorOf (pattern_of written.now start.index) cursor }
    requires inside { cursor.day.index < cursor.span.end }
    ensures chosen { result.0 ≡ is_chosen (pattern_of written.now start.index) cursor.day.index }
    ensures index { result.1.day.index ≡ cursor.day.index + 1 }
    ensures span { result.1.span ≡ cursor.span }
    ensures is_cursor { IsCursorOf (pattern_of written.now start.index) result.1 }
{
    let day = cursor.day.tomorrow(cursor.span.end);
    if !written.passes(start, cursor.day) {
        return (false, Cursor { day, ..cursor });
    }
    if written.positions.is_empty() {
        return (true, Cursor { day, ..cursor });
    }
    let later = cursor.later - 1;
    let placed = allows_nth(&written.positions, cursor.earlier, later);
    let after = Cursor {
        day,
        span: cursor.span,
        earlier: cursor.earlier + 1,
        later,
    };
    (placed, after)
}

/// The cursor after the first base day with a set position from that cursor to the end of its period.
fn go_on(written: &Written, start: DayFacts, from: Cursor) -> Option<Cursor>
    requires start { AreFacts start }
    requires is_cursor { IsCursorOf (pattern_of written.now start.index) from }
    ensures { let p = pattern_of written.now start.index in MatchOption result
        (NoneIn (is_chosen p) from.day.index from.span.end) (IsPastFirst p from.day.index from.span.end) }
{
    let mut cursor = from;
    while cursor.day.index < cursor.span.end {
        let (chosen, after) = pass(written, start, cursor);
        if chosen {
            return Some(after);
        }
        cursor = after;
    }
    None
}

/// The cursor after the first base day with a set position from that day to the end of its period, which
/// is in step where no period has to be passed to the next one that is.
fn first_in_period(
    written: &Written,
    start: DayFacts,
    day: DayFacts,
    span: PeriodDays,
    ahead: u32,
) -> Option<Cursor>
    requires start { AreFacts start }
    requires day { AreFacts day }
    requires end { span.end ≤ 3_652_790 }
    requires span { IsPeriodSpan (frequency_of written.now.frequency) written.now.week_start day.index span.first span.end }
    requires here { ahead ≡ 0 → is_in_step (pattern_of written.now start.index) day.index ≡ true }
    requires away { 1 ≤ ahead → is_in_step (pattern_of written.now start.index) day.index ≡ false }
    ensures { let p = pattern_of written.now start.index in MatchOption result
        (NoneIn (is_chosen p) day.index span.end) (IsPastFirst p day.index span.end) }
{
    if ahead > 0 {
        return None;
    }
    let cursor = enter(written, start, day, span);
    go_on(written, start, cursor)
}

/// The cursor at the latest day, from that one on, from which this many days of the period pass each part; at that day
/// itself, where fewer do.
fn enter_from_end(
    written: &Written,
    start: DayFacts,
    day: DayFacts,
    span: PeriodDays,
    depth: u32,
) -> Cursor
    requires start { AreFacts start }
    requires day { AreFacts day }
    requires end { span.end ≤ 3_653_155 }
    requires span { IsPeriodSpan (frequency_of written.now.frequency) written.now.week_start day.index span.first span.end }
    requires in_step { is_in_step (pattern_of written.now start.index) day.index ≡ true }
    requires some { is_missing (pattern_of written.now start.index).positions ≡ false }
    requires deep { list_all (is_among_last depth) (pattern_of written.now start.index).positions ≡ true }
    ensures not_before { day.index ≤ result.day.index }
    ensures span { result.span ≡ span }
    ensures none { NoneIn (is_chosen (pattern_of written.now start.index)) day.index result.day.index }
    ensures is_cursor { IsCursorOf (pattern_of written.now start.index) result }
{
    let mut here = looked_up(span.end);
    let mut later = 0;
    while here.index > day.index && later < depth {
        here = here.yesterday();
        if written.passes(start, here) {
            later += 1;
        }
    }
    Cursor {
        day: here,
        span,
        earlier: 0,
        later,
    }
}

/// Among how many last ones all the positions are. None where one counts from the first day, and where there is none;
/// then the whole period is counted, which is always right and takes longer.
fn depth_from_end(positions: &[i16]) -> Option<u32>
    ensures { IfSome result (λ depth. list_all (is_among_last depth) positions.now ≡ true) }
{
    let farthest = *positions.iter().min()?;
    if farthest >= 0 {
        return None;
    }
    let depth = (-(farthest + 1)) as u32 + 1;
    if !are_among_last(depth, positions) {
        return None;
    }
    Some(depth)
}

/// Are all the positions among this many last ones?
fn are_among_last(depth: u32, positions: &[i16]) -> bool
    ensures { result ≡ list_all (is_among_last depth) positions.now }
{
    positions.iter().all(|position| *position < 0 && ((-(*position + 1)) as u32) < depth)
}
