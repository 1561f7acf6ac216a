//! Which instances of a part other parts in the view hide, and what is left of it.

ghost use Rattle.std.specs.Prelude.{◌≡◌, ◌≢◌, true, false, List, [], Some, IfOk};
ghost use Rattle.std.specs.Option.{option_to_list};
ghost use Rattle.itip_order.specs.Parts.{part_of, slot_of};
ghost use Rattle.itip_order.specs.Registers.{RepresentsHistory};
ghost use Rattle.profile.specs.checker.Instances.{Instance};
ghost use Rattle.profile.specs.events.Starts.{IsInstance};
ghost use Rattle.profile.specs.rooms.Revisions as revisions;
ghost use Rattle.profile.specs.rooms.Rooms as rooms;
ghost use Rattle.cal_events.specs.Series.{series_said};
ghost use Rattle.room_books.specs.Gone.{IsPartOf};
ghost use Rattle.room_books.specs.Taking.{is_hidden_by, left_in, part_instance, AreHiddenStarts, HidesOneOf, IsHiddenStart, IsSeriesLeft};
ghost use Rattle.room_books.specs.Meeting.{AreFewer, SaysLoss};

use cal_events::{Series, Single};
use itip_order::{Part, Slot, Together};
use std::alloc::{AllocError, Global};

/// A part's series without the starts that another part in the view hides.
pub(crate) fn series_left(
    alloc: Global,
    held: &Together<'_>,
    part: &Part,
    series: &Option<Series>,
) -> Result<Option<Series>, AllocError>
    ensures left { IfOk result (λ left. (history : List revisions.Part) → RepresentsHistory held.now history
        → IsSeriesLeft (rooms.is_hidden history (part_of part.now)) series.now left) }
    ensures fewer { IfOk result (λ left. AreFewer (option_to_list series.now) (option_to_list left)) }
{
    let Some(series) = series else {
        return Ok(None);
    };
    let slots = held.slots(alloc)?;
    let left = without_hidden(alloc, held, part, &slots, series)?;
    Ok(Some(left))
}

/// A part's series without the starts that a part of these slots in the view hides.
pub(crate) fn series_without(
    alloc: Global,
    held: &Together<'_>,
    part: &Part,
    slots: &[Slot],
    series: &Option<Series>,
) -> Result<Option<Series>, AllocError>
    ensures left { IfOk result (λ left. (history : List revisions.Part) → RepresentsHistory held.now history
        → IsSeriesLeft (is_hidden_by slots.now history (part_of part.now)) series.now left) }
    ensures fewer { IfOk result (λ left. AreFewer (option_to_list series.now) (option_to_list left)) }
{
    let Some(series) = series else {
        return Ok(None);
    };
    let left = without_hidden(alloc, held, part, slots, series)?;
    Ok(Some(left))
}

/// A series without the starts that a part of these slots in the view hides.
fn without_hidden(
    alloc: Global,
    held: &Together<'_>,
    part: &Part,
    slots: &[Slot],
    series: &Series,
) -> Result<Series, AllocError>
    ensures left { IfOk result (λ left. (history : List revisions.Part) → RepresentsHistory held.now history
        → IsSeriesLeft (is_hidden_by slots.now history (part_of part.now)) (Some series.now) (Some left)) }
    ensures fewer { IfOk result (λ left. AreFewer (option_to_list (Some series.now)) (option_to_list (Some left))) }
{
    // Only for the proof: an instance of a series is known by its start.
    cal_events::known_by_start();
    let starts = hidden_starts(alloc, held, part, slots)?;
    let left = series.without(alloc, &starts)?;
    Ok(left)
}

/// The instances of a part that a part of these slots in the view hides, by their original starts.
fn hidden_starts(
    alloc: Global,
    held: &Together<'_>,
    part: &Part,
    slots: &[Slot],
) -> Result<Vec<i64>, AllocError>
    ensures { IfOk result (λ starts. (history : List revisions.Part) → RepresentsHistory held.now history
        → AreHiddenStarts slots.now history (part_of part.now) starts.items) }
{
    let mut starts = Vec::new(alloc);
    for slot in slots {
        let Some(start) = hidden_start(held, part, *slot) else {
            continue;
        };
        starts.push(start)?;
    }
    Ok(starts)
}

/// Whether a part of these slots in the view hides a start of a part's series.
pub(crate) fn hides_start(
    held: &Together<'_>,
    part: &Part,
    slots: &[Slot],
    series: &Option<Series>,
) -> bool
    ensures none { result ≡ false → (history : List revisions.Part) → RepresentsHistory held.now history
        → IsSeriesLeft (is_hidden_by slots.now history (part_of part.now)) series.now series.now }
    ensures one { result ≡ true → (history : List revisions.Part) → RepresentsHistory held.now history
        → HidesOneOf (is_hidden_by slots.now history (part_of part.now)) (option_to_list series.now) }
{
    let Some(series) = series else {
        return false;
    };
    for slot in slots {
        if hides_one(held, part, *slot, series) {
            return true;
        }
    }
    false
}

/// Whether a part of this slot in the view hides a start of a part's series.
fn hides_one(held: &Together<'_>, part: &Part, slot: Slot, series: &Series) -> bool
    ensures none { result ≡ false → (history : List revisions.Part) → RepresentsHistory held.now history → (booked : Instance) → IsInstance (series_said series.now) booked
        → slot_of slot ≡ revisions.At booked.key.slot → rooms.is_hidden history (part_of part.now) booked ≡ false }
    ensures one { result ≡ true → (history : List revisions.Part) → RepresentsHistory held.now history
        → (booked : Instance) × IsInstance (series_said series.now) booked × (slot_of slot ≡ revisions.At booked.key.slot) × (rooms.is_hidden history (part_of part.now) booked ≡ true) }
{
    // Only for the proof: an instance of a series is known by its start.
    cal_events::known_by_start();
    match hidden_start(held, part, slot) {
        Some(start) => has_start(series, start),
        None => false,
    }
}

/// The original start of the instance of a part, where a part of this slot in the view hides it.
fn hidden_start(held: &Together<'_>, part: &Part, slot: Slot) -> Option<i64>
    ensures { (history : List revisions.Part) → RepresentsHistory held.now history → IsHiddenStart history (part_of part.now) (slot_of slot) result }
{
    let Slot::At(start) = slot else {
        return None;
    };
    if is_start_hidden(held, part, start) {
        return Some(start);
    }
    None
}

/// Whether a series starts at an instant. It jumps there.
fn has_start(series: &Series, start: i64) -> bool
    ensures none { result ≡ false → (booked : Instance) → IsInstance (series_said series.now) booked → booked.start ≢ start }
    ensures one { result ≡ true → (booked : Instance) × IsInstance (series_said series.now) booked × (booked.start ≡ start) }
{
    match series.starts(start).next() {
        Some(instance) => instance.start == start,
        None => false,
    }
}

/// Whether a series has an instance.
pub(crate) fn has_instance(series: &Option<Series>) -> bool
    ensures { SaysLoss result (option_to_list series.now) [] }
{
    let Some(series) = series else {
        return false;
    };
    // Only for the proof: an instance of a series is known by its start.
    cal_events::known_by_start();
    match series.starts(i64::MIN).next() {
        Some(_) => true,
        None => false,
    }
}

/// Those of a part's instances that no other part in the view hides.
pub(crate) fn left_of(
    alloc: Global,
    held: &Together<'_>,
    part: &Part,
    singles: &[Single],
) -> Result<Vec<Single>, AllocError>
    ensures left { IfOk result (λ left. (history : List revisions.Part) → RepresentsHistory held.now history → left.items ≡ left_in history (part_of part.now) singles.now) }
    ensures part { IfOk result (λ left. IsPartOf left.items singles.now) }
{
    let mut left = Vec::new(alloc);
    for single in singles {
        if is_hidden(held, part, *single) {
            continue;
        }
        left.push(*single)?;
    }
    Ok(left)
}

/// Whether another part in the view hides an instance of a part.
pub(crate) fn is_hidden(held: &Together<'_>, part: &Part, single: Single) -> bool
    ensures { (history : List revisions.Part) → RepresentsHistory held.now history → result ≡ rooms.is_hidden history (part_of part.now) (part_instance (part_of part.now) single) }
{
    is_start_hidden(held, part, single.slot)
}

/// Whether another part in the view hides the instance of a part with this original start.
fn is_start_hidden(held: &Together<'_>, part: &Part, start: i64) -> bool
    ensures { (history : List revisions.Part) → RepresentsHistory held.now history → (booked : Instance) → booked.key.slot ≡ start
        → result ≡ rooms.is_hidden history (part_of part.now) booked }
{
    match part.slot {
        Slot::Whole => held.part_in(part, Slot::At(start)).is_some(),
        Slot::At(_) => false,
    }
}
