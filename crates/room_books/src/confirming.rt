//! What answers confirm.

ghost use Rattle.std.specs.Prelude.{◌≡◌, ◌++◌, length, map, IfOk, OnOk};
ghost use Rattle.std.specs.List.Sorted.{IsSortedByKey};
ghost use Rattle.itip_order.specs.Parts.{slot_of};
ghost use Rattle.profile.specs.rooms.Revisions.{slot_cmp};
ghost use Rattle.room_books.specs.Slots.{AreAnswersBySlot, left_without};
ghost use Rattle.room_books.specs.Meeting.{all_series, all_singles};

use crate::meeting::PartAnswer;
use crate::slots::{answers_of, is_touched};
use cal_events::{Series, Single};
use itip_order::Slot;
use std::alloc::{AllocError, Global};

/// The instances that these answers confirm.
pub(crate) fn singles_of(alloc: Global, answers: &[PartAnswer]) -> Result<Vec<Single>, AllocError>
    ensures { IfOk result (λ singles. singles.items ≡ all_singles answers.now) }
{
    let mut singles = Vec::new(alloc);
    for given in answers {
        singles.extend_from_slice(&given.singles)?;
    }
    Ok(singles)
}

/// The series that these answers confirm.
pub(crate) fn series_of<'a>(
    alloc: Global,
    answers: &'a [PartAnswer],
) -> Result<Vec<&'a Series>, AllocError>
    ensures { IfOk result (λ series. map (λ one. one.now) series.items ≡ all_series answers.now) }
{
    let mut series = Vec::new(alloc);
    push_series(&mut series, answers)?;
    Ok(series)
}

/// Puts the series that answers confirm after others.
fn push_series<'a>(
    series: &mut Vec<&'a Series>,
    answers: &'a [PartAnswer],
) -> Result<(), AllocError>
    ensures { OnOk result (map (λ one. one.now) series.new.items ≡ map (λ one. one.now) series.old.items ++ all_series answers.now) }
{
    for given in answers {
        let Some(one) = &given.series else {
            continue;
        };
        series.push(one)?;
    }
    Ok(())
}

/// Puts the series of the answers that stay after others, where those of these slots, in order, are lost.
fn push_kept<'a>(
    series: &mut Vec<&'a Series>,
    answers: &'a [PartAnswer],
    lost: &[Slot],
) -> Result<(), AllocError>
    requires answers { AreAnswersBySlot answers.now }
    requires lost { IsSortedByKey slot_of slot_cmp lost.now }
    ensures { OnOk result (map (λ one. one.now) series.new.items ≡ map (λ one. one.now) series.old.items ++ all_series (left_without lost.now answers.now)) }
{
    if is_touched(lost, Slot::Whole) {
        return Ok(());
    }
    push_series(series, answers_of(answers, Slot::Whole))?;
    Ok(())
}

/// How many series answers confirm: only a whole recurs.
pub fn count_series(answers: &[PartAnswer]) -> usize
    requires { AreAnswersBySlot answers.now }
    ensures { result ≡ length (all_series answers.now) }
{
    let mut count = 0;
    for given in answers_of(answers, Slot::Whole) {
        if given.series.is_some() {
            count += 1;
        }
    }
    count
}

/// The series of the answers that stay where those of these slots, in order, are lost and this is left of them.
pub fn kept_series<'a>(
    alloc: Global,
    answers: &'a [PartAnswer],
    lost: &[Slot],
    left: &'a [PartAnswer],
) -> Result<Vec<&'a Series>, AllocError>
    requires answers { AreAnswersBySlot answers.now }
    requires lost { IsSortedByKey slot_of slot_cmp lost.now }
    ensures { IfOk result (λ series. map (λ one. one.now) series.items ≡ all_series (left_without lost.now answers.now ++ left.now)) }
{
    let mut series = Vec::new(alloc);
    push_kept(&mut series, answers, lost)?;
    push_series(&mut series, left)?;
    Ok(series)
}
