//! A room's calendar: what is confirmed in it, series and singles, both in the calendar's order.
ghost use Rattle.std.specs.Prelude.{◌≡◌, ◌<◌, map, length, option_map, Contains, IfOk, IfNone, IfSome};
ghost use Rattle.std.specs.List.{slice_get};
ghost use Rattle.std.specs.Iterator.{YieldsFirstBy, item_count};
ghost use Rattle.profile.specs.checker.Instances.{IsClear};
ghost use Rattle.cal_events.specs.Calendar.{named_instance, instance_of, owned_key_of, span_of, HaveDifferentKeys, HaveOwnKeys, AreWithin};
ghost use Rattle.cal_events.specs.Clashes.{Names};
ghost use Rattle.cal_events.specs.Series.{series_said};

use crate::entries::Entries;
use crate::instance::{Instance, OwnedKey};
use crate::series::Series;
use crate::sweep::{Overlap, Span, first_overlap};
use std::alloc::{AllocError, Global};
use std::marker::Model;

/// A single: an instance of the VEVENT at a place among the calendar's.
#[derive(Clone, Copy)]
pub(crate) struct PlacedSingle {
    pub(crate) entry: usize,
    pub(crate) slot: i64,
    pub(crate) start: i64,
    pub(crate) end: i64,
}

/// What is confirmed in a room.
#[derive(Drop)]
pub struct Calendar {
    pub(crate) entries: Entries,
    pub(crate) singles: Vec<PlacedSingle>,
    pub(crate) series: Vec<Series>,
}

impl Model for Calendar {
    ghost use Rattle.std.specs.Prelude.{map};
    ghost use Rattle.profile.specs.events.Confirmed.{Confirmed};
    ghost use Rattle.cal_events.specs.Series.{series_said};
    ghost use Rattle.cal_events.specs.Calendar.{named_instance, HaveDifferentKeys, HaveOwnKeys, AreWithin};

    ghost Value = { Confirmed };

    ghost view = { λ c. record { series = map series_said c.series.items; singles = map (named_instance c.entries) c.singles.items } };

    ghost invariant = { λ c. HaveDifferentKeys (map (named_instance c.entries) c.singles.items) × AreWithin c.entries c.singles.items
        × HaveOwnKeys (record { series = map series_said c.series.items; singles = map (named_instance c.entries) c.singles.items }) };
}

/// The singles of a calendar, in its order.
#[derive(Drop)]
pub struct Singles<'a> {
    entries: &'a Entries,
    singles: &'a [PlacedSingle],
    ghost within: { AreWithin entries.now singles.now },
}

impl Calendar {
    ghost use Rattle.cal_events.specs.SinglesLeft.{singles_left};

    /// The singles: the confirmed instances that belong to no series, in the calendar's order.
    pub fn singles(&self) -> Singles<'_>
        ensures left { singles_left result ≡ self.now.singles }
        ensures keys { HaveDifferentKeys self.now.singles }
    {
        Singles {
            entries: &self.entries,
            singles: &self.singles,
        }
    }

    /// How many singles there are.
    pub fn single_count(&self) -> u64
        ensures { result ≡ length self.now.singles }
    {
        self.singles.len() as u64
    }

    /// The series: the masters with RRULE that the room has accepted, in the calendar's order.
    pub fn series(&self) -> &[Series]
        ensures are { map series_said result.now ≡ self.now.series }
        ensures keys { HaveOwnKeys self.now }
    {
        &self.series
    }

    /// How many series there are.
    pub fn series_count(&self) -> u64
        ensures { result ≡ length self.now.series }
    {
        self.series.len() as u64
    }

    /// The single at a place of the calendar's order, counted from 0.
    pub fn single(&self, place: usize) -> Option<Instance<'_>>
        ensures { option_map instance_of result ≡ slice_get self.now.singles place }
    {
        let single = self.singles.get(place)?;
        Some(single.lend(&self.entries))
    }

    /// Its key, owned. It fails only when out of memory.
    pub fn key(&self, place: usize) -> Result<Option<OwnedKey>, AllocError>
        ensures { IfOk result (λ key. option_map owned_key_of key ≡ option_map (λ b. b.key) (slice_get self.now.singles place)) }
    {
        match self.singles.get(place) {
            Some(single) => Ok(Some(self.entries.owned_key_at(single.entry, single.slot)?)),
            None => Ok(None),
        }
    }

    /// The places of two singles that clash, the earlier start first, and the later start; None
    /// where the singles are clear. Fails only when out of memory.
    pub fn first_overlap(&self, alloc: Global) -> Result<Option<Overlap>, AllocError>
        ensures clash { IfOk result (λ r. IfSome r (Names self.now.singles)) }
        ensures clear { IfOk result (λ r. IfNone r (IsClear (Contains self.now.singles))) }
    {
        let spans = spans_of(alloc, &self.singles)?;
        first_overlap(alloc, &spans)
    }
}

impl PlacedSingle {
    /// The instance, of one of these VEVENTs.
    fn lend<'a>(&self, entries: &'a Entries) -> Instance<'a>
        requires { self.now.entry < length entries.now }
        ensures { instance_of result ≡ named_instance entries.now self.now }
    {
        Instance {
            key: entries.key_at(self.entry, self.slot),
            start: self.start,
            end: self.end,
        }
    }
}

impl<'a> Iterator for Singles<'a> {
    ghost use Rattle.cal_events.specs.SinglesLeft.{singles_left};

    type Item = Instance<'a>;

    ghost next_gives = { YieldsFirstBy instance_of singles_left };

    ghost remaining = { item_count singles_left };

    fn next(&mut self) -> Option<Instance<'a>> {
        let (single, rest) = self.singles.split_first()?;
        self.singles = rest;
        Some(single.lend(self.entries))
    }
}

/// The span of each single, in order.
fn spans_of(alloc: Global, singles: &[PlacedSingle]) -> Result<Vec<Span>, AllocError>
    ensures { IfOk result (λ v. v.items ≡ map span_of singles.now) }
{
    let mut spans = Vec::new(alloc);
    for single in singles {
        spans.push(Span {
            start: single.start,
            end: single.end,
        })?;
    }
    Ok(spans)
}
