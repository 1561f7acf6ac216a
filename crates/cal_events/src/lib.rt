//! Events, instances and calendars, starts and ends with their zones, and the rules of events.
#![tactic(auto)]

pub mod blamed;
pub mod calendar;
pub mod component;
mod component_values;
mod draft;
mod entries;
mod event;
mod event_rule;
mod event_times;
pub mod instance;
mod instances;
mod instants;
mod meeting_components;
mod method;
pub mod naming;
mod neighbours;
mod occurrences;
mod on_clocks;
mod overlapping;
mod own_instances;
mod place;
mod places;
mod properties;
mod property;
mod reading;
mod recurrence;
mod regular;
mod rule_days;
mod series;
mod single_starts;
pub mod sweep;
mod texts;
mod time;
mod when;
mod whole;
mod with_zone;
mod zones;

pub use blamed::blamed_uid;
pub use calendar::{Calendar, Singles};
pub use component::{Attendee, EventComponent, PartStat, one_event};
pub use event::{Event, one_instance, one_meeting};
pub use event_rule::as_end;
pub use event_times::{EventTimes, FIRST_SECOND};
pub use instance::{HORIZON, Instance, InstanceKey, OwnedKey, Single};
pub use instances::{Instances, is_in_event_dates};
pub use meeting_components::read_meeting;
pub use method::Method;
pub use naming::Naming;
pub use occurrences::WrittenTimes;
pub use on_clocks::instances_are_on_clocks;
pub use property::{PROPERTIES, Presence, Property};
pub use reading::{
    calendar_series_are_said, one_calendar, one_calendar_text, series_and_singles_divide,
    singles_are_confirmed,
};
pub use series::Series;
pub use sweep::{Overlap, Span, first_overlap};
pub use time::Time;
pub use when::{Form, When, judge_time, one_zoned_time};
pub use whole::{
    all_instances, all_starts, instances_last, known_by_start, listed_series, series_are_said,
};
pub use with_zone::zone_named_keeps;
