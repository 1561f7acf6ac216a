//! After how many days recurrences do the same again, and whether two series of a calendar, or one by itself, are clear of each other: what they do
//! in one common period settles them for all time. And whether the singles of a calendar are clear of its series.
#![tactic(auto)]

mod abreast;
mod alone;
mod arcs;
mod beside;
mod by_residues;
mod clash;
mod common;
mod law;
mod near;
mod new_series;
mod onsets;
mod phases;
mod recurs;
mod residue;
mod settled;
mod sharer;
mod span;
mod walk;

pub use alone::clash_alone;
pub use arcs::{are_apart, is_apart, reaches};
pub use beside::{Beside, single_beside_series};
pub use by_residues::may_meet;
pub use clash::clash_of_pair;
pub use law::{periods_are_multiples, residues_settle, series_repeat, spans_settle};
pub use new_series::NewSeries;
pub use recurs::{Recurs, common_period};
pub use residue::{MOST_RESIDUE_DAYS, residues, settling_residues};
pub use sharer::first_sharer;
pub use span::{CommonSpan, span_end, span_of_members, span_of_pair};
