//! Recurrence rules (RFC 5545 3.3.10, 3.8.5.3): the days that a rule means, listed, tested and jumped to
//! exactly, to the end of the year 9999.
#![tactic(auto)]

mod cursor;
mod facts;
mod form;
mod law;
mod listing;
mod parts;
mod period;
mod rule;
mod text;
mod values;
mod write;
mod written;

pub use form::form_days_repeat;
pub use law::{base_days_repeat, rule_days_repeat, shifts_are_multiples};
pub use period::{MOST_PERIOD, common_multiple};
pub use rule::{Days, Rule};
pub use text::{RuleText, one_rule};
pub use write::{rule_reads_back, values_read_back, weekday_word, written_means_the_same};
pub use written::{Until, WeekdayNumber};
