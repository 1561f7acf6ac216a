//! The checker: does a certificate hold for a calendar? It judges the text that it is given and
//! makes no certificate of its own.
#![tactic(auto)]

pub mod checking;
pub mod drawing;
pub mod drawn;
mod group_sweep;
mod groups;
pub mod judging;
pub mod law;
mod open_series;
mod pairs;
mod residues;
mod singles;
mod span;
mod statements;
mod sweep;
pub mod verdict;
mod walk;

pub use checking::{certificate_means_clear, check, check_clash, judge_read};
pub use drawing::Drawing;
pub use drawn::Drawn;
pub use judging::judge;
pub use law::yes_means_free;
pub use verdict::{Checked, Verdict, Why};
