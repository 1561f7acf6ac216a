//! The commands of `roombox`, over readers, octets and writers that are handed in.
#![tactic(auto)]

pub mod adapt;
pub mod agenda;
mod blamed;
pub mod commands;
pub mod diagnosis;
pub mod expand;
pub mod explain;
pub mod folders;
mod header;
pub mod log;
pub mod meetings;
pub mod preamble;
mod returned;
mod shown;
pub mod status;
pub mod tally;

pub use adapt::run_adapt;
pub use agenda::{run_agenda, run_free, run_page, run_published};
pub use commands::{run_check, run_keep, run_serve};
pub use diagnosis::run_explain_object;
pub use expand::run_expand;
pub use explain::run_explain;
pub use folders::{run_compare, run_folders, run_folders_report};
pub use log::Log;
pub use meetings::run_meetings;
pub use returned::{WayBack, run_returned};
pub use tally::{Tally, run_serve_report};
