//! A box of rooms and organisers: streams of objects, and the answers to them; and schedules, in which what was sent arrives in any order.
#![tactic(auto)]

mod books;
pub mod config;
mod directory;
mod fault;
pub mod file_names;
pub mod folders;
pub mod journal;
pub mod meetings;
pub mod objects;
mod organisers;
pub mod preamble;
mod rooms;
mod schedules;
pub mod serving;
mod settings;

pub use config::Config;
pub use fault::{ServeFault, StreamFault};
pub use file_names::MessageName;
pub use folders::{BoxFault, BoxReport, Comparison, compare_box, run_box, run_box_telling};
pub use journal::{Fate, Journal, Nobody};
pub use meetings::shown_meetings;
pub use preamble::read_preamble;
pub use sched_devices::{
    DeviceReader, DeviceWriter, DiskFolder, Folder, FolderFault, Input, Output, Recorder,
    WriteFault,
};
pub use schedules::{Step, World, play};
pub use serving::{ServeReport, keep, serve, serve_stream, serve_stream_telling};
pub use settings::{MOST_ORGANISERS, MOST_ROOMS, ZonedRoom};
