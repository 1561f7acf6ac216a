//! What may fail: readers, writers and folders, in memory or of a device.
#![tactic(auto)]

mod call_log;
mod disk_folder;
mod failure;
mod folder;
pub mod input;
mod memory_file;
mod memory_folder;
pub mod output;
mod temporary_file;

pub use call_log::Call;
pub use disk_folder::DiskFolder;
pub use failure::{Explained, Failure};
pub use folder::{Folder, FolderFault, MOST_OCTETS};
pub use input::{DeviceReader, Input, Recorder, lend};
pub use memory_folder::MemoryFolder;
pub use output::{DeviceWriter, Nowhere, Output, WriteFault};
