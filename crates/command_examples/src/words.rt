//! The words for the calls of a folder.

use sched_devices::Call;

/// A call in one word.
pub fn call_word(call: &Call) -> &'static str {
    match call {
        Call::Names => "names",
        Call::Read(_) => "read",
        Call::WriteTemp => "write_temp",
        Call::SyncTemp => "sync_temp",
        Call::Publish(_) => "publish",
        Call::SyncDir => "sync_dir",
    }
}
