//! Why a door hands nothing on.

ghost use Rattle.std.specs.Prelude.{◌≡◌};
ghost use Rattle.sched_doors.specs.declared.fault.DoorFault.TheVariants.{Memory};

use std::alloc::{AllocError, AllocFailed};
use thiserror::Error;

/// Why a door hands nothing on, though its input hasn't ended.
#[derive(Clone, Copy, Debug, PartialEq, Eq, Drop, Error)]
pub enum DoorFault {
    /// The reader failed.
    #[error("the input can't be read")]
    Read,
    /// Out of memory.
    #[error("out of memory")]
    Memory,
}

impl From<AllocError> for DoorFault {
    ghost from_gives = { λ _ e. e ≡ Memory };

    fn from(_error: AllocError) -> DoorFault {
        DoorFault::Memory
    }
}

impl<T: Drop> From<AllocFailed<T>> for DoorFault {
    ghost from_gives = { λ _ e. e ≡ Memory };

    fn from(_error: AllocFailed<T>) -> DoorFault {
        DoorFault::Memory
    }
}
