//! How a stream can end before its input does.
ghost use Rattle.std.specs.Prelude.{◌≡◌};
ghost use Rattle.sched_box.specs.declared.fault.StreamFault.TheVariants as stream;
ghost use Rattle.sched_box.specs.declared.fault.ServeFault.TheVariants as serve;

use ical_lines::Refusal;
use std::alloc::{AllocError, AllocFailed};
use thiserror::Error;

/// Why serving ended.
#[derive(Clone, Copy, Debug, PartialEq, Eq, Drop, Error)]
pub enum ServeFault {
    /// The reader failed.
    #[error("the input can't be read")]
    Read,
    /// The writer failed: a beginning of the answers was written.
    #[error("the output can't be written")]
    Write,
    /// 1,073,741,824 octets were read.
    #[error("the input is too long")]
    TooLong,
    /// Out of memory.
    #[error("out of memory")]
    Memory,
}

/// Why a stream with its preamble ended.
#[derive(Clone, Copy, Debug, PartialEq, Eq, Drop, Error)]
pub enum StreamFault {
    /// The preamble is refused: 90.
    #[error(transparent)]
    Refused(Refusal),
    #[error(transparent)]
    Serve(ServeFault),
}

impl From<AllocError> for ServeFault {
    ghost from_gives = { λ _ e. e ≡ serve.Memory };

    fn from(_error: AllocError) -> ServeFault {
        ServeFault::Memory
    }
}

impl<T: Drop> From<AllocFailed<T>> for ServeFault {
    ghost from_gives = { λ _ e. e ≡ serve.Memory };

    fn from(_error: AllocFailed<T>) -> ServeFault {
        ServeFault::Memory
    }
}

impl From<ServeFault> for StreamFault {
    ghost from_gives = { λ fault e. e ≡ stream.Serve fault };

    fn from(fault: ServeFault) -> StreamFault {
        StreamFault::Serve(fault)
    }
}

impl From<AllocError> for StreamFault {
    ghost from_gives = { λ _ e. e ≡ stream.Serve serve.Memory };

    fn from(_error: AllocError) -> StreamFault {
        StreamFault::Serve(ServeFault::Memory)
    }
}

impl From<Refusal> for StreamFault {
    ghost from_gives = { λ refusal e. e ≡ stream.Refused refusal };

    fn from(refusal: Refusal) -> StreamFault {
        StreamFault::Refused(refusal)
    }
}
