//! Why a case has no answer.

use ical_lines::{Fault, Refusal};
use std::alloc::{AllocError, AllocFailed};
use std::io;
use thiserror::Error;

/// What is printed in place of an answer.
#[derive(Clone, Copy, Debug, PartialEq, Eq, Drop, Error)]
pub enum NoAnswer {
    #[error(transparent)]
    Refused(Refusal),
    /// The line of the table doesn't read, or a file that it names.
    #[error("unreadable case")]
    Unreadable,
    #[error("out of memory")]
    Memory,
}

impl From<Refusal> for NoAnswer {
    fn from(refusal: Refusal) -> NoAnswer {
        NoAnswer::Refused(refusal)
    }
}

impl From<Fault> for NoAnswer {
    fn from(fault: Fault) -> NoAnswer {
        match fault {
            Fault::Refused(refusal) => NoAnswer::Refused(refusal),
            Fault::Memory => NoAnswer::Memory,
        }
    }
}

impl From<AllocError> for NoAnswer {
    fn from(_error: AllocError) -> NoAnswer {
        NoAnswer::Memory
    }
}

impl<T: Drop> From<AllocFailed<T>> for NoAnswer {
    fn from(_error: AllocFailed<T>) -> NoAnswer {
        NoAnswer::Memory
    }
}

impl From<io::Error> for NoAnswer {
    fn from(_error: io::Error) -> NoAnswer {
        NoAnswer::Unreadable
    }
}
