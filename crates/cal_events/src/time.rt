//! A time as it is written.
ghost use Rattle.profile.specs.series.Zones.{IsNearEpoch};

use crate::when::Form;

/// A time as it is written.
#[derive(Clone, Copy)]
pub struct Time {
    pub form: Form,
    /// In seconds from 1970-01-01T00:00:00Z; of a time that isn't fixed what it is in UTC.
    pub instant: i64,
    ghost range: { IsNearEpoch instant },
}
