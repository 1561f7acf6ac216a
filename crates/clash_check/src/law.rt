//! What the checker's yes means, in plain words: laws, with nothing to do.

ghost use Rattle.std.specs.Prelude.{ℕ, List};
ghost use Rattle.profile.specs.Headline.{IsFree};
ghost use Rattle.profile.specs.checker.Calendars.{CertificateHolds};

use crate::checking::certificate_means_clear;
use cal_events::{calendar_series_are_said, series_and_singles_divide, singles_are_confirmed};

/// Where the certificate holds for the room's calendar, no two of the instances that the calendar's octets confirm for the room share an
/// instant before year 10000.
pub fn yes_means_free()
    ensures { (room calendar certificate : List ℕ) → CertificateHolds room calendar certificate → IsFree room calendar }
{
    certificate_means_clear();
    calendar_series_are_said();
    series_and_singles_divide();
    singles_are_confirmed();
}
