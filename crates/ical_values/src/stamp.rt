//! UTC date-times (RFC 5545 3.3.5, form 2): `YYYYMMDDTHHMMSSZ`, of the years 0001 to 9999. A stamp is
//! kept as its instant. Leap seconds aren't counted: second 60 is read as 59.

ghost use Rattle.std.specs.Prelude.{ℕ, List, ◌≡◌, ◌↔◌, negsuc, IsSome, IfSome, ℤ, IfOk, IfErr, OnOk, OnErr};
ghost use Rattle.profile.specs.text.Values.{SpellsStamp, WritesStamp, IsClockSeconds};
ghost use Rattle.profile.specs.events.Properties.{ends_in_z};
ghost use Rattle.ical_values.specs.Written.{Appends};

use crate::clock;
use ical_lines::Refusal;
use std::alloc::AllocError;
use std::marker::Model;

/// A UTC date-time.
#[derive(Clone, Copy, PartialEq, Eq, PartialOrd, Ord)]
pub struct Stamp {
    instant: i64,
}

impl Model for Stamp {
    ghost use Rattle.std.specs.Prelude.{ℤ};
    ghost use Rattle.profile.specs.text.Values.{IsClockSeconds};

    ghost Value = { ℤ };

    ghost view = { λ s. s.instant };

    ghost inverse = { λ n. record { instant = n } };

    ghost invariant = { λ s. IsClockSeconds s.instant };
}

impl Stamp {
    /// Reads `YYYYMMDDTHHMMSSZ`. Anything else is refused as a bad stamp (10).
    pub fn read(text: &str) -> Result<Stamp, Refusal>
        ensures reads { IfOk result (SpellsStamp text.now) }
        ensures refuses { IfErr result (λ e. e.number ≡ 10) }
        ensures none { OnErr result ((instant : ℤ) → SpellsStamp text.now instant → ⊥) }
    {
        let Some(local) = text.strip_suffix('Z') else {
            return Err(Refusal::BAD_STAMP);
        };
        match clock::read(local.as_bytes()) {
            Some(instant) => Ok(Stamp { instant }),
            None => Err(Refusal::BAD_STAMP),
        }
    }

    /// Appends `YYYYMMDDTHHMMSSZ`. Where memory is refused, nothing is appended.
    pub fn write(self, out: &mut Vec<u8>) -> Result<(), AllocError>
        ensures ok { OnOk result (Appends out.old.items out.new.items (λ text. WritesStamp text self)) }
        ensures err { OnErr result (out.new.items ≡ out.old.items) }
    {
        let Stamp { instant } = self;
        clock::write(instant, b"Z", out)
    }

    /// Seconds from 1970-01-01T00:00:00Z.
    pub fn instant(self) -> i64
        ensures value { result ≡ self }
        ensures range { IsClockSeconds result }
    {
        self.instant
    }

    /// The stamp of an instant. None before the year 1 and after the year 9999.
    pub fn of_instant(instant: i64) -> Option<Stamp>
        ensures found { IsSome result ↔ IsClockSeconds instant }
        ensures value { IfSome result (λ s. s ≡ instant) }
    {
        if instant < clock::FIRST || instant > clock::LAST {
            return None;
        }
        Some(Stamp { instant })
    }

    /// 0001-01-01T00:00:00Z, the first stamp.
    pub fn least() -> Stamp
        ensures { result ≡ negsuc 62_135_596_799 }
    {
        Stamp {
            instant: clock::FIRST,
        }
    }
}

/// A text spells at most one stamp, what is written of a stamp spells it, and a stamp is written in one
/// form. With the contracts of `read` and `write`: what was written is read as the same stamp.
pub fn one_stamp()
    ensures reading { (text : List ℕ) (a b : ℤ) → SpellsStamp text a → SpellsStamp text b → a ≡ b }
    ensures written { (text : List ℕ) (a : ℤ) → WritesStamp text a → SpellsStamp text a }
    ensures form { (x y : List ℕ) (a : ℤ) → WritesStamp x a → WritesStamp y a → x ≡ y }
{
    cal_days::one_date();
}

/// Whether a text ends as a UTC date-time does, with `Z`.
pub fn ends_in_z(text: &str) -> bool
    ensures { result ≡ ends_in_z text.now }
{
    text.ends_with('Z')
}
