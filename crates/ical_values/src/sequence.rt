//! Sequence numbers (RFC 5545 3.8.7.4): an integer from 0 to 2,147,483,647. A `+` and leading zeros
//! are allowed (RFC 5545 3.3.8); a minus sign isn't, also before 0.

ghost use Rattle.std.specs.Prelude.{List, ◌≡◌, ◌↔◌, ◌++◌, ◌<◌, ◌^◌, ℕ, decimal, IsSome, IfSome, IfOk, IfErr, OnOk, OnErr};
ghost use Rattle.profile.specs.text.Values.{SpellsSequence};

use ical_lines::Refusal;
use itoa::Buffer;
use std::alloc::AllocError;
use std::marker::Model;

/// The greatest sequence number.
const MAX: u32 = 2_147_483_647;

/// How often a meeting was revised.
#[derive(Clone, Copy, PartialEq, Eq, PartialOrd, Ord)]
pub struct Sequence {
    number: u32,
}

impl Model for Sequence {
    ghost use Rattle.std.specs.Prelude.{ℕ, ◌<◌, ◌^◌};

    ghost Value = { ℕ };

    ghost view = { λ s. s.number };

    ghost inverse = { λ n. record { number = n } };

    ghost invariant = { λ s. s.number < 2 ^ 31 };
}

impl Sequence {
    /// Reads digits, with an optional `+`. Anything else, and a number past 2,147,483,647, is refused as
    /// a bad sequence (16).
    pub fn read(text: &str) -> Result<Sequence, Refusal>
        ensures reads { IfOk result (SpellsSequence text.now) }
        ensures refuses { IfErr result (λ e. e.number ≡ 16) }
        ensures none { OnErr result ((n : ℕ) → SpellsSequence text.now n → ⊥) }
    {
        match text.parse::<u32>() {
            Ok(number) if number <= MAX => Ok(Sequence { number }),
            _ => Err(Refusal::BAD_SEQUENCE),
        }
    }

    /// Appends the number in decimal digits. Where memory is refused, nothing is appended.
    pub fn write(self, out: &mut Vec<u8>) -> Result<(), AllocError>
        ensures ok { OnOk result (out.new.items ≡ out.old.items ++ decimal self) }
        ensures err { OnErr result (out.new.items ≡ out.old.items) }
    {
        let mut buffer = Buffer::new();
        let Sequence { number } = self;
        out.extend_from_slice(buffer.format(number).as_bytes())
    }

    /// The number, from 0 to 2,147,483,647.
    pub fn number(self) -> u32
        ensures value { result ≡ self }
        ensures range { result < 2 ^ 31 }
    {
        self.number
    }

    /// The number 0, which a missing SEQUENCE means (RFC 5545 3.8.7.4).
    pub fn zero() -> Sequence
        ensures { result ≡ 0 }
    {
        Sequence { number: 0 }
    }

    /// The sequence of a number. None past 2,147,483,647.
    pub fn of_number(number: u32) -> Option<Sequence>
        ensures found { IsSome result ↔ (number < 2 ^ 31) }
        ensures value { IfSome result (λ s. s ≡ number) }
    {
        if number > MAX {
            return None;
        }
        Some(Sequence { number })
    }
}

/// A text spells at most one sequence, and what is written of one spells it.
pub fn one_sequence()
    ensures reading { (text : List ℕ) (a b : ℕ) → SpellsSequence text a → SpellsSequence text b → a ≡ b }
    ensures written { (n : ℕ) → n < 2 ^ 31 → SpellsSequence (decimal n) n }
{}
