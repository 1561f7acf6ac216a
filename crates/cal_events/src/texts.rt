//! Many texts in one block of memory, where each takes eight octets beside its own.

ghost use Rattle.std.specs.Prelude.{◌≡◌, ◌++◌, ◌∷◌, ◌<◌, [], length, get_or, OnErr, OnOk};

use std::alloc::{AllocError, Global};
use std::marker::Model;

/// A list of texts.
#[derive(Drop)]
pub(crate) struct Texts {
    /// All of them, one after another.
    joined: String,
    /// Where each ends.
    ends: Vec<usize>,
}

impl Model for Texts {
    ghost use Rattle.std.specs.Prelude.{◌≡◌, ℕ, List, true, string_bytes};
    ghost use Rattle.cal_events.specs.Texts.{pieces_between, are_pieces};

    ghost Value = { List (List ℕ) };

    ghost view = { λ texts. pieces_between (string_bytes texts.joined) 0 texts.ends.items };

    ghost invariant = { λ texts. are_pieces (string_bytes texts.joined) 0 texts.ends.items ≡ true };
}

impl Texts {
    /// Without texts.
    pub(crate) fn new(alloc: Global) -> Texts
        ensures { result ≡ [] }
    {
        Texts {
            joined: String::new(alloc),
            ends: Vec::new(alloc),
        }
    }

    /// How many there are.
    pub(crate) fn len(&self) -> usize
        ensures { result ≡ length self.now }
    {
        self.ends.len()
    }

    /// The text at a place.
    pub(crate) fn at(&self, place: usize) -> &str
        requires { place < length self.now }
        ensures { result.now ≡ get_or self.now place [] }
    {
        let start = start_of(&self.ends, place);
        &self.joined[start..self.ends[place]]
    }

    /// Adds a text at the end. Where memory is refused nothing has changed.
    pub(crate) fn push(&mut self, text: &str) -> Result<(), AllocError>
        ensures added { OnOk result (self.new ≡ self.old ++ text.now ∷ []) }
        ensures unchanged { OnErr result (self.new ≡ self.old) }
    {
        let kept = self.joined.len();
        self.joined.push_str(text)?;
        let end = self.joined.len();
        match self.ends.push(end) {
            Ok(()) => Ok(()),
            Err(_) => {
                self.joined.truncate(kept);
                Err(AllocError)
            }
        }
    }
}

/// Where the text at a place begins: where the one before it ends.
fn start_of(ends: &[usize], place: usize) -> usize
    requires { place < length ends.now }
    ensures { result ≡ get_or (0 ∷ ends.now) place 0 }
{
    if place == 0 { 0 } else { ends[place - 1] }
}
