//! Which trees lines can spell (RFC 5545 3.4, 3.6).
ghost use Rattle.std.specs.Prelude.{ℕ, List, Bool, ◌≡◌, true};
ghost use Rattle.profile.specs.text.Objects.{SpellsTree, IsObject, lines_have};
ghost use Rattle.profile.specs.text.Trees.{Tree};

/// Lines spell at most one tree, and no object where there is a fault in how they pair up.
pub fn one_tree()
    ensures one { (depth other : ℕ) (lines : List (List ℕ)) (a b : Tree)
        → SpellsTree depth a lines → SpellsTree other b lines → a ≡ b }
    ensures or_a_fault { (bounded : Bool) (t : Tree) (lines : List (List ℕ)) (n : ℕ)
        → IsObject bounded t lines → lines_have n lines ≡ true → ⊥ }
{}
