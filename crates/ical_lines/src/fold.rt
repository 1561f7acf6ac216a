//! Folding (RFC 5545 3.1): a written line of more than 75 octets is broken, never inside a character.
//! Each continuation begins with one space, which counts among its 75 octets.

ghost use Rattle.std.specs.Prelude.{◌≡◌, ◌++◌, ◌∷◌, ◌≤◌, List, ℕ, true, false, take, length, IfOk, OnOk, OnErr};
ghost use Rattle.std.specs.Char.{encode_utf8};
ghost use Rattle.std.specs.Str.{chars};
ghost use Rattle.profile.specs.text.Lines.{fold_break, fold_from, next_column, column_after, folded, is_continuation, is_short, physical_lines, unfolded};
ghost use Rattle.std.specs.List.{list_all};
ghost use Rattle.ical_lines.specs.Breaks.{is_one_line};

use std::alloc::AllocError;

/// The most octets of a physical line, its line break not counted.
const MAX_COLUMN: usize = 75;

/// Writes one content line, folded and ended by CRLF. A text without LF reads back, whatever line follows it.
/// Where memory is refused, `out` is unchanged.
pub fn write_line(out: &mut Vec<u8>, text: &str) -> Result<(), AllocError>
    ensures written { OnOk result (out.new.items ≡ out.old.items ++ folded text.now) }
    ensures unchanged { OnErr result (out.new.items ≡ out.old.items) }
    ensures reads_back { is_one_line text.now ≡ true
        → (rest : List ℕ)
        → is_continuation rest ≡ false
        → unfolded (physical_lines (folded text.now ++ rest)) ≡ text.now ∷ unfolded (physical_lines rest) }
    ensures short { is_one_line text.now ≡ true → list_all is_short (physical_lines (folded text.now)) ≡ true }
{
    write_joined(out, text, "", "")
}

/// Writes one content line of two pieces, the second right after the first, folded and ended by CRLF. Pieces without LF read back
/// as one line, whatever line follows it.
/// Where memory is refused, `out` is unchanged.
pub fn write_pieces(out: &mut Vec<u8>, first: &str, second: &str) -> Result<(), AllocError>
    ensures written { OnOk result (out.new.items ≡ out.old.items ++ folded (first.now ++ second.now)) }
    ensures unchanged { OnErr result (out.new.items ≡ out.old.items) }
    ensures reads_back { is_one_line (first.now ++ second.now) ≡ true
        → (rest : List ℕ)
        → is_continuation rest ≡ false
        → unfolded (physical_lines (folded (first.now ++ second.now) ++ rest)) ≡ (first.now ++ second.now) ∷ unfolded (physical_lines rest) }
    ensures short { is_one_line (first.now ++ second.now) ≡ true → list_all is_short (physical_lines (folded (first.now ++ second.now))) ≡ true }
{
    write_joined(out, first, second, "")
}

/// Writes the line `name:value`, folded and ended by CRLF. The name may have parameters.
/// Where memory is refused, `out` is unchanged.
pub fn write_property(out: &mut Vec<u8>, name: &str, value: &str) -> Result<(), AllocError>
    ensures written { OnOk result (out.new.items ≡ out.old.items ++ folded (name.now ++ 58 ∷ value.now)) }
    ensures unchanged { OnErr result (out.new.items ≡ out.old.items) }
    ensures reads_back { is_one_line (name.now ++ 58 ∷ value.now) ≡ true
        → (rest : List ℕ)
        → is_continuation rest ≡ false
        → unfolded (physical_lines (folded (name.now ++ 58 ∷ value.now) ++ rest)) ≡ (name.now ++ 58 ∷ value.now) ∷ unfolded (physical_lines rest) }
    ensures short { is_one_line (name.now ++ 58 ∷ value.now) ≡ true → list_all is_short (physical_lines (folded (name.now ++ 58 ∷ value.now))) ≡ true }
{
    write_joined(out, name, ":", value)
}

/// Writes one content line of three pieces, one right after another, folded and ended by CRLF.
/// Where memory is refused, `out` is unchanged.
fn write_joined(out: &mut Vec<u8>, first: &str, second: &str, third: &str) -> Result<(), AllocError>
    ensures written { OnOk result (out.new.items ≡ out.old.items ++ folded (first.now ++ (second.now ++ third.now))) }
    ensures unchanged { OnErr result (out.new.items ≡ out.old.items) }
{
    let kept = out.len();
    match fold_pieces(out, first, second, third) {
        Ok(()) => Ok(()),
        Err(error) => {
            out.truncate(kept);
            Err(error)
        }
    }
}

/// Appends a folded line of three pieces and its line break. On an error some of it may have been appended.
fn fold_pieces(out: &mut Vec<u8>, first: &str, second: &str, third: &str) -> Result<(), AllocError>
    ensures written { OnOk result (out.new.items ≡ out.old.items ++ folded (first.now ++ (second.now ++ third.now))) }
    ensures keeps { take (length out.old.items) out.new.items ≡ out.old.items }
{
    let after_first = fold_part(out, 0, first)?;
    let after_second = fold_part(out, after_first, second)?;
    fold_part(out, after_second, third)?;
    out.extend_from_slice(b"\r\n")
}

/// Appends a part of a line that begins after `column` octets of a physical line, and gives the column after it.
/// On an error some of it may have been appended.
fn fold_part(out: &mut Vec<u8>, column: usize, text: &str) -> Result<usize, AllocError>
    requires { column ≤ 75 }
    ensures written { OnOk result (out.new.items ≡ out.old.items ++ fold_from column (chars text.now)) }
    ensures column { IfOk result (λ after. after ≡ column_after column (chars text.now)) }
    ensures small { IfOk result (λ after. after ≤ 75) }
    ensures keeps { take (length out.old.items) out.new.items ≡ out.old.items }
{
    if text.len() > MAX_COLUMN - column {
        return fold_long_part(out, column, text);
    }
    out.extend_from_slice(text.as_bytes())?;
    Ok(column + text.len())
}

/// As `fold_part`, character by character: the part may have to be broken.
fn fold_long_part(out: &mut Vec<u8>, column: usize, text: &str) -> Result<usize, AllocError>
    requires { column ≤ 75 }
    ensures written { OnOk result (out.new.items ≡ out.old.items ++ fold_from column (chars text.now)) }
    ensures column { IfOk result (λ after. after ≡ column_after column (chars text.now)) }
    ensures small { IfOk result (λ after. after ≤ 75) }
    ensures keeps { take (length out.old.items) out.new.items ≡ out.old.items }
{
    let mut at = column;
    for character in text.chars() {
        at = fold_character(out, at, character)?;
    }
    Ok(at)
}

/// Appends one character, after a fold where it would pass the last column, and gives the column after it.
/// On an error some of it may have been appended.
fn fold_character(out: &mut Vec<u8>, column: usize, character: char) -> Result<usize, AllocError>
    requires { column ≤ 75 }
    ensures written { OnOk result (out.new.items ≡ out.old.items ++ (fold_break column character ++ encode_utf8 character)) }
    ensures column { IfOk result (λ after. after ≡ next_column column character) }
    ensures small { IfOk result (λ after. after ≤ 75) }
    ensures keeps { take (length out.old.items) out.new.items ≡ out.old.items }
{
    let mut buffer = [0u8; 4];
    let octets = character.encode_utf8(&mut buffer).as_bytes();
    let size = octets.len();
    if column + size > MAX_COLUMN {
        out.extend_from_slice(b"\r\n ")?;
        out.extend_from_slice(octets)?;
        Ok(1 + size)
    } else {
        out.extend_from_slice(octets)?;
        Ok(column + size)
    }
}
