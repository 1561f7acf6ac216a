//! Writing the lines of a certificate.
ghost use Rattle.std.specs.Prelude.{ℕ, List, ◌≡◌, ◌++◌, [], ◌∷◌, take, length, map, unwrap_or, codes, decimal, All, OnOk, OnErr};
ghost use Rattle.profile.specs.checker.Certificates.{IsClaims, IsEntry, IsEntryText, IsGroupLine, IsPairLine, SpellsCertificate, numbers_text, spelled, version_line};
ghost use Rattle.ical_values.specs.Written.{Appends};
ghost use Rattle.clash_cert.specs.Texts.{claims_of_text, entry_said, group_said, groups_said, pair_said};
ghost use Rattle.clash_cert.specs.Reading.{SpellsGroups, SpellsPairs};

use crate::certificate::{Entry, Pair};
use crate::groups::Group;
use itoa::Buffer;
use std::alloc::AllocError;

/// Appends the text of a certificate. After an error `out` may have grown.
pub(crate) fn write_text(
    out: &mut Vec<u8>,
    singles: u64,
    series: u64,
    groups: &Option<Vec<Group>>,
    pairs: &[Pair],
) -> Result<(), AllocError>
    requires { IsClaims (claims_of_text singles series groups.now pairs.now) }
    ensures ok { OnOk result (Appends out.old.items out.new.items (λ text. SpellsCertificate text (claims_of_text singles series groups.now pairs.now))) }
    ensures err { OnErr result (take (length out.old.items) out.new.items ≡ out.old.items) }
{
    write_head(out, version_line(groups), singles, series)?;
    write_groups(out, listed(groups))?;
    write_pairs(out, pairs)?;
    out.extend_from_slice(b"DONE\n")?;
    Ok(())
}

/// The line that tells the version: the second has groups.
fn version_line(groups: &Option<Vec<Group>>) -> &'static [u8]
    ensures { result.now ≡ version_line (groups_said groups.now) }
{
    match groups {
        Some(_) => b"ROOMCERT 2",
        None => b"ROOMCERT 1",
    }
}

/// The groups that there are.
fn listed(groups: &Option<Vec<Group>>) -> &[Group]
    ensures { map group_said result.now ≡ unwrap_or (groups_said groups.now) [] }
{
    match groups {
        Some(groups) => groups.as_slice(),
        None => &[],
    }
}

/// Appends the first three lines. After an error `out` may have grown.
fn write_head(
    out: &mut Vec<u8>,
    version: &[u8],
    singles: u64,
    series: u64,
) -> Result<(), AllocError>
    ensures ok { OnOk result (out.new.items ≡ out.old.items ++ spelled (version.now ∷ (codes "SINGLES " ++ decimal singles) ∷ (codes "SERIES " ++ decimal series) ∷ []) []) }
    ensures err { OnErr result (take (length out.old.items) out.new.items ≡ out.old.items) }
{
    out.extend_from_slice(version)?;
    write_number(out, b"\nSINGLES ", singles, b"\nSERIES ")?;
    write_number(out, b"", series, b"\n")?;
    Ok(())
}

/// Appends the lines of groups. After an error `out` may have grown.
fn write_groups(out: &mut Vec<u8>, groups: &[Group]) -> Result<(), AllocError>
    ensures ok { OnOk result (Appends out.old.items out.new.items (SpellsGroups (map group_said groups.now))) }
    ensures err { OnErr result (take (length out.old.items) out.new.items ≡ out.old.items) }
{
    for group in groups {
        write_group(out, group)?;
    }
    Ok(())
}

/// Appends the line of a group. After an error `out` may have grown.
fn write_group(out: &mut Vec<u8>, group: &Group) -> Result<(), AllocError>
    ensures ok { OnOk result (Appends out.old.items out.new.items (λ text. (line : List ℕ) × IsGroupLine (group_said group.now) line × (text ≡ line ++ 10 ∷ []))) }
    ensures err { OnErr result (take (length out.old.items) out.new.items ≡ out.old.items) }
{
    out.extend_from_slice(b"GROUP ")?;
    group.from.write(out)?;
    write_number(out, b" ", group.days, b"")?;
    write_numbers(out, &group.members)?;
    out.extend_from_slice(b"\n")?;
    Ok(())
}

/// Appends numbers, each after a space. After an error `out` may have grown.
fn write_numbers(out: &mut Vec<u8>, numbers: &[u64]) -> Result<(), AllocError>
    ensures ok { OnOk result (out.new.items ≡ out.old.items ++ numbers_text numbers.now) }
    ensures err { OnErr result (take (length out.old.items) out.new.items ≡ out.old.items) }
{
    for number in numbers {
        write_number(out, b" ", *number, b"")?;
    }
    Ok(())
}

/// Appends the lines of pairs. After an error `out` may have grown.
fn write_pairs(out: &mut Vec<u8>, pairs: &[Pair]) -> Result<(), AllocError>
    requires { All (λ p. IsEntry p.entry) (map pair_said pairs.now) }
    ensures ok { OnOk result (Appends out.old.items out.new.items (SpellsPairs (map pair_said pairs.now))) }
    ensures err { OnErr result (take (length out.old.items) out.new.items ≡ out.old.items) }
{
    for pair in pairs {
        write_pair(out, pair)?;
    }
    Ok(())
}

/// Appends the line of a pair. After an error `out` may have grown.
fn write_pair(out: &mut Vec<u8>, pair: &Pair) -> Result<(), AllocError>
    requires { IsEntry (entry_said pair.now.entry) }
    ensures ok { OnOk result (Appends out.old.items out.new.items (λ text. (line : List ℕ) × IsPairLine (pair_said pair.now) line × (text ≡ line ++ 10 ∷ []))) }
    ensures err { OnErr result (take (length out.old.items) out.new.items ≡ out.old.items) }
{
    write_number(out, b"PAIR ", pair.first, b" ")?;
    write_number(out, b"", pair.second, b" ")?;
    write_entry(out, pair.entry)?;
    out.extend_from_slice(b"\n")?;
    Ok(())
}

/// Appends the words of an entry. After an error `out` may have grown.
fn write_entry(out: &mut Vec<u8>, entry: Entry) -> Result<(), AllocError>
    requires { IsEntry (entry_said entry) }
    ensures ok { OnOk result (Appends out.old.items out.new.items (IsEntryText (entry_said entry))) }
    ensures err { OnErr result (take (length out.old.items) out.new.items ≡ out.old.items) }
{
    match entry {
        Entry::End => out.extend_from_slice(b"END")?,
        Entry::Span { from, days } => {
            out.extend_from_slice(b"SPAN ")?;
            from.write(out)?;
            write_number(out, b" ", days, b"")?;
        }
        Entry::Res(modulus) => write_number(out, b"RES ", modulus, b"")?,
        // no pair has it
        Entry::Group(_) => unreachable!(),
    }
    Ok(())
}

/// Appends a number between two pieces. After an error `out` may have grown.
fn write_number(out: &mut Vec<u8>, head: &[u8], number: u64, tail: &[u8]) -> Result<(), AllocError>
    ensures ok { OnOk result (out.new.items ≡ out.old.items ++ (head.now ++ (decimal number ++ tail.now))) }
    ensures err { OnErr result (take (length out.old.items) out.new.items ≡ out.old.items) }
{
    let mut buffer = Buffer::new();
    append(out, head, buffer.format(number).as_bytes(), tail)
}

/// Appends three pieces. After an error `out` may have grown.
fn append(out: &mut Vec<u8>, head: &[u8], middle: &[u8], tail: &[u8]) -> Result<(), AllocError>
    ensures ok { OnOk result (out.new.items ≡ out.old.items ++ (head.now ++ (middle.now ++ tail.now))) }
    ensures err { OnErr result (take (length out.old.items) out.new.items ≡ out.old.items) }
{
    out.extend_from_slice(head)?;
    out.extend_from_slice(middle)?;
    out.extend_from_slice(tail)?;
    Ok(())
}
