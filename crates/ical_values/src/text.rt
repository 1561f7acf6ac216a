//! Text (RFC 5545 3.3.11), kept without its escapes. `\\`, `\;`, `\,`, `\n` and `\N` are escapes; a
//! backslash before anything else, or at the end, represents itself.

ghost use Rattle.std.specs.Prelude.{ℕ, List, ◌≡◌, ◌++◌, ◌∷◌, ◌≤◌, length, string_bytes, IfOk, IfErr, OnOk, OnErr};
ghost use Rattle.profile.specs.text.Values.{escaped, escaped_octet, unescaped, IsUid};
ghost use Rattle.ical_lines.specs.Fault.{RefusesOnly};
ghost use Rattle.ical_values.specs.Octets.{text_octets};
ghost use Rattle.profile.specs.faults.Faults.{is_uid_fault};
ghost use Rattle.ical_values.specs.Refused.{IfRefused};

use ical_lines::{Fault, Refusal};
use std::alloc::{AllocError, Global};

/// The most octets of a UID; this profile's choice.
const UID_LIMIT: usize = 1024;

/// A text without escapes.
#[derive(Clone, PartialEq, Eq, Hash, Drop)]
pub struct Text {
    octets: String,
}

impl Text {
    /// Reads a text and its escapes. Any text is one.
    pub fn read(alloc: Global, text: &str) -> Result<Text, AllocError>
        ensures { IfOk result (λ t. text_octets t ≡ unescaped text.now) }
    {
        Ok(Text {
            octets: unescape(alloc, text)?,
        })
    }

    /// Reads a UID: a text of 1 to 1,024 octets, counted after the escapes are read. Any other is refused
    /// as a bad UID (14).
    pub fn read_uid(alloc: Global, text: &str) -> Result<Text, Fault>
        ensures reads { IfOk result (λ t. text_octets t ≡ unescaped text.now) }
        ensures uid { OnOk result (IsUid (unescaped text.now)) }
        ensures refuses { IfErr result (RefusesOnly is_uid_fault) }
        ensures none { IfErr result (IfRefused (¬ (IsUid (unescaped text.now)))) }
    {
        let octets = unescape(alloc, text)?;
        if octets.is_empty() || octets.len() > UID_LIMIT {
            return Err(Fault::Refused(Refusal::BAD_UID));
        }
        Ok(Text { octets })
    }

    /// The text of those octets as they are: nothing is an escape.
    pub fn of(alloc: Global, octets: &str) -> Result<Text, AllocError>
        ensures { IfOk result (λ t. text_octets t ≡ octets.now) }
    {
        Ok(Text {
            octets: String::from_str(alloc, octets)?,
        })
    }

    /// The octets, without escapes.
    pub fn as_str(&self) -> &str
        ensures { result.now ≡ text_octets self.now }
    {
        self.octets.as_str()
    }

    /// Appends the text with backslash, semicolon, comma and LF escaped. Where memory is refused, nothing is
    /// appended.
    pub fn write(&self, out: &mut Vec<u8>) -> Result<(), AllocError>
        ensures ok { OnOk result (out.new.items ≡ out.old.items ++ escaped (text_octets self.now)) }
        ensures err { OnErr result (out.new.items ≡ out.old.items) }
    {
        let octets = self.octets.as_bytes();
        let has_escaped = octets
            .iter()
            .any(|octet| matches!(*octet, b'\n' | b'\\' | b';' | b','));
        if has_escaped {
            return write_escaped(out, octets);
        }
        out.extend_from_slice(octets)
    }
}

/// Appends octets with backslash, semicolon, comma and LF escaped. Where memory is refused, nothing is appended.
fn write_escaped(out: &mut Vec<u8>, octets: &[u8]) -> Result<(), AllocError>
    ensures ok { OnOk result (out.new.items ≡ out.old.items ++ escaped octets.now) }
    ensures err { OnErr result (out.new.items ≡ out.old.items) }
{
    let start = out.len();
    for octet in octets {
        if push_escaped(out, *octet).is_err() {
            out.truncate(start);
            return Err(AllocError);
        }
    }
    Ok(())
}

/// Appends one octet, escaped where it has to be.
fn push_escaped(out: &mut Vec<u8>, octet: u8) -> Result<(), AllocError>
    ensures ok { OnOk result (out.new.items ≡ out.old.items ++ escaped_octet octet) }
    ensures err { OnErr result (out.new.items ≡ out.old.items) }
{
    match octet {
        b'\n' => out.extend_from_slice(b"\\n"),
        b'\\' | b';' | b',' => out.extend_from_slice(&[b'\\', octet]),
        _ => out.extend_from_slice(&[octet]),
    }
}

/// The text without its escapes.
fn unescape(alloc: Global, text: &str) -> Result<String, AllocError>
    ensures { IfOk result (λ s. string_bytes s ≡ unescaped text.now) }
{
    let mut out = String::new(alloc);
    let mut rest = text;
    while let Some((front, after)) = rest.split_once('\\') {
        out.push_str(front)?;
        let (meant, following) = escape_at(after);
        out.push_str(meant)?;
        rest = following;
    }
    out.push_str(rest)?;
    Ok(out)
}

/// What a backslash before this text represents, and the text that is left to be read.
fn escape_at(after: &str) -> (&str, &str)
    ensures meaning { result.0.now ++ unescaped result.1.now ≡ unescaped (92 ∷ after.now) }
    ensures shorter { length result.1.now ≤ length after.now }
{
    if let Some(rest) = after.strip_prefix('\\') {
        return ("\\", rest);
    }
    if let Some(rest) = after.strip_prefix(';') {
        return (";", rest);
    }
    if let Some(rest) = after.strip_prefix(',') {
        return (",", rest);
    }
    if let Some(rest) = after.strip_prefix('n') {
        return ("\n", rest);
    }
    if let Some(rest) = after.strip_prefix('N') {
        return ("\n", rest);
    }
    ("\\", after)
}

/// What is written of a text is read as that text.
pub fn text_reads_back()
    ensures { (octets : List ℕ) → unescaped (escaped octets) ≡ octets }
{}
