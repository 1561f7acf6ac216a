//! Calendar addresses (RFC 5545 3.3.3): a URI's scheme, `:`, and at least one more octet. Kept in ASCII
//! lower case, by which they are compared and written.

ghost use Rattle.std.specs.Prelude.{ℕ, List, [], ◌≡◌, ◌++◌, true, IfOk, IfErr, OnOk, OnErr};
ghost use Rattle.std.specs.List.{list_all};
ghost use Rattle.profile.specs.faults.Faults.{is_address_fault};
ghost use Rattle.profile.specs.text.Values.{IsAddress, lower_case, is_scheme, is_scheme_octet, is_path};
ghost use Rattle.ical_lines.specs.Fault.{RefusesOnly};
ghost use Rattle.ical_values.specs.Octets.{address_octets};
ghost use Rattle.ical_values.specs.Refused.{IfRefused};

use ical_lines::{Fault, Refusal};
use std::alloc::{AllocError, Global};

/// The most octets of an address; this profile's choice.
const LIMIT: usize = 1024;

/// An address in ASCII lower case.
#[derive(Clone, PartialEq, Eq, PartialOrd, Ord, Hash, Drop)]
pub struct Address {
    octets: String,
}

impl Address {
    /// Reads an address: a scheme (a letter, then letters, digits, `+`, `-` and `.`), `:`, and at least
    /// one octet that is neither a control octet nor a space. Anything else, and more than 1,024 octets, is
    /// refused as a bad address (15).
    pub fn read(alloc: Global, text: &str) -> Result<Address, Fault>
        ensures reads { IfOk result (λ a. address_octets a ≡ lower_case text.now) }
        ensures address { OnOk result (IsAddress text.now) }
        ensures refuses { IfErr result (RefusesOnly is_address_fault) }
        ensures none { IfErr result (IfRefused (¬ (IsAddress text.now))) }
    {
        if !is_address(text) {
            return Err(Fault::Refused(Refusal::BAD_ADDRESS));
        }
        Ok(Address {
            octets: text.to_ascii_lowercase(alloc)?,
        })
    }

    /// No octets: what represents a missing ORGANIZER. No text is read as it.
    pub fn empty(alloc: Global) -> Address
        ensures { address_octets result ≡ [] }
    {
        Address {
            octets: String::new(alloc),
        }
    }

    /// The address in ASCII lower case.
    pub fn as_str(&self) -> &str
        ensures { result.now ≡ address_octets self.now }
    {
        self.octets.as_str()
    }

    /// Appends the address in ASCII lower case. Where memory is refused, nothing is appended.
    pub fn write(&self, out: &mut Vec<u8>) -> Result<(), AllocError>
        ensures ok { OnOk result (out.new.items ≡ out.old.items ++ address_octets self.now) }
        ensures err { OnErr result (out.new.items ≡ out.old.items) }
    {
        out.extend_from_slice(self.octets.as_bytes())
    }
}

/// Whether the text is an address.
fn is_address(text: &str) -> bool
    ensures sound { result ≡ true → IsAddress text.now }
    ensures complete { IsAddress text.now → result ≡ true }
{
    if text.len() > LIMIT {
        return false;
    }
    let Some((scheme, path)) = text.split_once(':') else {
        return false;
    };
    is_scheme(scheme.as_bytes()) && is_path(path.as_bytes())
}

/// Whether the octets are a scheme: a letter, then letters, digits, `+`, `-` and `.`.
fn is_scheme(octets: &[u8]) -> bool
    ensures { result ≡ is_scheme octets.now }
{
    let [first, rest @ ..] = octets else {
        return false;
    };
    first.is_ascii_alphabetic() && all_scheme_octets(rest)
}

/// Whether all octets are allowed in a scheme after its first letter.
fn all_scheme_octets(octets: &[u8]) -> bool
    ensures { result ≡ list_all is_scheme_octet octets.now }
{
    octets.iter().all(|octet| octet.is_ascii_alphanumeric() || matches!(*octet, b'+' | b'-' | b'.'))
}

/// Whether the octets may follow the scheme: at least one, and none a control octet or a space.
fn is_path(octets: &[u8]) -> bool
    ensures { result ≡ is_path octets.now }
{
    !octets.is_empty() && octets.iter().all(|octet| *octet > b' ' && *octet != 0x7f)
}

/// An address in lower case is an address, and stays as it is when it is read again.
pub fn address_reads_back()
    ensures address { (text : List ℕ) → IsAddress text → IsAddress (lower_case text) }
    ensures same { (text : List ℕ) → lower_case (lower_case text) ≡ lower_case text }
{}
