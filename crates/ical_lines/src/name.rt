//! Names of properties and parameters (RFC 5545 3.1).
ghost use Rattle.std.specs.Prelude.{◌≡◌};
ghost use Rattle.profile.specs.text.Lines.{is_name, is_name_octet};

/// Whether a text is a name: letters, digits and `-`, at least one.
pub fn is_name(text: &str) -> bool
    ensures { result ≡ is_name text.now }
{
    !text.is_empty() && text.bytes().all(|octet| is_name_octet(octet))
}

/// Whether an octet is allowed in a name.
pub(crate) fn is_name_octet(octet: u8) -> bool
    ensures { result ≡ is_name_octet octet }
{
    octet.is_ascii_alphanumeric() || octet == b'-'
}
