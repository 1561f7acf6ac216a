//! Octets of others as they are shown on standard error: in printable ASCII, on one line, and not too many.

ghost use Rattle.std.specs.Prelude.{◌≡◌, ◌++◌, OnOk};
ghost use Rattle.sched_cli.specs.Logging.{cut_shown, is_printed_plain, shown, shown_octet};

use percent_encoding::percent_encode_byte;
use std::alloc::AllocError;

/// The most octets of a value that are shown.
pub(crate) const MOST_SHOWN: usize = 200;

/// At most 200 of some octets, and `..` where they are more.
pub(crate) fn append_cut(line: &mut Vec<u8>, octets: &[u8]) -> Result<(), AllocError>
    ensures { OnOk result (line.new.items ≡ line.old.items ++ cut_shown octets.now) }
{
    if octets.len() > MOST_SHOWN {
        let front = &octets[..MOST_SHOWN];
        append_shown(line, front)?;
        return line.extend_from_slice(b"..");
    }
    append_shown(line, octets)
}

/// Octets as printable ASCII: every other one, and `%`, as `%` and two hexadecimal digits.
pub(crate) fn append_shown(line: &mut Vec<u8>, octets: &[u8]) -> Result<(), AllocError>
    ensures { OnOk result (line.new.items ≡ line.old.items ++ shown octets.now) }
{
    for octet in octets {
        append_octet(line, *octet)?;
    }
    Ok(())
}

fn append_octet(line: &mut Vec<u8>, octet: u8) -> Result<(), AllocError>
    ensures { OnOk result (line.new.items ≡ line.old.items ++ shown_octet octet) }
{
    if is_printed_plain(octet) {
        line.extend_from_slice(&[octet])
    } else {
        line.extend_from_slice(percent_encode_byte(octet).as_bytes())
    }
}

/// Whether an octet is shown as it is.
fn is_printed_plain(octet: u8) -> bool
    ensures { result ≡ is_printed_plain octet }
{
    octet >= b' ' && octet <= b'~' && octet != b'%'
}
