//! Octets at the end of a vector: all of them, or none.

ghost use Rattle.std.specs.Prelude.{◌≡◌, ◌++◌, OnOk, OnErr};
ghost use Rattle.std.specs.List.{flat_map};

use std::alloc::AllocError;

/// Appends the pieces in order. Where memory is refused, nothing is appended.
pub fn append_all(out: &mut Vec<u8>, pieces: &[&[u8]]) -> Result<(), AllocError>
    ensures ok { OnOk result (out.new.items ≡ out.old.items ++ flat_map (λ piece. piece.now) pieces.now) }
    ensures err { OnErr result (out.new.items ≡ out.old.items) }
{
    let start = out.len();
    for piece in pieces {
        if out.extend_from_slice(*piece).is_err() {
            out.truncate(start);
            return Err(AllocError);
        }
    }
    Ok(())
}
