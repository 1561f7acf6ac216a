//! The statements of a certificate in the order of its text, each judged by what is drawn of its series, or by their residues.
ghost use Rattle.std.specs.Prelude.{◌≡◌, length, map, All, IfOk};
ghost use Rattle.profile.specs.checker.Certificates.{OfGroup, OfPair, IsClaims, IsGroup, statements};
ghost use Rattle.clash_cert.specs.Texts.{group_said, pair_said};
ghost use Rattle.clash_check.specs.Entries.{AreJudged, ArePairOf};

use crate::drawn::Drawn;
use crate::groups::group_holds;
use crate::pairs::entry_holds;
use clash_cert::{Certificate, Group, Pair};
use std::alloc::{AllocError, Global};

/// The names of the first statement that doesn't hold: the two series of a pair, or the first two of a group. None where all hold. Fails only when out
/// of memory.
pub(crate) fn first_failing<D: Drawn>(
    alloc: Global,
    drawn: &mut D,
    certificate: &Certificate,
) -> Result<Option<(u64, u64)>, AllocError>
    requires claims { IsClaims certificate.now }
    requires counts { certificate.now.series ≡ length (D.calendar drawn.old).series }
    ensures calendar { D.calendar drawn.new ≡ D.calendar drawn.old }
    ensures judged { IfOk result (λ found. AreJudged (D.calendar drawn.old) (statements certificate.now) found (D.count drawn.old) (D.count drawn.new)) }
{
    if let Some(named) = first_failing_group(alloc, drawn, certificate.groups())? {
        return Ok(Some(named));
    }
    first_failing_pair(alloc, drawn, certificate.pairs())
}

/// The first two series of the first group that doesn't hold.
fn first_failing_group<D: Drawn>(
    alloc: Global,
    drawn: &mut D,
    groups: &[Group],
) -> Result<Option<(u64, u64)>, AllocError>
    requires { All (IsGroup (length (D.calendar drawn.old).series)) (map group_said groups.now) }
    ensures calendar { D.calendar drawn.new ≡ D.calendar drawn.old }
    ensures judged { IfOk result (λ found. AreJudged (D.calendar drawn.old) (map OfGroup (map group_said groups.now)) found (D.count drawn.old) (D.count drawn.new)) }
{
    for group in groups {
        if !group_holds(alloc, drawn, group)? {
            return Ok(Some(group.name()));
        }
    }
    Ok(None)
}

/// The first pair of which the entry doesn't hold.
fn first_failing_pair<D: Drawn>(
    alloc: Global,
    drawn: &mut D,
    pairs: &[Pair],
) -> Result<Option<(u64, u64)>, AllocError>
    requires { All (ArePairOf (length (D.calendar drawn.old).series)) (map pair_said pairs.now) }
    ensures calendar { D.calendar drawn.new ≡ D.calendar drawn.old }
    ensures judged { IfOk result (λ found. AreJudged (D.calendar drawn.old) (map OfPair (map pair_said pairs.now)) found (D.count drawn.old) (D.count drawn.new)) }
{
    for pair in pairs {
        if !entry_holds(alloc, drawn, pair.entry, pair.first, pair.second)? {
            return Ok(Some((pair.first, pair.second)));
        }
    }
    Ok(None)
}
