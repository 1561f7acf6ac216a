//! The group of a certificate, judged by what is drawn of all its series.
ghost use Rattle.std.specs.Prelude.{ℕ, ◌≡◌, length, IfOk, MatchBool};
ghost use Rattle.profile.specs.checker.Certificates.{OfGroup, IsGroup, StatementHolds, StatementFails};
ghost use Rattle.clash_cert.specs.Texts.{group_said};
ghost use Rattle.clash_check.specs.Counted.{IsStatementCount};
ghost use Rattle.clash_check.specs.Entries.{IsStatementDrawn};

use crate::drawn::Drawn;
use crate::group_sweep::sweep_group;
use crate::span::{greatest_width, is_span};
use cal_period::span_end;
use clash_cert::Group;
use std::alloc::{AllocError, Global};

/// Does its span settle all series of a group, each with itself and with the others? Nothing is drawn where it is none of theirs. Fails only when
/// out of memory.
pub(crate) fn group_holds<D: Drawn>(
    alloc: Global,
    drawn: &mut D,
    group: &Group,
) -> Result<bool, AllocError>
    requires { IsGroup (length (D.calendar drawn.old).series) (group_said group.now) }
    ensures calendar { D.calendar drawn.new ≡ D.calendar drawn.old }
    ensures holds { IfOk result (λ r. MatchBool r (StatementHolds (D.calendar drawn.old) (OfGroup (group_said group.now))) (StatementFails (D.calendar drawn.old) (OfGroup (group_said group.now)))) }
    ensures count { IfOk result (λ r. (n : ℕ) → IsStatementCount (D.calendar drawn.old) (OfGroup (group_said group.now)) n
        → IsStatementDrawn (D.calendar drawn.old) (OfGroup (group_said group.now)) r (D.count drawn.old) (D.count drawn.new) n) }
{
    let from = group.from.instant();
    if !is_span(drawn, &group.members, from, group.days) {
        return Ok(false);
    }
    let bound = span_end(from, group.days, greatest_width(drawn, &group.members));
    let have_clash = sweep_group(alloc, drawn, &group.members, bound)?;
    Ok(!have_clash)
}
