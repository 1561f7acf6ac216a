//! Judging: does a certificate's text hold for the calendar that instances are drawn from?
ghost use Rattle.std.specs.Prelude.{◌≡◌, length, IfOk};
ghost use Rattle.profile.specs.checker.Certificates.{IsClaims, HasCounts};
ghost use Rattle.clash_check.specs.Judgings.{IsVerdictOf, MakesFewOf};
ghost use Rattle.clash_check.specs.Verdicts.{IsVerdict, MakesFew};

use crate::drawn::Drawn;
use crate::singles::have_clash;
use crate::statements::first_failing;
use crate::verdict::{Checked, Verdict, Why};
use clash_cert::{CertFault, Certificate};
use std::alloc::{AllocError, Global};

/// Does the text hold as a certificate for the calendar? No for the first of: it is no certificate (81), a count isn't the calendar's (82), an
/// entry doesn't hold (83), a single clashes (84). Fails only when out of memory; the calendar is the same then too.
pub fn judge<D: Drawn>(
    alloc: Global,
    drawn: &mut D,
    certificate: &[u8],
) -> Result<Checked, AllocError>
    ensures calendar { D.calendar drawn.new ≡ D.calendar drawn.old }
    ensures verdict { IfOk result (λ checked. IsVerdict (D.calendar drawn.old) certificate.now checked.verdict) }
    // What it says was made is all that was drawn.
    ensures made { IfOk result (λ checked. checked.made ≡ D.count drawn.new) }
    // And it is no more than that where nothing was drawn before.
    ensures few { D.count drawn.old ≡ 0 → IfOk result (MakesFew (D.calendar drawn.old) certificate.now) }
{
    match Certificate::read(alloc, certificate) {
        Ok(certificate) => judge_certificate(alloc, drawn, &certificate),
        Err(CertFault::Line(line)) => Ok(Checked::no_at(Why::TEXT, line, 0, drawn.drawn())),
        Err(CertFault::Memory) => Err(AllocError),
    }
}

/// Does a certificate hold?
fn judge_certificate<D: Drawn>(
    alloc: Global,
    drawn: &mut D,
    certificate: &Certificate,
) -> Result<Checked, AllocError>
    requires { IsClaims certificate.now }
    ensures calendar { D.calendar drawn.new ≡ D.calendar drawn.old }
    ensures verdict { IfOk result (λ checked. IsVerdictOf (D.calendar drawn.old) certificate.now checked.verdict) }
    ensures made { IfOk result (λ checked. checked.made ≡ D.count drawn.new) }
    ensures few { D.count drawn.old ≡ 0 → IfOk result (MakesFewOf (D.calendar drawn.old) certificate.now) }
{
    if certificate.singles() != drawn.singles() || certificate.series() != drawn.series() {
        return Ok(Checked::no(Why::COUNTS, drawn.drawn()));
    }
    judge_counted(alloc, drawn, certificate)
}

/// Does a certificate of the calendar's counts hold?
fn judge_counted<D: Drawn>(
    alloc: Global,
    drawn: &mut D,
    certificate: &Certificate,
) -> Result<Checked, AllocError>
    requires claims { IsClaims certificate.now }
    requires counts { HasCounts (D.calendar drawn.old) certificate.now }
    ensures calendar { D.calendar drawn.new ≡ D.calendar drawn.old }
    ensures verdict { IfOk result (λ checked. IsVerdictOf (D.calendar drawn.old) certificate.now checked.verdict) }
    ensures made { IfOk result (λ checked. checked.made ≡ D.count drawn.new) }
    ensures few { D.count drawn.old ≡ 0 → IfOk result (MakesFewOf (D.calendar drawn.old) certificate.now) }
{
    drawn.is_drawable();
    if let Some((first, second)) = first_failing(alloc, drawn, certificate)? {
        return Ok(Checked::no_at(Why::ENTRY, first, second, drawn.drawn()));
    }
    if have_clash(alloc, drawn)? {
        return Ok(Checked::no(Why::SINGLES, drawn.drawn()));
    }
    Ok(Checked {
        verdict: Verdict::Yes,
        made: drawn.drawn(),
    })
}
