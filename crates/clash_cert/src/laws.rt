//! The certificate is a function of what is confirmed: a law, with nothing to do.

ghost use Rattle.std.specs.Prelude.{◌≡◌};
ghost use Rattle.profile.specs.checker.Certificates.{Claims, Group, IsCertificateMade, IsCertificateWritten, IsClaims, IsGroupMade, IsGrouped};
ghost use Rattle.profile.specs.events.Confirmed.{Confirmed};

/// What is confirmed has one certificate: two that are made for it are equal, by `make`, `certificate_of` or `extend`; so are two groups that a
/// certificate gives, two certificates of version 2 with such a group, and two that a room writes.
pub fn one_certificate_made()
    ensures made { (confirmed : Confirmed) (c d : Claims) → IsCertificateMade confirmed c → IsCertificateMade confirmed d → c ≡ d }
    ensures group { (confirmed : Confirmed) (c : Claims) (g h : Group) → IsGroupMade confirmed c g → IsGroupMade confirmed c h → g ≡ h }
    ensures grouped { (confirmed : Confirmed) (c x y : Claims) → IsClaims c → IsGrouped confirmed c x → IsGrouped confirmed c y → x ≡ y }
    ensures written { (confirmed : Confirmed) (x y : Claims) → IsCertificateWritten confirmed x → IsCertificateWritten confirmed y → x ≡ y }
{}
