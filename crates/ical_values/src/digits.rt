//! Decimal digits: one, two and four of them, as ASCII octets.

ghost use Rattle.std.specs.Prelude.{◌≡◌, ◌+◌, ◌<◌, ◌∷◌, [], ℕ, IfSome, IfNone};
ghost use Rattle.profile.specs.text.Values.{two_digits, four_digits};

/// The digit that an octet represents.
pub fn digit(octet: u8) -> Option<u8>
    ensures found { IfSome result (λ d. (d < 10) × (octet ≡ 48 + d)) }
    ensures none { IfNone result ((d : ℕ) → d < 10 → octet ≡ 48 + d → ⊥) }
{
    if octet < b'0' || octet > b'9' {
        return None;
    }
    Some(octet - b'0')
}

/// The number of two digits.
pub fn read_two(tens: u8, ones: u8) -> Option<u8>
    ensures found { IfSome result (λ n. (n < 100) × (two_digits n ≡ tens ∷ ones ∷ [])) }
    ensures none { IfNone result ((n : ℕ) → n < 100 → two_digits n ≡ tens ∷ ones ∷ [] → ⊥) }
{
    let high = digit(tens)?;
    let low = digit(ones)?;
    Some(high * 10 + low)
}

/// The number of four digits.
#[tactic(auto, using(crate::proofs::Exits::if_none))]
pub fn read_four(first: u8, second: u8, third: u8, fourth: u8) -> Option<u16>
    ensures found { IfSome result
        (λ n. (n < 10_000) × (four_digits n ≡ first ∷ second ∷ third ∷ fourth ∷ [])) }
    ensures none { IfNone result
        ((n : ℕ) → n < 10_000 → four_digits n ≡ first ∷ second ∷ third ∷ fourth ∷ [] → ⊥) }
{
    let high = read_two(first, second)?;
    let low = read_two(third, fourth)?;
    Some(high as u16 * 100 + low as u16)
}

/// The two digits of a number below 100.
pub fn two(n: u8) -> [u8; 2]
    requires { n < 100 }
    ensures { result ≡ two_digits n }
{
    [b'0' + n / 10, b'0' + n % 10]
}
