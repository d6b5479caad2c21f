//! The correction for temperature: what the product would take up at 15 °C.
ghost use Rattle.std.specs.Prelude.{◌≡◌, ◌≤◌, pos};
ghost use Rattle.working.specs.Limits.{most_coefficient, ExpansionWithin, ExponentWithin, least_correction, most_correction};
ghost use Rattle.working.specs.Steps.{expansion, exponent, correction};

use super::temperature::offset::Offset;
use super::unit::UNIT;
use measure::rounding::rounded_signed_quotient;

/// How many terms of the series are taken.
const TERMS: u64 = 12;

/// Coefficient times offset, in units of 10^-9.
pub(crate) fn expansion(coefficient: u64, offset: Offset) -> i64
    requires { coefficient ≤ most_coefficient }
    ensures value { result ≡ Rattle.working.specs.Steps.expansion coefficient offset.ten_millionths }
    ensures within { ExpansionWithin result }
{
    rounded_signed_quotient(coefficient as i64 * offset.ten_millionths, 10_000_000_000)
}

/// u + 0.8 u².
pub(crate) fn exponent(u: i64) -> i64
    requires { ExpansionWithin u }
    ensures value { result ≡ Rattle.working.specs.Steps.exponent u }
    ensures within { ExponentWithin result }
{
    u + rounded_signed_quotient(8 * (u * u), 10_000_000_000)
}

/// The series of the exponential, from its last term inward.
pub(crate) fn correction(v: i64) -> u64
    requires { ExponentWithin v }
    ensures value { pos result ≡ Rattle.working.specs.Steps.correction v }
    ensures least { least_correction ≤ result }
    ensures most { result ≤ most_correction }
{
    let mut p = UNIT as i64;
    for k in (1..=TERMS).rev() {
        p = UNIT as i64 - rounded_signed_quotient(v * p, k * UNIT);
    }
    p as u64
}
