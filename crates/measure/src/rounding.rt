//! The one rounding of a quotient: to the nearest whole number, a half away from zero.
ghost use Rattle.std.specs.Prelude.{◌≡◌, ◌<◌, pos};
ghost use Rattle.measure.specs.Rounding.{rounded};
ghost use Rattle.measure.specs.RoundingLaws.{RoundingLaws, FractionRounding};

/// `n / d`, rounded.
pub fn rounded_quotient(n: u64, d: u64) -> u64
    requires { 0 < d }
    ensures { pos result ≡ rounded (pos n) d }
{
    let quotient = n / d;
    let rest = n % d;
    if rest >= d - rest {
        quotient + 1
    } else {
        quotient
    }
}

/// `a / d`, rounded: the size is rounded, and the sign put back.
pub fn rounded_signed_quotient(a: i64, d: u64) -> i64
    requires { 0 < d }
    ensures { result ≡ rounded a d }
{
    let size = rounded_quotient(a.unsigned_abs(), d);
    if a >= 0 {
        return size as i64;
    }
    if size == 0 {
        return 0;
    }
    -1 - (size - 1) as i64
}

/// The rounding keeps its laws: it is at most a half away, it keeps the order, it is exact where the divisor
/// divides, it treats both signs alike, and a half goes away from zero.
pub fn rounding_keeps_its_laws()
    ensures quotients { RoundingLaws }
    ensures fractions { FractionRounding }
{}
