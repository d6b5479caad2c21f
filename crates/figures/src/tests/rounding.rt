//! Quotients rounded by hand, at the ends of 64 bits too.
use measure::rounding::{rounded_quotient, rounded_signed_quotient};

#[test]
fn sizes(rt: HostRuntime) {
    assert_eq!(rt; rounded_quotient(4, 3), 1);
    assert_eq!(rt; rounded_quotient(5, 3), 2);
    assert_eq!(rt; rounded_quotient(5, 2), 3);
    assert_eq!(rt; rounded_quotient(u64::MAX, 1), 18_446_744_073_709_551_615);
    assert_eq!(rt; rounded_quotient(u64::MAX, 2), 9_223_372_036_854_775_808);
    assert_eq!(rt; rounded_quotient(9_223_372_036_854_775_807, u64::MAX), 0);
    assert_eq!(rt; rounded_quotient(9_223_372_036_854_775_808, u64::MAX), 1);
}

#[test]
fn signs(rt: HostRuntime) {
    assert_eq!(rt; rounded_signed_quotient(5, 2), 3);
    assert_eq!(rt; rounded_signed_quotient(-5, 2), -3);
    assert_eq!(rt; rounded_signed_quotient(-4, 3), -1);
    assert_eq!(rt; rounded_signed_quotient(-1, 3), 0);
    assert_eq!(rt; rounded_signed_quotient(i64::MIN, 1), i64::MIN);
    assert_eq!(rt;
        rounded_signed_quotient(i64::MIN, 3),
        -3_074_457_345_618_258_603
    );
    assert_eq!(rt; rounded_signed_quotient(i64::MAX, 1), i64::MAX);
}
