//! What people read.
use measure::refusal::{Cause, Refusal};
use measure::tenths::Tenths;
use std::test::Fail;

#[test]
fn refusals(rt: HostRuntime) -> Result<(), Fail> {
    let covered = Cause::HeightNotCovered.at(100_001).to_string(rt.alloc())?;
    assert_eq!(rt;
        covered.as_str(),
        "the capacity table does not cover the height 10000.1 mm: take the dip again or survey the tank up to it (layer 3, number 24, place 100001)"
    );
    let unknown = Refusal {
        layer: 9,
        number: 99,
        place: -5,
    };
    let words = unknown.to_string(rt.alloc())?;
    assert_eq!(rt;
        words.as_str(),
        "the call was refused (layer 9, number 99, place -5)"
    );
    Ok(())
}

#[test]
fn tenths(rt: HostRuntime) -> Result<(), Fail> {
    assert_eq!(rt; Tenths::from(15_u64).to_string(rt.alloc())?.as_str(), "1.5");
    assert_eq!(rt;
        Tenths::from(-3_i64).to_string(rt.alloc())?.as_str(),
        "-0.3"
    );
    assert_eq!(rt;
        Tenths::from(i64::MIN).to_string(rt.alloc())?.as_str(),
        "-922337203685477580.8"
    );
    Ok(())
}
