//! The checked figures of tables, run.
use capacity::draft::Draft;
use capacity::raised_datum::RaisedDatum;
use capacity::row::Row;
use capacity::table::CapacityTable;
use measure::refusal::Refusal;

const LOW: [Row; 2] = [
    Row {
        height: 0,
        litres: 0,
    },
    Row {
        height: 4,
        litres: 1,
    },
];

pub(crate) const TALL: [Row; 2] = [
    Row {
        height: 0,
        litres: 0,
    },
    Row {
        height: 100_000,
        litres: 1_000_000,
    },
];

fn not_covered(place: i64) -> Result<u64, Refusal> {
    Err(Refusal {
        layer: 3,
        number: 24,
        place,
    })
}

#[test]
fn a_quarter_of_a_litre_is_three_tenths(rt: HostRuntime) {
    let table = Draft::of(&LOW).seal();
    assert_eq!(rt; table.tenths(1), Ok(3));
}

#[test]
fn the_last_height_is_covered_and_no_more(rt: HostRuntime) {
    let table = Draft::of(&TALL).seal();
    assert_eq!(rt; table.tenths(100_000), Ok(10_000_000));
    assert_eq!(rt; table.tenths(100_001), not_covered(100_001));
}

#[test]
fn a_datum_of_ten_moves_the_reach(rt: HostRuntime) {
    let table = RaisedDatum::new(Draft::of(&TALL).seal(), 10);
    assert_eq!(rt; table.tenths(99_990), Ok(10_000_000));
    assert_eq!(rt; table.tenths(99_991), not_covered(99_991));
}
