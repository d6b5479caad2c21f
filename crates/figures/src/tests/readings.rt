//! The checked figures of readings, run, and a printed crude oil ticket.
use super::tables::TALL;
use capacity::draft::Draft;
use capacity::table::CapacityTable;
use product::api::ApiRule;
use product::rule::ProductRule;
use std::process::Abort;
use std::test::Fail;
use working::element::CountingElement;
use working::figures::Figures;
use working::liquid::Liquid;
use working::method::Method;
use working::observation::Observation;
use working::temperature::Temperature;

/// At the level 55,555: a fourth element at 70,000 is above it and does not count.
const WARMER_UPWARD: [CountingElement; 3] = [
    CountingElement {
        height: 10_000,
        hundredths: 2_400,
    },
    CountingElement {
        height: 30_000,
        hundredths: 2_500,
    },
    CountingElement {
        height: 50_000,
        hundredths: 2_600,
    },
];

const EVENLY_WARM: [CountingElement; 3] = [
    CountingElement {
        height: 10_000,
        hundredths: 2_500,
    },
    CountingElement {
        height: 30_000,
        hundredths: 2_500,
    },
    CountingElement {
        height: 50_000,
        hundredths: 2_500,
    },
];

#[test]
fn an_element_weighs_the_liquid_around_it(rt: HostRuntime) {
    let liquid = Liquid {
        elements: &WARMER_UPWARD,
        water: 0,
        level: 55_555,
    };
    assert_eq!(rt; liquid.average().ten_millionths, 249_199_892);
}

fn reading_of_crude(rt: &impl Abort, method: Method) -> Result<Figures, Fail> {
    let table = Draft::of(&TALL).seal();
    let at_level = table.tenths(55_555)?;
    let at_water = table.tenths(0)?;
    let coefficient = ApiRule::Crude.coefficient(1_700)?;
    assert_eq!(rt; at_level, 5_555_500);
    assert_eq!(rt; at_water, 0);
    assert_eq!(rt; coefficient, 849_788_651);
    let liquid = Liquid {
        elements: &EVENLY_WARM,
        water: 0,
        level: 55_555,
    };
    let average = liquid.average();
    assert_eq!(rt; average.ten_millionths, 250_000_000);
    let observation = Observation {
        at_level,
        at_water,
        shell: 112,
        wall: average,
        product: average,
        coefficient,
        density: 1_700,
        method,
    };
    Ok(observation.work_out())
}

#[test]
fn a_reading_of_crude_by_method_1(rt: HostRuntime) -> Result<(), Fail> {
    assert_eq!(rt;
        reading_of_crude(&rt, Method::Plain)?,
        Figures {
            wall_factor: 1_000_224_013,
            gross: 5_556_745,
            correction: 991_480_837,
            standard: 5_509_406,
            mass: 468_300,
        }
    );
    Ok(())
}

#[test]
fn a_reading_of_crude_by_method_2(rt: HostRuntime) -> Result<(), Fail> {
    assert_eq!(rt;
        reading_of_crude(&rt, Method::InAir)?,
        Figures {
            wall_factor: 1_000_224_013,
            gross: 5_556_745,
            correction: 991_480_837,
            standard: 5_509_406,
            mass: 467_693,
        }
    );
    Ok(())
}

/// It turns 25.83 m³ into 26.39 m³ and 17.15 t, at 650.0 kg/m³ and 0 °C, with the factor 1.0216.
#[test]
fn a_printed_ticket_of_crude(rt: HostRuntime) -> Result<(), Fail> {
    let coefficient = ApiRule::Crude.coefficient(1_300)?;
    assert_eq!(rt; coefficient, 1_453_188_876);
    let freezing = Temperature { ten_millionths: 0 };
    let ticket = Observation {
        at_level: 258_300,
        at_water: 0,
        shell: 0,
        wall: freezing,
        product: freezing,
        coefficient,
        density: 1_300,
        method: Method::Plain,
    };
    assert_eq!(rt;
        ticket.work_out(),
        Figures {
            wall_factor: 1_000_000_000,
            gross: 258_300,
            correction: 1_021_648_723,
            standard: 263_892,
            mass: 17_153,
        }
    );
    Ok(())
}
