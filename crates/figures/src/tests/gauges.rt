//! A gate over one instrument, run.
use gauge::gate::Gate;
use gauge::gauge_trait::Gauge;
use gauge::sample::{Sample, Signal};
use gauge::single::SingleInstrument;
use measure::refusal::Refusal;

fn level(tenths: u32) -> Sample {
    Sample {
        instrument: 1,
        signal: Signal::Level(tenths),
    }
}

fn refused(number: u8, place: i64) -> Result<u32, Refusal> {
    Err(Refusal {
        layer: 1,
        number,
        place,
    })
}

#[test]
fn a_gate_doubts_a_jump_and_is_lost_after_its_retries(rt: HostRuntime) {
    let mut gate = Gate::new(SingleInstrument::new(1), 2_000, 1);
    assert_eq!(rt; gate.tell(), refused(11, 1));
    gate.take(level(50_000));
    assert_eq!(rt; gate.tell(), Ok(50_000));
    gate.take(level(53_000));
    assert_eq!(rt; gate.tell(), Ok(50_000));
    gate.take(level(53_000));
    assert_eq!(rt; gate.tell(), refused(12, 53_000));
    gate.take(level(53_100));
    assert_eq!(rt; gate.tell(), Ok(53_100));
}

#[test]
fn a_fault_is_told_with_its_instrument(rt: HostRuntime) {
    let mut instrument = SingleInstrument::new(7);
    assert_eq!(rt; instrument.tell(), refused(11, 2));
    instrument.take(Sample {
        instrument: 2,
        signal: Signal::Fault(255),
    });
    assert_eq!(rt; instrument.tell(), refused(10, 2_255));
}
