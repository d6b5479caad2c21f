//! Prints what every rule answers at every density, one line each, for comparison with a table made elsewhere.
#![tactic(auto)]

use measure::refusal::Refusal;
use product::api::ApiRule;
use product::fixed::FixedCoefficient;
use product::rule::ProductRule;
use std::io::{self, BufWriter, Write};

fn write_answer(
    out: &mut impl Write,
    name: &str,
    density: u32,
    answer: Result<u64, Refusal>,
) -> io::Result<()> {
    match answer {
        Ok(coefficient) => writeln!(out, "{name} {density} {coefficient}"),
        Err(refusal) => writeln!(out, "{name} {density} refused {}", refusal.numbers()),
    }
}

fn write_rule(out: &mut impl Write, name: &str, rule: &impl ProductRule) -> io::Result<()> {
    for density in 990..2411 {
        write_answer(out, name, density, rule.coefficient(density))?;
    }
    write_answer(out, name, u32::MAX, rule.coefficient(u32::MAX))
}

fn write_fixed(out: &mut impl Write, name: &str, value: u32) -> io::Result<()> {
    match FixedCoefficient::new(value) {
        Ok(rule) => write_rule(out, name, &rule),
        Err(refusal) => write_answer(out, name, value, Err(refusal)),
    }
}

fn main(rt: HostRuntime) -> io::Result<()> {
    let mut out = BufWriter::new(rt.alloc(), rt.stdout())?;
    for (name, rule) in [
        ("crude", ApiRule::Crude),
        ("products", ApiRule::Products),
        ("lubricants", ApiRule::Lubricants),
    ] {
        write_rule(&mut out, name, &rule)?;
    }
    for (name, value) in [
        ("fixed-0", 0),
        ("fixed-1", 1),
        ("fixed-8371", 8_371),
        ("fixed-20000", 20_000),
        ("fixed-20001", 20_001),
        ("fixed-4294967295", u32::MAX),
    ] {
        write_fixed(&mut out, name, value)?;
    }
    out.flush()
}
