//! A whole history: a computer is commissioned, and every call is made.
ghost use Rattle.std.specs.Prelude.{◌≡◌, IfOk};
ghost use Rattle.computer.specs.Ledgers.{meanings, commissioned, LedgerAdmitted};
ghost use Rattle.history.specs.Histories.{step, AnswerOf, Answered, Ran};

use super::call::{Answer, Call, Outcome};
use capacity::table::CapacityTable;
use computer::computer::TankComputer;
use computer::dated_table::DatedTable;
use gauge::gauge_trait::Gauge;
use product::rule::ProductRule;
use std::alloc::{AllocError, Global};

/// Makes one call, by the method of its name.
pub fn serve<G: Gauge, T: CapacityTable + Drop, P: ProductRule>(
    computer: &mut TankComputer<G, T, P>,
    call: Call<T>,
) -> Answer
    ensures answer { AnswerOf
        (meanings G.Gauge.meaning T.CapacityTable.meaning P.ProductRule.meaning)
        computer.old call result }
    ensures after { computer.new ≡ step
        (meanings G.Gauge.meaning T.CapacityTable.meaning P.ProductRule.meaning)
        computer.old call }
    ensures admitted { LedgerAdmitted P.ProductRule.meaning computer.new }
{
    match call {
        Call::Adopt(survey) => computer.adopt(survey)?,
        Call::Sample(sample) => computer.sample(sample)?,
        Call::Water(height) => computer.water(height)?,
        Call::Fit(height) => computer.fit(height)?,
        Call::Element { number, hundredths } => computer.element(number, hundredths)?,
        Call::Density(density) => computer.density(density)?,
        Call::Shell(shell) => computer.shell(shell)?,
        Call::Read(method) => return Ok(Outcome::Reading(computer.read(method)?)),
    }
    Ok(Outcome::Done)
}

/// Makes all calls, in their order.
#[tactic(auto, using(crate::proofs::Runs::one_more))]
fn serve_all<G: Gauge, T: CapacityTable + Drop, P: ProductRule>(
    heap: Global,
    computer: &mut TankComputer<G, T, P>,
    calls: Vec<Call<T>>,
) -> Result<Vec<Answer>, AllocError>
    ensures { IfOk result
        (λ answers. Answered
        (meanings G.Gauge.meaning T.CapacityTable.meaning P.ProductRule.meaning)
        computer.old calls.items answers.items) }
{
    let mut answers = Vec::new(heap);
    for call in calls {
        let answer = serve(computer, call);
        answers.push(answer)?;
    }
    Ok(answers)
}

/// Commissions a computer and makes all calls. Each answer is the ledger's after the calls before it.
#[tactic(auto, using(crate::proofs::Runs::ran))]
pub fn run<G: Gauge + Drop, T: CapacityTable + Drop, P: ProductRule + Drop>(
    heap: Global,
    tank: u32,
    gauge: G,
    survey: DatedTable<T>,
    rule: P,
    calls: Vec<Call<T>>,
) -> Result<Vec<Answer>, AllocError>
    ensures { IfOk result
        (λ answers. Ran
        (meanings G.Gauge.meaning T.CapacityTable.meaning P.ProductRule.meaning)
        (commissioned tank gauge survey.table survey.date rule) calls.items answers.items) }
{
    let mut computer = TankComputer::commission(tank, gauge, survey, rule);
    serve_all(heap, &mut computer, calls)
}
