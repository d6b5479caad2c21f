//! What tables keep beyond their single answers, each law on the contract of a call.
#![tactic(auto)]

ghost use Rattle.table_laws.specs.AnswerLaws.{AnswerLaws};
ghost use Rattle.table_laws.specs.SurveyLaws.{ExaminationLaws, StraightLines};

use capacity::table::CapacityTable;

/// For every kind of table: just the heights below the reach are answered, an answer is at most half a tenth of a
/// litre from the exact volume, a greater height never holds less, and none holds more than 200,000,000 litres.
pub fn answers_keep_their_laws<T: CapacityTable>(_table: &T)
    ensures { AnswerLaws T.CapacityTable.meaning }
{}

/// A draft is refused for the first thing that is wrong with it, and one that is not refused is right throughout.
pub fn examination_keeps_its_laws()
    ensures { ExaminationLaws }
{}

/// Between two neighbouring rows of a sealed table the volume runs in a straight line.
pub fn sealed_rows_keep_straight_lines()
    ensures { StraightLines }
{}
