// The answer of a source run from C or Rust: a number, and the first slots of an array that the
// caller lends.
#![tactic(auto)]

ghost use Rattle.std.specs.Prelude.{◌≡◌, leb, length};
ghost use Rattle.source.specs.Inner.SourceAnswers.{source_answer, measures_in};
ghost use Rattle.tree.specs.Inner.TreeResults.{measured};
ghost use Rattle.source_answers.specs.SourceSlots.{source_slots};
ghost use Rattle.source_answers.specs.Inner.Stores.{answer_in_numbers, AnswersSource};

use refusal::Refused;
use source::{Ended, SourceAnswer};
use tree::Measures;

// How many slots an answer takes.
const SOURCE_SLOTS: usize = 6;

// Whether the answer array has all slots. (A function of its own, although it only names a number:
// the edits six_slots_refused and seven_slots_asked hold that number.)
pub fn has_room(answer: &[u64]) -> bool
    ensures { result ≡ leb source_slots (length answer.now) }
{
    answers::has_slots::<SOURCE_SLOTS>(answer)
}

// What a source run answers, in numbers: of a refusal, too, what is written, the number and the
// measures may be any.
#[derive(Clone, Copy)]
pub struct SourceAnswerInNumbers {
    pub verdict: Result<(), Refused>,
    pub begun: u64,
    pub written: usize,
    pub number: u32,
    pub measures: Measures,
}

// A run's answer in numbers: all but the expressions begun are 0 where the run is refused.
fn in_numbers(ran: SourceAnswer) -> SourceAnswerInNumbers
    ensures answer { answer_in_numbers result ≡ source_answer ran }
    ensures measures { measured result.measures ≡ measures_in ran.outcome }
{
    let (verdict, ended) = match ran.outcome {
        Ok(ended) => (Ok(()), ended),
        Err(why) => (Err(why), Ended::default()),
    };
    SourceAnswerInNumbers {
        verdict,
        begun: ran.begun,
        written: ended.value.written,
        number: ended.value.number,
        measures: ended.measures,
    }
}

// Stores the answer of a source run as it is given: the position of a refusal, expressions begun,
// bytes written, the number, sign-extended to 64 bits, and the tree's tips and depth. Gives 0 or
// the number of the refusal.
#[tactic(auto, using(crate::proofs::Laws::numbers_reported))]
pub fn report_numbers(ran: SourceAnswerInNumbers, answer: &mut [u64]) -> u32
    ensures { AnswersSource (answer_in_numbers ran) (measured ran.measures)
        answer.old answer.new result }
{
    let (number, position) = answers::number_and_position(ran.verdict);
    let row = [
        position as u64,
        ran.begun,
        ran.written as u64,
        run_answers::sign_extended(ran.number),
        ran.measures.tips as u64,
        ran.measures.depth as u64,
    ];
    answers::store_row(answer, &row, number)
}

// Stores the answer of a source run, as `report_numbers` does.
#[tactic(auto, using(crate::proofs::Laws::source_reported))]
pub fn report_source(ran: SourceAnswer, answer: &mut [u64]) -> u32
    ensures { AnswersSource (source_answer ran) (measures_in ran.outcome)
        answer.old answer.new result }
{
    report_numbers(in_numbers(ran), answer)
}
