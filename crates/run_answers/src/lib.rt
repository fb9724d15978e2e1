// The answer of a stream run from C or Rust: a number, and the first slots of an array that the
// caller lends.
#![tactic(auto)]

ghost use Rattle.std.specs.Prelude.{◌≡◌, leb, length};
ghost use Rattle.machine_state.specs.Inner.Answers.{run_answer};
ghost use Rattle.run_answers.specs.RunSlots.{run_slots, sign_extended};
ghost use Rattle.run_answers.specs.Inner.Stores.{answer_in_numbers, AnswersRun};

use machine_state::Answer;
use refusal::Refused;

// How many slots an answer takes.
const RUN_SLOTS: usize = 5;

// Whether the answer array has all slots. (A function of its own, as `answers: has_room`: the edits
// six_slots_asked and five_slots_refused hold its constant.)
pub fn has_room(answer: &[u64]) -> bool
    ensures { result ≡ leb run_slots (length answer.now) }
{
    answers::has_slots::<RUN_SLOTS>(answer)
}

// The number that a 32-bit word stands for in two's complement, as a 64-bit word: sign-extended.
#[tactic(auto, using(crate::proofs::Extended::extended_ways))]
pub fn sign_extended(word: u32) -> u64
    ensures { result ≡ sign_extended word }
{
    i64::from(word.cast_signed()).cast_unsigned()
}

// What a stream run answers, in numbers: of a refusal, too, the number may be any.
#[derive(Clone, Copy)]
pub struct AnswerInNumbers {
    pub verdict: Result<(), Refused>,
    pub units: u64,
    pub read: usize,
    pub written: usize,
    pub number: u32,
}

// A run's answer in numbers: the number is 0 where the run is refused.
fn in_numbers(ran: Answer) -> AnswerInNumbers
    ensures { answer_in_numbers result ≡ run_answer ran }
{
    let (verdict, number) = match ran.outcome {
        Ok(number) => (Ok(()), number),
        Err(why) => (Err(why), 0),
    };
    AnswerInNumbers {
        verdict,
        units: ran.units,
        read: ran.read,
        written: ran.written,
        number,
    }
}

// Stores the answer of a stream run as it is given: the position of a refusal, units, bytes read,
// bytes written and the number, sign-extended to 64 bits. Gives 0 or the number of the refusal.
#[tactic(auto, using(crate::proofs::Laws::numbers_reported))]
pub fn report_numbers(ran: AnswerInNumbers, answer: &mut [u64]) -> u32
    ensures { AnswersRun (answer_in_numbers ran) answer.old answer.new result }
{
    let (number, position) = answers::number_and_position(ran.verdict);
    let row = [
        position as u64,
        ran.units,
        ran.read as u64,
        ran.written as u64,
        sign_extended(ran.number),
    ];
    answers::store_row(answer, &row, number)
}

// Stores the answer of a stream run, as `report_numbers` does.
#[tactic(auto, using(crate::proofs::Laws::run_reported))]
pub fn report_run(ran: Answer, answer: &mut [u64]) -> u32
    ensures { AnswersRun (run_answer ran) answer.old answer.new result }
{
    report_numbers(in_numbers(ran), answer)
}
