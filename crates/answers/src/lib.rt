// The answer of a call from C or Rust: a number, and the first slots of an array that the caller
// lends.
#![tactic(auto)]

ghost use Rattle.std.specs.Prelude.{◌≡◌, leb, length};
ghost use Rattle.refusal.specs.Inner.Answered.{answered};
ghost use Rattle.refusal.specs.Inner.FilledBuffer.{filled_result};
ghost use Rattle.formats.specs.Results.{on_value};
ghost use Rattle.refusal.specs.Inner.Verdicts.{verdict_result};
ghost use Rattle.answers.specs.Slots.{refusal_of, position_of};
ghost use Rattle.answers.specs.Inner.Stores.{Stored, Stores};
ghost use Rattle.answers.specs.Answer.{answer_slots, Answers};

use refusal::{Refusal, Refused};

// How many slots an answer of position and bytes takes. (`HOGVAX_ANSWER_SLOTS` of the header is
// larger: it is enough for `hogvax_tree`, too.) Slots that a later version adds come after these.
const ANSWER_SLOTS: usize = 2;

// Whether the answer array has so many slots.
pub fn has_slots<const SLOTS: usize>(answer: &[u64]) -> bool
    ensures { result ≡ leb SLOTS (length answer.now) }
{
    SLOTS <= answer.len()
}

// Whether the answer array has all slots. (Each kind of answer has a function of its own for this:
// must-fail edits hold its number.)
pub fn has_room(answer: &[u64]) -> bool
    ensures { result ≡ leb answer_slots (length answer.now) }
{
    has_slots::<ANSWER_SLOTS>(answer)
}

// The number of the refusal and its position, both 0 where all is done.
#[tactic(auto, unfolding(crate::specs::Slots::refusal_of, crate::specs::Slots::position_of))]
pub fn number_and_position<T: Copy>(outcome: Result<T, Refused>) -> (u32, usize)
    ensures number { result.0 ≡ refusal_of (answered (λ x. tt) outcome) }
    ensures position { result.1 ≡ position_of (answered (λ x. tt) outcome) }
{
    match outcome {
        Ok(_) => (0, 0),
        Err(refused) => (u32::from(refused.why), refused.position),
    }
}

// Stores a row of numbers in the answer's first slots, and gives `number`. With too few slots: 13,
// and the answer is untouched. (Word by word: the library's copy of a row that was just put
// together reads two words at once where one was written, which waits for both.)
#[tactic(auto, using(crate::proofs::Slots::rows))]
pub fn store_row(answer: &mut [u64], row: &[u64], number: u32) -> u32
    ensures { Stored row.now number answer.old answer.new
        result }
{
    let n = row.len();
    if answer.len() < n {
        return u32::from(Refusal::SpaceTooShort);
    }
    for k in 0..n {
        answer[k] = row[k];
    }
    number
}

// Stores the position of a refusal and a number of bytes, and gives `number`.
pub fn store(answer: &mut [u64], number: u32, position: usize, bytes: usize) -> u32
    ensures { Stores number position bytes answer.old answer.new result }
{
    let row = [position as u64, bytes as u64];
    store_row(answer, &row, number)
}

// The answer of a call that has filled a lent buffer, or refused to. (Each such call tests the
// slots, fills and reports by itself: one function for them all would take a closure, and so a
// `requires` that it may be called, and no public function here has one.)
pub fn report(filled: Result<usize, Refused>, answer: &mut [u64]) -> u32
    ensures { Answers (filled_result filled) answer.old answer.new result }
{
    let (number, position) = number_and_position(filled);
    store(answer, number, position, filled.unwrap_or(0))
}

// The answer of a check, which has no bytes to report.
pub fn report_verdict(verdict: Result<(), Refused>, answer: &mut [u64]) -> u32
    ensures { Answers (on_value (λ u. 0) (verdict_result verdict)) answer.old
        answer.new result }
{
    report(verdict.map(|()| 0), answer)
}
