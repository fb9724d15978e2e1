// The stream run's call from C and Rust.
#![tactic(auto)]

ghost use Rattle.std.specs.Prelude.{length};
ghost use Rattle.meaning.specs.Running.{stream_run};
ghost use Rattle.run_answers.specs.RunCall.{StreamCall};

use refusal::Refusal;

// The stream run of any code. The refusal's number, 0 where the run ended; the refusal's position,
// units, bytes read, bytes written and the number, sign-extended to 64 bits, go to the answer's
// first five slots. What the run wrote is at the start of `output`, and the rest is untouched. With
// fewer than 16,384 words in `values` or 2,048 in `returns`: 13, and both are untouched; after a
// run they are unspecified. With fewer than five slots in `answer`: 13, and all buffers are
// untouched. (Why each call tests the slots by itself: see `answers: report`.)
pub fn perform(
    code: &[u8],
    input: &[u8],
    fuel: u64,
    output: &mut [u8],
    values: &mut [u32],
    returns: &mut [u64],
    answer: &mut [u64],
) -> u32
    ensures { StreamCall (stream_run code.now input.now
        output.old fuel (length values.old) (length returns.old))
        output.old output.new values.old values.new
        returns.old returns.new answer.old answer.new
        result }
{
    if !run_answers::has_room(answer) {
        return u32::from(Refusal::SpaceTooShort);
    }
    let ran = machine::perform(fuel, output, values, returns, code, input);
    run_answers::report_run(ran, answer)
}
