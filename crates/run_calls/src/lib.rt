// The runner's call from C and Rust.
#![tactic(auto)]

ghost use Rattle.run_calls.specs.ProgramCall.{ProgramCall};

use refusal::Refusal;

// Checks, translates and runs the program of a file, as `runner::run` does. The refusal's number, 0
// where the run ended; the refusal's position, units, bytes read, bytes written and the number,
// sign-extended to 64 bits, go to the answer's first five slots. Every refusal of the file and of
// both passes, and every 13, comes before code is written; then the code goes to the start of
// `code` and stays. Refused with 1 to 13, a call leaves every buffer but `answer` untouched. After
// a run `values` and `returns` are unspecified. With fewer than five slots in `answer`: 13, and all
// buffers are untouched. (Why each call tests the slots by itself: see `answers: report`.)
pub fn run(
    file: &[u8],
    input: &[u8],
    fuel: u64,
    output: &mut [u8],
    code: &mut [u8],
    values: &mut [u32],
    returns: &mut [u64],
    answer: &mut [u64],
) -> u32
    ensures { ProgramCall file.now input.now output.old
        output.new code.old code.new values.old
        values.new returns.old returns.new answer.old
        answer.new fuel result }
{
    if !run_answers::has_room(answer) {
        return u32::from(Refusal::SpaceTooShort);
    }
    let ran = runner::run(file, input, fuel, output, code, values, returns);
    run_answers::report_run(ran, answer)
}
