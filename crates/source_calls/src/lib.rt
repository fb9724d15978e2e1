// The source run's call from C and Rust.
#![tactic(auto)]

ghost use Rattle.std.specs.Prelude.{length};
ghost use Rattle.meaning.specs.SourceRun.{source_run};
ghost use Rattle.source_answers.specs.SourceCall.{SourceCall};

use refusal::Refusal;

// The source run of a program file: its meaning on the tree that begins `input`, for programs that
// pass one accepts, whether or not they take trees in order. The refusal's number, 0 where the run
// ended; the refusal's position, expressions begun, bytes written, the number, sign-extended to 64
// bits, and the tree's tips and depth go to the answer's first six slots; the last four are 0 on a
// refusal, which leaves `output` untouched. With fewer than 16,384 words in `values` or 2,048 in
// `returns`: 13. Refused with 1 to 13, 15, 16 or 20, a call leaves both untouched; after a run they
// are unspecified. With fewer than six slots in `answer`: 13, and all buffers are untouched.
#[tactic(auto, using(crate::proofs::Laws::run_answered))]
pub fn source(
    file: &[u8],
    input: &[u8],
    fuel: u64,
    output: &mut [u8],
    values: &mut [u32],
    returns: &mut [u64],
    answer: &mut [u64],
) -> u32
    ensures { SourceCall (source_run file.now input.now
        output.old fuel (length values.old) (length returns.old))
        input.now output.old output.new values.old
        values.new returns.old returns.new answer.old
        answer.new result }
{
    if !source_answers::has_room(answer) {
        return u32::from(Refusal::SpaceTooShort);
    }
    let ran = source::run(file, input, fuel, output, values, returns);
    source_answers::report_source(ran, answer)
}
