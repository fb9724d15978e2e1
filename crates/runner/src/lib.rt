// The runner: from a program file and token bytes to the run's answer. Checker, translator and
// stream run in one call.
#![tactic(auto)]

ghost use Rattle.runner.specs.Inner.RunnerCall.{RunnerCall};

use machine::CheckedCode;
use machine_state::Answer;

// Runs the program of a file on an input: what comes before a run, then the run of the code, which
// stays in its buffer. The contract carries demand 3 about this very call, and what holds on any
// input.
pub fn run(
    file: &[u8],
    input: &[u8],
    fuel: u64,
    output: &mut [u8],
    code: &mut [u8],
    values: &mut [u32],
    returns: &mut [u64],
) -> Answer
    ensures { RunnerCall file.now input.now output.old
        output.new code.old code.new values.old
        values.new returns.old returns.new fuel result }
{
    let emitted = prepare::prepare(file, code, values.len(), returns.len());
    match emitted {
        Err(why) => Answer::refused(why),
        Ok(bytes) => {
            let translated = &code[..bytes];
            let own = CheckedCode { code: translated };
            machine::run_checked(fuel, output, values, returns, own, input)
        }
    }
}
