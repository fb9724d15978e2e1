// The translator's call from C and Rust.
#![tactic(auto)]

ghost use Rattle.std.specs.Prelude.{length};
ghost use Rattle.translation.specs.TranslateAndRun.{translate_file};
ghost use Rattle.answers.specs.Fills.{Fills};

use refusal::Refusal;

// The code of a program file, 8 bytes an instruction, written to the start of `code`. The refusal's
// number, 0 where it is written; the refusal's position and the bytes written go to the answer's
// first two slots. With fewer slots: 13, and both buffers are untouched.
pub fn translate(file: &[u8], code: &mut [u8], answer: &mut [u64]) -> u32
    ensures { Fills (translate_file (length code.old) file.now)
        code.old code.new answer.old answer.new result }
{
    if !answers::has_room(answer) {
        return u32::from(Refusal::SpaceTooShort);
    }
    let filled = translate::translate_file(file, code);
    answers::report(filled, answer)
}
