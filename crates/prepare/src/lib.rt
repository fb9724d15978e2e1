// What comes before a run of a program file: the checks of the file, both passes, every 13, the
// program's code.
#![tactic(auto)]

ghost use Rattle.std.specs.Prelude.{length};
ghost use Rattle.refusal.specs.Inner.FilledBuffer.{FilledBuffer};
ghost use Rattle.translation.specs.TranslateAndRun.{prepared};
ghost use Rattle.prepare.specs.Inner.Words.{TooFewWords};

use machine_state::{RETURN_WORDS, VALUE_WORDS};
use refusal::{Refusal, Refused};

// The refusal of a call where work words are missing: the file's own refusals come first.
fn too_few_words(file: &[u8]) -> Result<usize, Refused>
    ensures { TooFewWords file.now result }
{
    order::check_file(file)?;
    Err(Refusal::SpaceTooShort.at(0))
}

// All that comes before a run that is lent so many value words and return words: the checks of the
// file, both passes and every 13; then the program's code is written to the start of `code`. A
// refusal leaves the buffer untouched.
pub fn prepare(
    file: &[u8],
    code: &mut [u8],
    values: usize,
    returns: usize,
) -> Result<usize, Refused>
    ensures { FilledBuffer
        (prepared (length code.old) values returns file.now)
        code.old code.new result }
{
    if values < VALUE_WORDS || returns < RETURN_WORDS {
        return too_few_words(file);
    }
    translate::translate_file(file, code)
}
