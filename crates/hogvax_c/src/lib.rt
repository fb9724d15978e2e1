// What C and Rust programs link: each function only calls its proved function. A slice is passed as
// a pointer and a length.
#![tactic(auto)]

ghost use Rattle.std.specs.Prelude.{◌≡◌, length};
ghost use Rattle.formats.specs.Blocks.{read_into, write_into};
ghost use Rattle.formats.specs.Results.{on_value};
ghost use Rattle.formats.specs.Tokens.{first_tree, own_bytes};
ghost use Rattle.formats.specs.Measures.{first_measures};
ghost use Rattle.rules.specs.PassTwo.{check_records, check_file};
ghost use Rattle.meaning.specs.Running.{stream_run};
ghost use Rattle.meaning.specs.SourceRun.{source_run};
ghost use Rattle.translation.specs.TranslateAndRun.{translate_file};
ghost use Rattle.answers.specs.Answer.{Answers};
ghost use Rattle.answers.specs.Fills.{Fills};
ghost use Rattle.run_answers.specs.RunCall.{StreamCall};
ghost use Rattle.run_calls.specs.ProgramCall.{ProgramCall};
ghost use Rattle.source_answers.specs.SourceCall.{SourceCall};
ghost use Rattle.tree_calls.specs.TreeCall.{TreeCall};

// How many bytes the input's first tree has; 0 where there is none.
#[unsafe(no_mangle)]
pub extern "C" fn hogvax_tree_bytes(input: &[u8]) -> usize
    ensures { result ≡ length (own_bytes (first_tree input.now)) }
{
    tree_calls::tree_bytes(input)
}

// The length, tips and depth of the tree that begins the input, or why there is none.
#[unsafe(no_mangle)]
pub extern "C" fn hogvax_tree(input: &[u8], answer: &mut [u64]) -> u32
    ensures { TreeCall (first_measures input.now) answer.old
        answer.new result }
{
    tree_calls::tree(input, answer)
}

// Flat records to their program file.
#[unsafe(no_mangle)]
pub extern "C" fn hogvax_pack(flat: &[u8], file: &mut [u8], answer: &mut [u64]) -> u32
    ensures { Fills (write_into (length file.old) flat.now)
        file.old file.new answer.old answer.new result }
{
    file_calls::pack(flat, file, answer)
}

// A program file to its flat records.
#[unsafe(no_mangle)]
pub extern "C" fn hogvax_unpack(file: &[u8], flat: &mut [u8], answer: &mut [u64]) -> u32
    ensures { Fills (read_into (length flat.old) file.now)
        flat.old flat.new answer.old answer.new result }
{
    file_calls::unpack(file, flat, answer)
}

// Whether the program of a file passes both passes.
#[unsafe(no_mangle)]
pub extern "C" fn hogvax_check(file: &[u8], answer: &mut [u64]) -> u32
    ensures { Answers (on_value (λ u. 0) (check_file file.now))
        answer.old answer.new result }
{
    check_calls::check(file, answer)
}

// Whether flat records are a program that passes both passes.
#[unsafe(no_mangle)]
pub extern "C" fn hogvax_check_records(flat: &[u8], answer: &mut [u64]) -> u32
    ensures { Answers (on_value (λ u. 0) (check_records flat.now))
        answer.old answer.new result }
{
    check_calls::check_records(flat, answer)
}

// The stream run of any code.
#[unsafe(no_mangle)]
pub extern "C" fn hogvax_perform(
    code: &[u8],
    input: &[u8],
    fuel: u64,
    output: &mut [u8],
    values: &mut [u32],
    returns: &mut [u64],
    answer: &mut [u64],
) -> u32
    ensures { StreamCall (stream_run code.now input.now
        output.old fuel (length values.old) (length returns.old))
        output.old output.new values.old values.new
        returns.old returns.new answer.old answer.new
        result }
{
    perform_calls::perform(code, input, fuel, output, values, returns, answer)
}

// The code of a program file.
#[unsafe(no_mangle)]
pub extern "C" fn hogvax_translate(file: &[u8], code: &mut [u8], answer: &mut [u64]) -> u32
    ensures { Fills (translate_file (length code.old) file.now)
        code.old code.new answer.old answer.new result }
{
    translate_calls::translate(file, code, answer)
}

// Checks, translates and runs the program of a file.
#[unsafe(no_mangle)]
pub extern "C" fn hogvax_run(
    file: &[u8],
    input: &[u8],
    fuel: u64,
    output: &mut [u8],
    code: &mut [u8],
    values: &mut [u32],
    returns: &mut [u64],
    answer: &mut [u64],
) -> u32
    ensures { ProgramCall file.now input.now output.old
        output.new code.old code.new values.old
        values.new returns.old returns.new answer.old
        answer.new fuel result }
{
    run_calls::run(file, input, fuel, output, code, values, returns, answer)
}

// The source run of a program file.
#[unsafe(no_mangle)]
pub extern "C" fn hogvax_source(
    file: &[u8],
    input: &[u8],
    fuel: u64,
    output: &mut [u8],
    values: &mut [u32],
    returns: &mut [u64],
    answer: &mut [u64],
) -> u32
    ensures { SourceCall (source_run file.now input.now
        output.old fuel (length values.old) (length returns.old))
        input.now output.old output.new values.old
        values.new returns.old returns.new answer.old
        answer.new result }
{
    source_calls::source(file, input, fuel, output, values, returns, answer)
}
