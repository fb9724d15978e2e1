// 01, The source run: the source evaluation of a program on a tree, within limits. First come the
// checks in order, then a walk that counts the result's bytes, and one that writes them.
#![tactic(auto)]

ghost use Rattle.std.specs.Prelude.{length};
ghost use Rattle.refusal.specs.Inner.Numbers.{number};
ghost use Rattle.meaning.specs.SourceRun.{source_run};
ghost use Rattle.tree.specs.Inner.TreeResults.{measured};
ghost use Rattle.source.specs.Inner.SourceAnswers.{RefusedAs, Evaluates, answer_of, Sourced};

use block_reader::MOST_BYTES;
use decode::TABLE_WORDS;
use machine_state::{RETURN_WORDS, VALUE_WORDS};
use refusal::{Refusal, Refused};
use source_walk::Value;
use tree::Measures;

// What a run that ended reports: its value, and the measures of the tree.
#[derive(Clone, Copy, Debug, Default, PartialEq, Eq)]
pub struct Ended {
    pub value: Value,
    pub measures: Measures,
}

// What a source run answers: what it reports or the refusal, and the expressions begun.
#[derive(Clone, Copy, Debug, PartialEq, Eq)]
pub struct SourceAnswer {
    pub outcome: Result<Ended, Refused>,
    pub begun: u64,
}

// The answer of a run that is refused.
fn refused(why: Refused, begun: u64) -> SourceAnswer
    ensures { RefusedAs (number why.why) why.position begun result }
{
    SourceAnswer {
        outcome: Err(why),
        begun,
    }
}

// Evaluates the program of these rows on the tree that has these measures. One walk counts the
// result's bytes, and is lent no buffer to write them to. Where the bytes fit, a second walk, the
// same again, writes them. So a refusal leaves the output untouched. (The parameters are the
// measures and those of `source_walk: walk`; `turn` there says why they are no struct.)
fn evaluate(
    table: &[u16],
    input: &[u8],
    measures: Measures,
    first: u16,
    fuel: u64,
    output: &mut [u8],
    values: &mut [u32],
    returns: &mut [u64],
) -> SourceAnswer
    ensures { Evaluates table.now input.now (measured measures)
        first fuel output.old output.new values.old
        values.new returns.old returns.new result }
{
    let counted = source_walk::walk(table, input, first, fuel, &mut [], values, returns);
    let value = match counted.outcome {
        Ok(value) => value,
        Err(why) => return refused(why, counted.begun),
    };
    if output.len() < value.written {
        return refused(Refusal::OutputFull.at(0), counted.begun);
    }
    if value.written != 0 {
        source_walk::walk(table, input, first, fuel, output, values, returns);
    }
    SourceAnswer {
        outcome: Ok(Ended { value, measures }),
        begun: counted.begun,
    }
}

// The checks in order, and the evaluation. An error is a check's refusal, so nothing has begun.
fn check_and_evaluate(
    file: &[u8],
    input: &[u8],
    fuel: u64,
    output: &mut [u8],
    values: &mut [u32],
    returns: &mut [u64],
) -> Result<SourceAnswer, Refused>
    ensures { Sourced (source_run file.now input.now
        output.old fuel (length values.old) (length returns.old))
        input.now output.new values.old values.new
        returns.old returns.new (answer_of result) }
{
    let mut flat = [0u8; MOST_BYTES];
    // `block_reader: from_blocks` says why each of its callers cuts the buffer.
    let bytes = block_reader::from_blocks(file, &mut flat)?;
    let flat = &flat[..bytes];
    let mut table = [0u16; TABLE_WORDS];
    decode::decode(flat, &mut table)?;
    // (`prepare` and `machine` test the same two lengths. But each does so between tests of its
    // own, here as `check_source` of meaning has it, so the test alone would be shared.)
    if values.len() < VALUE_WORDS || returns.len() < RETURN_WORDS {
        return Err(Refusal::SpaceTooShort.at(0));
    }
    let measures = tree::tree_answer(input)?;
    // A record is a 16-bit word in the table and in the walk.
    let first = signatures::first_node(flat) as u16;
    Ok(evaluate(
        &table, input, measures, first, fuel, output, values, returns,
    ))
}

// The source run of a program file. In this order: the checks of the file, pass one, 13 where work
// words are missing, the tree reader; then the evaluation, where 14, 18 and 21 arise; last 17,
// where the output is shorter than the result. A refusal leaves the output untouched.
#[tactic(auto, using(crate::proofs::Calls::call_ways))]
pub fn run(
    file: &[u8],
    input: &[u8],
    fuel: u64,
    output: &mut [u8],
    values: &mut [u32],
    returns: &mut [u64],
) -> SourceAnswer
    ensures { Sourced (source_run file.now input.now
        output.old fuel (length values.old) (length returns.old))
        input.now output.new values.old values.new
        returns.old returns.new result }
{
    check_and_evaluate(file, input, fuel, output, values, returns).unwrap_or_else(|why| refused(
        why, 0,
    ))
}
