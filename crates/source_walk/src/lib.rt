// The walk of the source run: a loop over the rows of a program, in which expressions begin one
// after the other. Its state is in the lent words, so no function recurs over expressions or calls.
#![tactic(auto)]

ghost use Rattle.std.specs.Prelude.{◌≡◌};
ghost use Rattle.source_walk.specs.Inner.Loop.{weight_of, outcome_of, BeginsOne, Climbs, OpensOne, Turns, Walks};

use refusal::{Refusal, Refused};
use stages::{Next, Stage};

// This falls at each step from one finished record to the next.
#[tactic(auto, using(crate::proofs::Loop::weighing))]
fn weight_of(s: Stage) -> usize
    ensures { result ≡ weight_of s }
{
    match s.next {
        Next::Finished(r, _) => 1 + 65536 * usize::from(s.calls) + usize::from(r),
        _ => 0,
    }
}

// Steps while records are finished. With a program's rows the weight falls at each step; where it
// did not, the walk would be stuck.
#[tactic(auto, using(crate::proofs::Loop::climbs, crate::proofs::Loop::climb_lengths))]
fn climb(
    table: &[u16],
    input: &[u8],
    output: &mut [u8],
    values: &mut [u32],
    returns: &[u64],
    start: Stage,
) -> Stage
    ensures { Climbs table.now input.now returns.now
        output.old output.new values.old values.new start
        result }
{
    let mut s = start;
    while let Next::Finished(r, number) = s.next {
        let at = result_bytes::emit_last(table, output, r, number, s);
        let next = Stage {
            written: at,
            ..finish_record::rise(table, input, values, returns, r, number, s)
        };
        if weight_of(s) <= weight_of(next) {
            return next.at(Next::Stuck(0));
        }
        s = next;
    }
    s
}

// The expression at record r begins.
#[tactic(auto, using(crate::proofs::Loop::begin_one))]
fn begin_one(
    table: &[u16],
    input: &[u8],
    output: &mut [u8],
    values: &mut [u32],
    r: u16,
    s: Stage,
) -> Stage
    ensures { BeginsOne table.now input.now output.old
        output.new values.old values.new r s result }
{
    let at = result_bytes::emit_first(table, output, r, s);
    Stage {
        written: at,
        ..begin_record::begin(table, input, values, r, s)
    }
}

// A call opens, if one is to open.
#[tactic(auto, using(crate::proofs::Loop::opens_one))]
fn open_one(table: &[u16], input: &[u8], values: &mut [u32], returns: &mut [u64], s: Stage) -> Stage
    ensures { OpensOne table.now input.now values.old
        values.new returns.old returns.new s result }
{
    match s.next {
        Next::Open(r) => open_call::open(table, input, values, returns, r, s),
        _ => s,
    }
}

// The expression at record r begins, and the walk goes on until the next one is to begin. (The lent
// words go to each step one by one, here and in `climb` and `walk`: it is lent what it may change,
// and no more. `table` and `input` could go together, as a Copy struct by value. Then a run on Grow
// or Sum took 4 % more machine instructions with the struct made in `walk`, and 30 % in `source`.)
#[tactic(auto, using(crate::proofs::Loop::turn_taken))]
fn turn(
    table: &[u16],
    input: &[u8],
    output: &mut [u8],
    values: &mut [u32],
    returns: &mut [u64],
    r: u16,
    s: Stage,
) -> Stage
    ensures { Turns table.now input.now output.old
        output.new values.old values.new returns.old
        returns.new r s result }
{
    let begun = begin_one(table, input, output, values, r, s);
    let settled = climb(table, input, output, values, returns, begun);
    open_one(table, input, values, returns, settled)
}

// The value that a walk ends with, as it is reported: the bytes written, and the number.
#[derive(Clone, Copy, Debug, Default, PartialEq, Eq)]
pub struct Value {
    pub written: usize,
    pub number: u32,
}

// What a walk answers: its value or the refusal, and the expressions begun.
#[derive(Clone, Copy, Debug, PartialEq, Eq)]
pub struct Walked {
    pub outcome: Result<Value, Refused>,
    pub begun: u64,
}

// What a walk that stops at this stage comes to. A program's rows lead to no stuck stage, so a walk
// that has neither ended nor come to an operation without a result has come to a call too many.
#[tactic(auto, using(crate::proofs::Loop::finishing))]
fn finish(s: Stage) -> Result<Value, Refused>
    ensures { result ≡ outcome_of s }
{
    match s.next {
        Next::Ended(number) => Ok(Value {
            written: s.written,
            number,
        }),
        Next::Broken(r) => Err(Refusal::OutOfRange.at(usize::from(r))),
        _ => Err(Refusal::TooManyCalls.at(0)),
    }
}

// Evaluates the program of these rows on the tree that begins the input, from the record `first`
// on. The fuel is tested before each expression begins. The result is written to the start of
// `output` as far as it fits.
#[tactic(auto, using(crate::proofs::Loop::walks, crate::proofs::Loop::walk_lengths))]
pub fn walk(
    table: &[u16],
    input: &[u8],
    first: u16,
    fuel: u64,
    output: &mut [u8],
    values: &mut [u32],
    returns: &mut [u64],
) -> Walked
    ensures { Walks table.now input.now first fuel
        output.old output.new values.old values.new
        returns.old returns.new result }
{
    let mut s = Stage {
        next: Next::Begin(first),
        calls: 0,
        tree: 0,
        known: 0,
        end: 0,
        written: 0,
    };
    let mut r = first;
    for begun in 0..fuel {
        s = turn(table, input, output, values, returns, r, s);
        let Next::Begin(next) = s.next else {
            return Walked {
                outcome: finish(s),
                begun: begun + 1,
            };
        };
        r = next;
    }
    Walked {
        outcome: Err(Refusal::FuelUsedUp.at(0)),
        begun: fuel,
    }
}
