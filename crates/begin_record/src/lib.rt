// A step of the source run: a record begins, and this is the next stage.
#![tactic(auto)]

ghost use Rattle.std.specs.Prelude.{◌+◌, ◌*◌, ◌<◌, ◌≡◌, get_or, set};
ghost use Rattle.formats.specs.Numbers.{number_at};
ghost use Rattle.stepwise.specs.Inner.Steps.{operand_at, more_at, frame_words, record_limit};
ghost use Rattle.begin_record.specs.Inner.Begins.{Looks, Begins};
ghost use Rattle.begin_record.specs.Inner.InNumbers.{Begins as BeginsInNumbers};

use frames::{AFTER, Action, MORE, OPERAND};
use stages::{Next, RECORD_LIMIT, Stage, StageInNumbers};
use tree::{LEAF_BYTES, LEAF_TAG};

// The number of a Const, put together from its two halves. (The library has no method for halves.)
fn constant(table: &[u16], r: u16) -> u32
    ensures { result ≡ operand_at table.now r + 65536 * more_at table.now
        r }
{
    u32::from(frames::field(table, r, OPERAND)) + 65536 * u32::from(frames::field(table, r, MORE))
}

// Reads the label at an offset, and puts it on the word by which the Case at record r names it.
#[tactic(auto, using(crate::proofs::Begins::slots))]
fn put_label(table: &[u16], input: &[u8], at: usize, values: &mut [u32], r: u16, s: Stage)
    ensures { values.new ≡ set values.old
        (frame_words * s.calls + operand_at table.now r)
        (number_at 4 input.now at) }
{
    let label = words32::read32(input, at);
    frames::put_frame(values, s.calls, frames::field(table, r, OPERAND), label)
}

// The Case at record r looks at its tree. At a leaf its label is put on its word, and the leaf part
// begins; else the node part begins.
#[tactic(auto, using(crate::proofs::Begins::looks))]
fn look(table: &[u16], input: &[u8], values: &mut [u32], r: u16, s: Stage) -> Stage
    requires { r < record_limit }
    ensures { Looks table.now input.now values.old
        values.new r s result }
{
    let p = named_trees::named_offset(table, input, r, s);
    match input.get(p) {
        None => s.at(Next::Stuck(r)),
        Some(&LEAF_TAG) => {
            put_label(table, input, p + 1, values, r, s);
            Stage {
                known: p,
                end: p + LEAF_BYTES,
                ..s.at(Next::Begin(r + 1))
            }
        }
        Some(_) => s.at(Next::Begin(frames::field(table, r + 1, AFTER))),
    }
}

// The number that the Var at record r names.
#[tactic(auto, using(crate::proofs::Begins::slots))]
fn named_number(table: &[u16], values: &[u32], r: u16, s: Stage) -> u32
    ensures { result ≡ get_or values.now
        (frame_words * s.calls + operand_at table.now r) 0 }
{
    frames::frame_word(values, s.calls, frames::field(table, r, OPERAND))
}

// The next stage after record r begins, by its action: a number is given; a tree is looked at; a
// call without arguments opens; else the first part begins.
#[tactic(auto, using(crate::proofs::Begins::beginnings))]
pub fn begin(table: &[u16], input: &[u8], values: &mut [u32], r: u16, s: Stage) -> Stage
    ensures { Begins table.now input.now values.old
        values.new r s result }
{
    if RECORD_LIMIT <= r {
        return s.at(Next::Stuck(r));
    }
    match frames::action_of(table, r) {
        Action::GivesConstant => s.at(Next::Finished(r, constant(table, r))),
        Action::GivesNamed => s.at(Next::Finished(r, named_number(table, values, r, s))),
        Action::LooksAtTree => look(table, input, values, r, s),
        Action::CallsFunction => {
            if frames::field(table, r, MORE) == 0 {
                s.at(Next::Open(r))
            } else {
                s.at(Next::Begin(r + 1))
            }
        }
        Action::EntersPart | Action::TagsNode => s.at(Next::Begin(r + 1)),
    }
}

// The same over a stage in numbers, whose record begins, whatever its mode is.
#[tactic(auto, using(crate::proofs::Begins::begin_numbers))]
pub fn begin_in_numbers(
    table: &[u16],
    input: &[u8],
    values: &mut [u32],
    s: StageInNumbers,
) -> StageInNumbers
    ensures { BeginsInNumbers table.now input.now
        values.old values.new s result }
{
    let begun = stages::with_next(s, Next::Begin(s.node));
    begin(table, input, values, s.node, begun).in_numbers()
}
