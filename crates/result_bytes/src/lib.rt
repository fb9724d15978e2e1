// The bytes of a result. The source run writes them as its records begin and are finished.
#![tactic(auto)]

ghost use Rattle.std.specs.Prelude.{◌≡◌};
ghost use Rattle.formats.specs.Tokens.{leaf, tokens};
ghost use Rattle.formats.specs.Written.{written};
ghost use Rattle.stepwise.specs.Inner.Steps.{emitted_first, emitted_last};
ghost use Rattle.result_bytes.specs.Inner.Bytes.{counted, Says};

use frames::{Action, Role};
use stages::{Next, Stage, StageInNumbers};
use tree::{LEAF_BYTES, LEAF_TAG, NODE_TAG};

// 2^63: no buffer is so long, and from there on bytes are not counted.
const COUNT_LIMIT: usize = 9223372036854775808;

// The count after n bytes more. (n is a byte, so no sum overflows, whoever calls.)
#[tactic(auto, using(crate::proofs::Bytes::counting))]
fn count(at: usize, n: u8) -> usize
    ensures { result ≡ counted at n }
{
    if at < COUNT_LIMIT {
        at + usize::from(n)
    } else {
        at
    }
}

// Writes a leaf at an offset, or nothing where it does not fit.
#[tactic(auto, using(crate::proofs::Bytes::leaves))]
fn write_leaf(output: &mut [u8], at: usize, label: u32)
    ensures { output.new ≡ written output.old at (tokens (leaf label)) }
{
    let [a, b, c, d] = label.to_le_bytes();
    writing::write_bytes(output, at, &[LEAF_TAG, a, b, c, d])
}

// A node's tag is written when it begins, where it fits. Gives the new count of bytes written. (A
// pattern here and in `emit_last`, and no `!=`: with the derived test the proof did not close. The
// search doesn't join what the test says to the law that takes the variant.)
pub fn emit_first(table: &[u16], output: &mut [u8], r: u16, s: Stage) -> usize
    ensures { Says (emitted_first table.now r) output.old
        output.new s.written result }
{
    let Action::TagsNode = frames::action_of(table, r) else {
        return s.written;
    };
    frames::put(output, s.written, NODE_TAG);
    count(s.written, 1)
}

// A leaf is written when its number is finished, where it fits. Gives the new count of bytes
// written.
pub fn emit_last(table: &[u16], output: &mut [u8], r: u16, number: u32, s: Stage) -> usize
    ensures { Says (emitted_last table.now r number)
        output.old output.new s.written result }
{
    let Role::Labelled = frames::role_of(table, r) else {
        return s.written;
    };
    write_leaf(output, s.written, number);
    count(s.written, LEAF_BYTES as u8)
}

// The same of a stage in numbers, whatever its mode is: its record begins.
pub fn emit_first_in_numbers(table: &[u16], output: &mut [u8], s: StageInNumbers) -> usize
    ensures { Says (emitted_first table.now s.node) output.old
        output.new s.written result }
{
    let begun = stages::with_next(s, Next::Begin(s.node));
    emit_first(table, output, s.node, begun)
}

// The same of a stage in numbers, whatever its mode is: its record is finished, with its number.
pub fn emit_last_in_numbers(table: &[u16], output: &mut [u8], s: StageInNumbers) -> usize
    ensures { Says (emitted_last table.now s.node s.number)
        output.old output.new s.written result }
{
    let finished = stages::with_next(s, Next::Finished(s.node, s.number));
    emit_last(table, output, s.node, s.number, finished)
}
