// A step of the source run: a record is finished, and this is the next stage, by its value.
#![tactic(auto)]

ghost use Rattle.std.specs.Prelude.{◌+◌, ◌*◌, ◌≡◌, get_or, set};
ghost use Rattle.stepwise.specs.Inner.Steps.{slot_at, frame_words, on_right};
ghost use Rattle.finish_record.specs.Inner.Rises.{Knows, Closes, Adds, Picks, Rises};
ghost use Rattle.finish_record.specs.Inner.InNumbers.{Rises as RisesInNumbers};

use frames::{AFTER, PARENT, Role, SLOT, TREE};
use stages::{Next, Stage, StageInNumbers};
use tree::NODE_TAG;

// Whether the Call at record r is on the right tree of a node that is its frame's own tree, at
// offset `own`.
#[tactic(auto, unfolding(stepwise::specs::Inner::Steps::on_right))]
fn on_right(table: &[u16], input: &[u8], r: u16, own: usize) -> bool
    ensures { result ≡ on_right table.now input.now r own }
{
    let code = frames::field(table, r, TREE);
    code % 2 == 0
        && 0 < code
        && frames::field(table, (code - 1) / 2, TREE) == 0
        && input.get(own) == Some(&NODE_TAG)
}

// The offset of the tree whose end is known after the call closes that the Call at record r opened.
// `own` is the offset of the frame's own tree. Where the call was on the right tree of a node, both
// end at the same offset: so with the end of that tree the node's end is known.
#[tactic(auto, using(crate::proofs::Rises::knowing))]
fn known_after(table: &[u16], input: &[u8], r: u16, own: usize, s: Stage) -> usize
    ensures { Knows table.now input.now r own s result }
{
    if s.known == s.tree && on_right(table, input, r, own) {
        own
    } else {
        s.known
    }
}

// A call closes: the call that waits goes on with its number. Where none waits, the run has ended.
// (A record is the low 16 bits of its word, as `stepwise: closing` has it. A cast to 16 bits may
// lose none, so the word is cut before it.)
#[tactic(auto, using(crate::proofs::Rises::closes))]
fn close(table: &[u16], input: &[u8], returns: &[u64], number: u32, s: Stage) -> Stage
    ensures { Closes table.now input.now returns.now number s result }
{
    if s.calls == 0 {
        return s.at(Next::Ended(number));
    }
    let n = s.calls - 1;
    let i = 2 * usize::from(n);
    let r = (returns.get(i).copied().unwrap_or(0) % 65536) as u16;
    let own = returns.get(i + 1).copied().unwrap_or(0) as usize;
    Stage {
        calls: n,
        tree: own,
        known: known_after(table, input, r, own, s),
        ..s.at(Next::Finished(r, number))
    }
}

// Puts the number of a record that is finished on its word.
#[tactic(auto, using(crate::proofs::Rises::slots))]
fn keep(table: &[u16], values: &mut [u32], r: u16, number: u32, s: Stage)
    ensures { values.new ≡ set values.old
        (frame_words * s.calls + slot_at table.now r) number }
{
    frames::put_frame(values, s.calls, frames::field(table, r, SLOT), number)
}

// The sum of the number kept and the number of a record that is finished: Add's record is finished
// with it, or Add has no result.
#[tactic(auto, using(crate::proofs::Rises::additions))]
fn add_kept(table: &[u16], values: &[u32], r: u16, number: u32, s: Stage) -> Stage
    ensures { Adds table.now values.now r number s result }
{
    let left = frames::frame_word(values, s.calls, frames::field(table, r, SLOT));
    let parent = frames::field(table, r, PARENT);
    match numbers::sum_of(left, number) {
        Some(sum) => s.at(Next::Finished(parent, sum)),
        None => s.at(Next::Broken(parent)),
    }
}

// The record of the part that IfZero takes: the zero part is after the test, the other part after
// that.
#[tactic(auto, using(crate::proofs::Rises::picks))]
fn picked(table: &[u16], r: u16, number: u32) -> u16
    ensures { Picks table.now r number result }
{
    let zero_part = frames::field(table, r, AFTER);
    if number == 0 {
        zero_part
    } else {
        frames::field(table, zero_part, AFTER)
    }
}

// The next stage after a record is finished, by its role: it is a function's body; its number is
// put on a word, and the next part begins; it is Add's second part; it is IfZero's test; its value
// is its record's; it is the label of a leaf; it is Node's left tree, and the next part begins; or
// it is the last argument, and the call opens.
pub fn rise(
    table: &[u16],
    input: &[u8],
    values: &mut [u32],
    returns: &[u64],
    r: u16,
    number: u32,
    s: Stage,
) -> Stage
    ensures { Rises table.now input.now values.old
        values.new returns.now r number s result }
{
    let parent = frames::field(table, r, PARENT);
    match frames::role_of(table, r) {
        Role::Whole => close(table, input, returns, number, s),
        Role::Kept => {
            keep(table, values, r, number, s);
            s.at(Next::Begin(frames::field(table, r, AFTER)))
        }
        Role::Added => add_kept(table, values, r, number, s),
        Role::Tested => s.at(Next::Begin(picked(table, r, number))),
        Role::Passed => s.at(Next::Finished(parent, number)),
        Role::Labelled => s.at(Next::Finished(parent, 0)),
        Role::Followed => s.at(Next::Begin(frames::field(table, r, AFTER))),
        Role::LastArgument => {
            keep(table, values, r, number, s);
            s.at(Next::Open(parent))
        }
    }
}

// The same over a stage in numbers, whose record is finished with its number, whatever its mode is.
#[tactic(auto, using(crate::proofs::Rises::rise_numbers))]
pub fn rise_in_numbers(
    table: &[u16],
    input: &[u8],
    values: &mut [u32],
    returns: &[u64],
    s: StageInNumbers,
) -> StageInNumbers
    ensures { RisesInNumbers table.now input.now
        values.old values.new returns.now s result }
{
    let finished = stages::with_next(s, Next::Finished(s.node, s.number));
    rise(table, input, values, returns, s.node, s.number, finished).in_numbers()
}
