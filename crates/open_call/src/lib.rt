// A step of the source run: a call opens, and this is the next stage.
#![tactic(auto)]

ghost use Rattle.std.specs.Prelude.{suc, ◌-◌, ◌*◌, ◌<◌, ◌≡◌, set};
ghost use Rattle.stepwise.specs.Inner.Steps.{slot_at, more_at, frame_words, record_limit, most_waiting, copied};
ghost use Rattle.open_call.specs.Inner.Opens.{Opens};
ghost use Rattle.open_call.specs.Inner.InNumbers.{Opens as OpensInNumbers};

use frames::{MORE, OPERAND, SLOT};
use stages::{Next, RECORD_LIMIT, Stage, StageInNumbers};

// The most calls that may wait: with the one that goes on, 1,024 are open.
const MOST_WAITING: u16 = 1023;

// Copies the `count` arguments of a call to the first words of the next frame. They stand on the
// words from `slot` down, in the frame of the call that goes on.
fn copy(values: &mut [u32], calls: u16, slot: u16, count: u16)
    requires { calls < most_waiting }
    ensures { values.new ≡ copied values.old (frame_words * calls) slot
        count }
{
    for n in 0..count {
        let x = frames::frame_word(values, calls, slot.saturating_sub(n));
        frames::put_frame(values, calls + 1, n, x);
    }
}

// Copies the arguments of the call at record r to the first words of the next frame.
#[tactic(auto, using(crate::proofs::Opens::passing))]
fn pass_arguments(table: &[u16], values: &mut [u32], r: u16, s: Stage)
    requires { (r < record_limit) × (s.calls < most_waiting) }
    ensures { values.new ≡ copied values.old (frame_words * s.calls)
        (slot_at table.now (suc r)) (more_at table.now r) }
{
    let slot = frames::field(table, r + 1, SLOT);
    copy(values, s.calls, slot, frames::field(table, r, MORE))
}

// Saves the record of the call and its frame's tree on the return words.
#[tactic(auto, using(crate::proofs::Opens::passing))]
fn save(returns: &mut [u64], r: u16, s: Stage)
    ensures { returns.new ≡ set (set returns.old (2 * s.calls) r)
        (suc (2 * s.calls)) s.tree }
{
    let i = 2 * usize::from(s.calls);
    frames::put(returns, i, u64::from(r));
    frames::put(returns, i + 1, s.tree as u64)
}

// Opens the call at record r: its function's body begins, or it is one too many.
pub fn open(
    table: &[u16],
    input: &[u8],
    values: &mut [u32],
    returns: &mut [u64],
    r: u16,
    s: Stage,
) -> Stage
    ensures { Opens table.now input.now values.old
        values.new returns.old returns.new r s result }
{
    if RECORD_LIMIT <= r {
        return s.at(Next::Stuck(r));
    }
    if MOST_WAITING <= s.calls {
        return s.at(Next::Deep(r));
    }
    let p = named_trees::named_offset(table, input, r, s);
    pass_arguments(table, values, r, s);
    save(returns, r, s);
    Stage {
        calls: s.calls + 1,
        tree: p,
        ..s.at(Next::Begin(frames::field(table, r, OPERAND)))
    }
}

// The same over a stage in numbers, the call at whose record opens, whatever its mode is.
#[tactic(auto, using(crate::proofs::Opens::open_numbers))]
pub fn open_in_numbers(
    table: &[u16],
    input: &[u8],
    values: &mut [u32],
    returns: &mut [u64],
    s: StageInNumbers,
) -> StageInNumbers
    ensures { OpensInNumbers table.now input.now
        values.old values.new returns.old returns.new s
        result }
{
    let opened = stages::with_next(s, Next::Open(s.node));
    open(table, input, values, returns, s.node, opened).in_numbers()
}
