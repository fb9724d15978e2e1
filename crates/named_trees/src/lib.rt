// Where the tree begins that a record of a program names, in a frame of the source run.
#![tactic(auto)]

ghost use Rattle.std.specs.Prelude.{◌≡◌};
ghost use Rattle.stepwise.specs.Inner.Steps.{tree_at};
ghost use Rattle.named_trees.specs.Inner.Offsets.{part_at, tree_offset};

use frames::TREE;
use stages::{Next, Stage, StageInNumbers};

// Where a branch of the node at offset `node` begins: the left tree for an even j, else the right
// one; 0 where there is none. The tree at `known` ends at `end`; the end of any other left tree is
// found by the tree reader.
fn part_of(input: &[u8], known: usize, end: usize, node: usize, j: u16) -> usize
    ensures { result ≡ part_at input.now known end node j }
{
    if input.len() <= node {
        return 0;
    }
    let left = node + 1;
    if j % 2 == 0 {
        return left;
    }
    if left == known {
        return end;
    }
    tree::tree_answer(&input[left..]).map_or(0, |measures| left + measures.bytes)
}

// Where the tree of this code begins, in a frame whose own tree is at `own`: 0 is that tree, 2c + 1
// the left tree and 2c + 2 the right tree of the tree that the Case at record c looks at. Each
// recursive call is about the tree that the Case looks at, whose code is smaller. (Three numbers
// and no stage: a stage that is lent stays in memory, for a fifth more machine instructions. A Copy
// struct of the three takes 0.5 % more on Grow and Sum, and is no plainer: `named_offset` alone
// would build it, of three fields of the stage.)
fn offset_of(table: &[u16], input: &[u8], own: usize, known: usize, end: usize, code: u16) -> usize
    ensures { result ≡ tree_offset table.now input.now own known end code }
{
    if code == 0 {
        return own;
    }
    let j = code - 1;
    let outer = frames::field(table, j / 2, TREE);
    if code <= outer {
        return 0;
    }
    let node = offset_of(table, input, own, known, end, outer);
    part_of(input, known, end, node, j)
}

// Where the tree begins that record r names, in the frame of a stage; 0 where there is none. (A
// number and no Option: the turns `begin_record: begun_turn` and `open_call: opened_turn` go on
// with the number.)
pub fn named_offset(table: &[u16], input: &[u8], r: u16, s: Stage) -> usize
    ensures { result ≡ tree_offset table.now input.now s.tree s.known
        s.end (tree_at table.now r) }
{
    let code = frames::field(table, r, TREE);
    offset_of(table, input, s.tree, s.known, s.end, code)
}

// The same of a stage in numbers, whatever its mode is: of the tree that its record names.
pub fn named_offset_in_numbers(table: &[u16], input: &[u8], s: StageInNumbers) -> usize
    ensures { result ≡ tree_offset table.now input.now s.tree s.known
        s.end (tree_at table.now s.node) }
{
    let begun = stages::with_next(s, Next::Begin(s.node));
    named_offset(table, input, s.node, begun)
}
