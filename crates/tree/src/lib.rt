// 01, The tree reader: the first tree of a buffer as a part of it; or where that tree ends, with
// its tips and its depth, or the refusal with its position.
#![tactic(auto)]

ghost use Rattle.std.specs.Prelude.{◌≡◌};
ghost use Rattle.formats.specs.Tokens.{first_tree, own_bytes};
ghost use Rattle.formats.specs.Measures.{no_measures, first_measures};
ghost use Rattle.formats.specs.Inner.Trees.{measures_by};
ghost use Rattle.tree.specs.Inner.TreeResults.{measured, tree_result};

use refusal::{Refusal, Refused};

pub const LEAF_TAG: u8 = 1;

pub const NODE_TAG: u8 = 2;

pub const LABEL_BYTES: usize = 4;

// A leaf's tag and its label.
pub const LEAF_BYTES: usize = 5;

// The most nodes above a leaf, and so the most that are open at a time.
const MOST_DEPTH: usize = 1024;

// What the tree reader measures of a tree: where it ends, how many tips it has, and the nodes above
// its deepest leaf.
#[derive(Clone, Copy, Debug, PartialEq, Eq)]
pub struct Measures {
    pub bytes: usize,
    pub tips: usize,
    pub depth: usize,
}

// What is answered where there is no tree, or where the source run is refused. Written out: the
// edits `byte_without_a_tree` and `tip_without_a_tree` each change one of these numbers, and where
// a derive makes them, nothing in this crate has a number to change, or a clause to refuse it.
impl Default for Measures {
    ghost is_default = { λ m. measured m ≡ no_measures };

    fn default() -> Measures {
        Measures {
            bytes: 0,
            tips: 0,
            depth: 0,
        }
    }
}

// The measures of the first tree, or why there is none and the position of the refusal. Labels have
// `width` bytes: with 0 the input is tags alone. N4: "Find a tree's end by a loop with a table of
// 1,024 marks for the nodes still open."
//
// A tag is due at `at`, and `above` nodes are open above it. The right tree that comes next is that
// of the innermost node whose left tree is not done: `above_next` nodes are above it, 0 if there is
// none. The mark of an open node is what `above_next` was before that node. So a leaf closes all
// nodes that are done with it in one step, however many they are. `deepest` nodes are above the
// deepest leaf so far. (It is long because both arms change the same numbers: a function for
// each arm would be handed all four and the marks, and give them back, for each node.)
fn walk(input: &[u8], width: usize) -> Result<Measures, Refused>
    ensures { tree_result result ≡ measures_by width input.now }
{
    let mut marks = [0u16; MOST_DEPTH];
    let mut above = 0;
    let mut above_next = 0;
    let mut deepest: usize = 0;
    let mut at = 0;
    // A leaf is whole where its tag stands before this offset.
    let whole = input.len().saturating_sub(width);
    while at < input.len() {
        let tag = input[at];
        if tag == NODE_TAG {
            if above == MOST_DEPTH {
                return Err(Refusal::TooDeep.at(at));
            }
            marks[above] = above_next as u16;
            above += 1;
            above_next = above;
            at += 1;
        } else {
            if tag != LEAF_TAG {
                return Err(Refusal::NotATag.at(at));
            }
            let label = at + 1;
            if whole <= at {
                return Err(Refusal::InputEnded.at(label));
            }
            at = label + width;
            deepest = deepest.max(above);
            if above_next == 0 {
                let tips = (at + 1) / (width + 2);
                return Ok(Measures {
                    bytes: at,
                    tips,
                    depth: deepest,
                });
            }
            above = above_next;
            above_next = usize::from(marks[above - 1]);
        }
    }
    Err(Refusal::InputEnded.at(at))
}

// The measures of the first tree, or why there is none and the position of the refusal.
pub fn tree_answer(input: &[u8]) -> Result<Measures, Refused>
    ensures { tree_result result ≡ first_measures input.now }
{
    // A leaf alone needs no marks, which take longer to clear than it takes to read.
    if LEAF_BYTES <= input.len() && input[0] == LEAF_TAG {
        return Ok(Measures {
            bytes: LEAF_BYTES,
            tips: 1,
            depth: 0,
        });
    }
    walk(input, LABEL_BYTES)
}

// The first tree's own bytes, a part of the input; empty on a refusal, which `tree_answer` names.
pub fn first_tree(input: &[u8]) -> &[u8]
    ensures { result.now ≡ own_bytes (first_tree input.now) }
{
    match tree_answer(input) {
        Ok(measures) => {
            let end = measures.bytes;
            &input[..end]
        }
        Err(_) => &[],
    }
}
