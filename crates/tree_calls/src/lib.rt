// The tree reader's calls from C and Rust.
#![tactic(auto)]

ghost use Rattle.std.specs.Prelude.{◌≡◌, length};
ghost use Rattle.formats.specs.Tokens.{first_tree, own_bytes};
ghost use Rattle.formats.specs.Measures.{first_measures};
ghost use Rattle.tree_calls.specs.TreeCall.{TreeCall};

// The length of the first tree's own bytes, which begin the input; 0 on a refusal.
pub fn tree_bytes(input: &[u8]) -> usize
    ensures { result ≡ length (own_bytes (first_tree input.now)) }
{
    tree::first_tree(input).len()
}

// The refusal's number, 0 where there is a tree; the refusal's position and the tree's length, tips
// and depth, all three 0 on a refusal, go to the answer's first four slots. With fewer slots: 13,
// and the answer is untouched.
pub fn tree(input: &[u8], answer: &mut [u64]) -> u32
    ensures { TreeCall (first_measures input.now) answer.old
        answer.new result }
{
    let found = tree::tree_answer(input);
    let (number, position) = answers::number_and_position(found);
    let measures = found.unwrap_or_default();
    let row = [
        position as u64,
        measures.bytes as u64,
        measures.tips as u64,
        measures.depth as u64,
    ];
    answers::store_row(answer, &row, number)
}
