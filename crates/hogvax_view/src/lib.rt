// What a program links that reads trees alone and may hold no recursive routine: the tree reader's
// calls of `hogvax_c`, under the same names and with the same contracts.
#![tactic(auto)]

ghost use Rattle.std.specs.Prelude.{◌≡◌, length};
ghost use Rattle.formats.specs.Tokens.{first_tree, own_bytes};
ghost use Rattle.formats.specs.Measures.{first_measures};
ghost use Rattle.tree_calls.specs.TreeCall.{TreeCall};

// How many bytes the input's first tree has; 0 where there is none.
#[unsafe(no_mangle)]
pub extern "C" fn hogvax_tree_bytes(input: &[u8]) -> usize
    ensures { result ≡ length (own_bytes (first_tree input.now)) }
{
    tree_calls::tree_bytes(input)
}

// The length, tips and depth of the tree that begins the input, or why there is none.
#[unsafe(no_mangle)]
pub extern "C" fn hogvax_tree(input: &[u8], answer: &mut [u64]) -> u32
    ensures { TreeCall (first_measures input.now) answer.old
        answer.new result }
{
    tree_calls::tree(input, answer)
}
