// The fields of the header and of function records, right or not, read from flat records of 8 bytes
// each. What is not there reads as 0.
#![tactic(auto)]

ghost use Rattle.std.specs.Prelude.{◌+◌, ◌*◌, ◌≡◌, ◌==◌};
ghost use Rattle.formats.specs.Records.{record_bytes};
ghost use Rattle.formats.specs.Inner.Fields.{header_in, sort_in, arity_in, count_in};

// A record has so many bytes.
pub const RECORD_BYTES: usize = 8;

// The number of the sort of a function that gives a tree; 0 is that of one that gives a number. (A
// number and no enum: until the row "functions" has passed the byte may be any, and that row tests
// it in `functions: function_fits`.)
pub const TREE_VALUED: u8 = 1;

// How many functions the header says there are.
#[tactic(auto, using(crate::proofs::Laws::header_read))]
pub fn functions_in(flat: &[u8]) -> u8
    ensures { result ≡ (header_in flat.now).functions }
{
    words::read8(flat, 1)
}

// How many nodes the header says there are.
#[tactic(auto, using(crate::proofs::Laws::header_read))]
pub fn nodes_in(flat: &[u8]) -> u16
    ensures { result ≡ (header_in flat.now).nodes }
{
    words::read16(flat, 2)
}

// The record of the first node: after the header and the records of the functions.
#[tactic(auto, using(crate::proofs::Laws::header_read))]
pub fn first_node(flat: &[u8]) -> usize
    ensures { result ≡ 1 + (header_in flat.now).functions }
{
    1 + usize::from(functions_in(flat))
}

// The record after the last node.
#[tactic(auto, using(crate::proofs::Laws::header_read))]
pub fn nodes_end(flat: &[u8]) -> usize
    ensures { result ≡ 1 + (header_in flat.now).functions + (header_in flat.now).nodes }
{
    first_node(flat) + usize::from(nodes_in(flat))
}

// Where a byte of function b's record stands: after the header and the functions before it.
pub fn byte_of(b: u16, byte: u8) -> usize
    ensures { result ≡ record_bytes * (1 + b) + byte }
{
    RECORD_BYTES * (1 + usize::from(b)) + usize::from(byte)
}

// The number of function b's sort.
#[tactic(auto, using(crate::proofs::Laws::fields_read))]
pub fn sort_number(flat: &[u8], b: u16) -> u8
    ensures { result ≡ sort_in flat.now b }
{
    words::read8(flat, byte_of(b, 0))
}

// Whether function b gives a tree.
pub fn gives_tree(flat: &[u8], b: u16) -> bool
    ensures { result ≡ (sort_in flat.now b == 1) }
{
    sort_number(flat, b) == TREE_VALUED
}

// How many number parameters function b has.
#[tactic(auto, using(crate::proofs::Laws::fields_read))]
pub fn parameters(flat: &[u8], b: u16) -> u8
    ensures { result ≡ arity_in flat.now b }
{
    words::read8(flat, byte_of(b, 1))
}

// The node count of function b.
#[tactic(auto, using(crate::proofs::Laws::fields_read))]
pub fn count(flat: &[u8], b: u16) -> u16
    ensures { result ≡ count_in flat.now b }
{
    words::read16(flat, byte_of(b, 2))
}
