// Blocks of a program file read: the rows "blocks" and "each block", and the flat records taken out
// of the blocks.
#![tactic(auto)]

ghost use Rattle.std.specs.Prelude.{◌+◌, ◌*◌, ◌/◌, ◌<◌, ◌≤◌, ◌≡◌, length, take, drop};
ghost use Rattle.formats.specs.Results.{done, verdict, on_value};
ghost use Rattle.formats.specs.Written.{written};
ghost use Rattle.formats.specs.Blocks.{block_bytes, block_row, flat_in, buffer_after};
ghost use Rattle.formats.specs.Inner.Blocks.{most_bytes};
ghost use Rattle.refusal.specs.Inner.FilledBuffer.{FilledBuffer};
ghost use Rattle.refusal.specs.Inner.Verdicts.{verdict_result};

use block_check::{BLOCK_BYTES, PART_BYTES, USED_OFFSET};
use refusal::{Refusal, Refused};
use signatures::RECORD_BYTES;

const MOST_BLOCKS: usize = 17;

// The most bytes of flat records: those of 17 blocks of 63 records, 8 bytes each.
pub const MOST_BYTES: usize = 8568;

// The row "each block" of a file of `blocks` blocks.
#[tactic(auto, using(crate::proofs::Rows::rows_reported))]
fn each_block(file: &[u8], blocks: u16) -> Result<(), Refused>
    requires { length file.now ≡ block_bytes * blocks }
    ensures { verdict_result result ≡ verdict (block_row blocks file.now) }
{
    for (j, block) in file.as_chunks::<BLOCK_BYTES>().0.iter().enumerate() {
        block_check::block_row(block, blocks, j as u16)?;
    }
    Ok(())
}

// The rows "blocks" and "each block" of a file.
#[tactic(auto, unfolding(formats::specs::Blocks::flat_in, formats::specs::Blocks::length_row))]
fn block_rows(file: &[u8]) -> Result<(), Refused>
    ensures { verdict_result result ≡ verdict (flat_in file.now) }
{
    let blocks = file.len() / BLOCK_BYTES;
    if file.len() != BLOCK_BYTES * blocks || !(1..=MOST_BLOCKS).contains(&blocks) {
        return Err(Refusal::FileLength.at(0));
    }
    each_block(file, blocks as u16)
}

// How many bytes the flat records of a file take: every block but the last is full.
#[tactic(auto, using(crate::proofs::Gathered::flat_sized))]
fn flat_bytes(file: &[u8]) -> usize
    requires { verdict (flat_in file.now) ≡ done tt }
    ensures { done result ≡ on_value length (flat_in file.now) }
{
    let blocks = file.as_chunks::<BLOCK_BYTES>().0;
    let full = blocks.len() - 1;
    let used = usize::from(words::read16(&blocks[full], USED_OFFSET));
    PART_BYTES * full + RECORD_BYTES * used
}

// Writes bytes at an offset, or nothing where they do not all fit, as `writing: write_bytes` does.
// Byte by byte: the library's copy needs `memmove` here, and users are told that no other routines
// of the C library are needed than `memcpy` and `memset`.
#[tactic(auto, using(writing::proofs::Copied::copied))]
fn put(flat: &mut [u8], at: usize, from: &[u8])
    ensures { flat.new ≡ written flat.old at from.now }
{
    let n = from.len();
    let room = flat.len();
    if room < n {
        return;
    }
    if at <= room - n {
        for (k, &byte) in from.iter().enumerate() {
            flat[at + k] = byte;
        }
    }
}

// Writes the flat records of a file whose blocks have passed to the start of a lent buffer, which
// has room for those of every file.
#[tactic(auto, using(crate::proofs::Gathered::gathered))]
fn gather(file: &[u8], flat: &mut [u8])
    requires { (verdict (flat_in file.now) ≡ done tt) × (length flat.old ≡ most_bytes) }
    ensures { flat.new ≡ buffer_after flat.old
        (flat_in file.now) }
{
    for (j, block) in file.as_chunks::<BLOCK_BYTES>().0.iter().enumerate() {
        let used = usize::from(words::read16(block, USED_OFFSET));
        let (records, _) = block.split_at(RECORD_BYTES * used);
        put(flat, PART_BYTES * j, records);
    }
}

// The flat records of a file, written to the start of a lent buffer. The buffer has room for those
// of every file, so only the block rows refuse. (It is lent, and no struct with the records in it
// is given back: that would be copied to the caller, 8.5 KB for each file that is read. Nor does it
// give back `&flat[..bytes]`: its contract says every byte of the lent buffer when it returns, as
// `FilledBuffer` does for all that fill one, so its callers cut the buffer.)
#[tactic(auto, using(crate::proofs::Gathered::taken_out))]
pub fn from_blocks(file: &[u8], flat: &mut [u8; MOST_BYTES]) -> Result<usize, Refused>
    ensures { FilledBuffer (flat_in file.now) flat.old
        flat.new result }
{
    block_rows(file)?;
    gather(file, flat);
    Ok(flat_bytes(file))
}
