// One block of a program file: the sum of its words, and the row "each block" for it.
#![tactic(auto)]

ghost use Rattle.std.specs.Prelude.{◌≡◌, ◌%◌, take, drop};
ghost use Rattle.formats.specs.Results.{verdict};
ghost use Rattle.formats.specs.Blocks.{word_limit, word_sum, zeros, used_fits, fields_fit, used_of};
ghost use Rattle.refusal.specs.Inner.Verdicts.{verdict_result};

use refusal::{Refusal, Refused};
use signatures::RECORD_BYTES;

// A block has so many bytes.
pub const BLOCK_BYTES: usize = 512;

const BLOCK_RECORDS: u16 = 63;

// The bytes of all records of a block.
pub const PART_BYTES: usize = 504;

// The offsets of a block's fields: its number, the records that it uses, the number of blocks.
pub const NUMBER_OFFSET: usize = 504;

pub const USED_OFFSET: usize = 506;

pub const BLOCKS_OFFSET: usize = 508;

// What a block's words sum to, modulo 65,536.
pub const CHECK_SUM: u16 = 65535;

// The sum of the 16-bit words of a slice, modulo 65,536.
pub fn word_sum(s: &[u8]) -> u16
    ensures { result ≡ word_sum s.now % word_limit }
{
    s.chunks_exact(2).fold(0, |sum: u16, word| sum.wrapping_add(words::read16(word, 0)))
}

// Whether every byte from offset `from` up to offset `to` is zero.
fn zero_between(s: &[u8], from: usize, to: usize) -> bool
    ensures { result ≡ zeros (drop from (take to s.now)) }
{
    let end = to.min(s.len());
    s[from.min(end)..end].iter().all(|byte| *byte == 0)
}

// Whether block j of a file of `blocks` blocks may use `used` records.
#[tactic(auto, unfolding(formats::specs::Blocks::used_fits))]
fn used_fits(blocks: u16, j: u16, used: u16) -> bool
    ensures { result ≡ used_fits blocks j used }
{
    if u32::from(j) + 1 < u32::from(blocks) {
        used == BLOCK_RECORDS
    } else {
        (1..=BLOCK_RECORDS).contains(&used)
    }
}

// Whether the block's fields other than the check, and its unused records, are right.
#[tactic(auto, unfolding(formats::specs::Blocks::fields_fit))]
fn fields_fit(block: &[u8], blocks: u16, j: u16) -> bool
    ensures { result ≡ fields_fit blocks j block.now }
{
    let used = words::read16(block, USED_OFFSET);
    words::read16(block, NUMBER_OFFSET) == j
        && used_fits(blocks, j, used)
        && words::read16(block, BLOCKS_OFFSET) == blocks
        && zero_between(block, RECORD_BYTES * usize::from(used), PART_BYTES)
}

// The row "each block" for block j of a file of `blocks` blocks: the check, then the other fields
// and the unused records.
#[tactic(auto, unfolding(formats::specs::Blocks::used_of))]
pub fn block_row(block: &[u8], blocks: u16, j: u16) -> Result<(), Refused>
    ensures { verdict_result result ≡ verdict (used_of blocks j block.now) }
{
    if word_sum(block) != CHECK_SUM {
        return Err(Refusal::BlockCheck.at(usize::from(j)));
    }
    if fields_fit(block, blocks, j) {
        return Ok(());
    }
    Err(Refusal::BlockField.at(usize::from(j)))
}
