// Blocks of a program file written: flat records put into blocks.
#![tactic(auto)]

ghost use Rattle.std.specs.Prelude.{◌+◌, ◌*◌, ◌-◌, ◌≤◌, ◌≡◌, ◌++◌, length, take, drop, replicate};
ghost use Rattle.formats.specs.Written.{written};
ghost use Rattle.formats.specs.Blocks.{block_bytes, records_bytes, block_body, block_of, blocks_for, file_of, in_room};
ghost use Rattle.refusal.specs.Inner.FilledBuffer.{FilledBuffer};

use block_check::{BLOCK_BYTES, BLOCKS_OFFSET, CHECK_SUM, NUMBER_OFFSET, PART_BYTES, USED_OFFSET};
use refusal::{Refusal, Refused};
use signatures::RECORD_BYTES;

// The offset of the check in a block.
const CHECK_OFFSET: usize = 510;

// How many values a 16-bit word has.
const WORD_LIMIT: usize = 65536;

// Writes block j at an offset: the records of its part, zeros for those that it does not use, its
// fields, and the check word that makes its words sum to 65,535. (A cast may lose no bits, so what
// is above 16 of them is cut off before it. With a function that gives the block back, it is on the
// stack twice.)
fn write_block(file: &mut [u8], at: usize, part: &[u8], blocks: usize, j: usize)
    requires { length part.now ≤ records_bytes }
    ensures { file.new ≡ written file.old at
        (block_of part.now j blocks) }
{
    let mut block = [0u8; BLOCK_BYTES];
    let used = part.len() / RECORD_BYTES;
    writing::write_bytes(&mut block, 0, part);
    writing::write16(&mut block, NUMBER_OFFSET, (j % WORD_LIMIT) as u16);
    writing::write16(&mut block, USED_OFFSET, used as u16);
    writing::write16(&mut block, BLOCKS_OFFSET, (blocks % WORD_LIMIT) as u16);
    let sum = block_check::word_sum(&block[..CHECK_OFFSET]);
    writing::write16(&mut block, CHECK_OFFSET, CHECK_SUM - sum);
    writing::write_bytes(file, at, &block);
}

// Writes the file of flat records, which has so many blocks, to the start of a lent buffer that has
// room for it.
fn write_blocks(flat: &[u8], blocks: usize, file: &mut [u8])
    requires { (blocks ≡ blocks_for (length flat.now)) ×
        (block_bytes * blocks ≤ length file.old) }
    ensures { file.new ≡ written file.old 0
        (file_of flat.now) }
{
    for (j, part) in flat.chunks(PART_BYTES).enumerate() {
        write_block(file, BLOCK_BYTES * j, part, blocks, j);
    }
}

// Writes the file of flat records to the start of a lent buffer; refused with 13 where the buffer
// is too short.
pub fn to_blocks(flat: &[u8], file: &mut [u8]) -> Result<usize, Refused>
    ensures { FilledBuffer (in_room (length file.old) (file_of flat.now))
        file.old file.new result }
{
    let blocks = flat.len().div_ceil(PART_BYTES);
    if file.len() / BLOCK_BYTES < blocks {
        return Err(Refusal::SpaceTooShort.at(0));
    }
    write_blocks(flat, blocks, file);
    Ok(BLOCK_BYTES * blocks)
}
