// Program files: the reader, from a file to flat records, and the writer, from flat records to the
// file.
#![tactic(auto)]

ghost use Rattle.std.specs.Prelude.{◌≡◌, length};
ghost use Rattle.formats.specs.Results.{verdict};
ghost use Rattle.formats.specs.Rows.{read_program};
ghost use Rattle.formats.specs.Blocks.{read_into, write_into};
ghost use Rattle.formats.specs.Inner.Blocks.{program_into};
ghost use Rattle.refusal.specs.Inner.FilledBuffer.{FilledBuffer};
ghost use Rattle.refusal.specs.Inner.Verdicts.{verdict_result};

use block_reader::MOST_BYTES;
use refusal::{Refusal, Refused};

// Flat records that are a program, written to the start of a lent buffer: the rows header to prefix
// form, then 13 where the buffer is too short.
fn put_program(flat: &[u8], records: &mut [u8]) -> Result<usize, Refused>
    ensures { FilledBuffer (program_into (length records.old) flat.now)
        records.old records.new result }
{
    program::check_records(flat)?;
    if records.len() < flat.len() {
        return Err(Refusal::SpaceTooShort.at(0));
    }
    writing::write_bytes(records, 0, flat);
    Ok(flat.len())
}

// The file reader: a program file's flat records, 8 bytes each, written to the start of a lent
// buffer; or the first refusal of the rows blocks to prefix form, and last 13 where the buffer is
// too short. A refusal leaves the buffer untouched.
pub fn read_file(file: &[u8], records: &mut [u8]) -> Result<usize, Refused>
    ensures { FilledBuffer (read_into (length records.old) file.now)
        records.old records.new result }
{
    let mut flat = [0u8; MOST_BYTES];
    // `block_reader: from_blocks` says why each of its callers cuts the buffer.
    let bytes = block_reader::from_blocks(file, &mut flat)?;
    put_program(&flat[..bytes], records)
}

// The rows header to prefix form over flat records. (A function of its own, although it only calls
// one: the edit position_of_the_header changes the position that it hands on.)
fn check_rows(records: &[u8]) -> Result<(), Refused>
    ensures { verdict_result result ≡ verdict (read_program records.now) }
{
    program::check_records(records)
}

// The file writer: the file of flat records that are a program, written to the start of a lent
// buffer; or the first refusal of the rows header to prefix form, and last 13 where the buffer is
// too short. A refusal leaves the buffer untouched.
pub fn write_file(records: &[u8], file: &mut [u8]) -> Result<usize, Refused>
    ensures { FilledBuffer (write_into (length file.old) records.now)
        file.old file.new result }
{
    check_rows(records)?;
    block_writer::to_blocks(records, file)
}
