// The order checker: the one door to both passes, for flat records and for program files.
#![tactic(auto)]

ghost use Rattle.std.specs.Prelude.{◌≡◌};
ghost use Rattle.refusal.specs.Inner.Verdicts.{verdict_result};
ghost use Rattle.rules.specs.PassTwo.{check_records, check_file};

use block_reader::MOST_BYTES;
use refusal::Refused;

// Flat records: the rows header to prefix form, pass one, then pass two.
pub fn check_records(flat: &[u8]) -> Result<(), Refused>
    ensures { verdict_result result ≡ check_records flat.now }
{
    pass_two::check_all_rows(flat)
}

// Checks a program file: the rows from blocks to prefix form, pass one, then pass two, each
// finished for the whole file before the next begins. It is not put into its callers: its 8.5 KB
// of flat records would stand in the frame of each run, beside those of `translate_file`.
#[inline(never)]
#[tactic(auto, using(crate::proofs::Laws::blocks_refused))]
pub fn check_file(file: &[u8]) -> Result<(), Refused>
    ensures { verdict_result result ≡ check_file file.now }
{
    let mut flat = [0u8; MOST_BYTES];
    // `block_reader: from_blocks` says why each of its callers cuts the buffer.
    let bytes = block_reader::from_blocks(file, &mut flat)?;
    let records = &flat[..bytes];
    check_records(records)
}
