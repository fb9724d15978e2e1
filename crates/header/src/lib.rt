// The row "header" over flat records of 8 bytes each.
#![tactic(auto)]

ghost use Rattle.std.specs.Prelude.{◌+◌, ◌*◌, ◌≡◌, ◌&&◌, eqb, leb};
ghost use Rattle.formats.specs.Records.{record_bytes};
ghost use Rattle.formats.specs.Programs.{first_edition, most_functions, most_nodes};
ghost use Rattle.formats.specs.Results.{verdict};
ghost use Rattle.formats.specs.Rows.{header_row};
ghost use Rattle.refusal.specs.Inner.Verdicts.{verdict_result};

use refusal::{Refusal, Refused};
use signatures::RECORD_BYTES;

const FIRST_EDITION: u8 = 1;

// The most functions of a program.
pub const MOST_FUNCTIONS: usize = 32;

const MOST_NODES: usize = 1024;

// Whether the header's fields and the record count are right. (The clause says the condition of
// `header_from` over again: that definition is of a header or a refusal with its number, and gives
// no `Bool` by itself.)
fn header_fits(edition: u8, functions: usize, nodes: usize, rest: u32, bytes: usize) -> bool
    ensures { result ≡ (eqb edition first_edition
        && ((leb 1 functions && leb functions most_functions)
        && ((leb 1 nodes && leb nodes most_nodes)
        && (eqb rest 0 && eqb bytes (record_bytes * (1 + functions + nodes)))))) }
{
    edition == FIRST_EDITION
        && (1..=MOST_FUNCTIONS).contains(&functions)
        && (1..=MOST_NODES).contains(&nodes)
        && rest == 0
        && bytes == RECORD_BYTES * (1 + functions + nodes)
}

// The row "header".
#[tactic(auto, using(crate::proofs::Header::header_said))]
pub fn header_row(flat: &[u8]) -> Result<(), Refused>
    ensures { verdict_result result ≡ verdict (header_row flat.now) }
{
    let edition = words::read8(flat, 0);
    let functions = usize::from(signatures::functions_in(flat));
    let nodes = usize::from(signatures::nodes_in(flat));
    let rest = words32::read32(flat, 4);
    if !header_fits(edition, functions, nodes, rest, flat.len()) {
        return Err(Refusal::HeaderField.at(0));
    }
    Ok(())
}
