// The row "functions" over flat records of 8 bytes each.
#![tactic(auto)]

ghost use Rattle.std.specs.Prelude.{◌+◌, ◌*◌, ◌≡◌, ◌&&◌, eqb, leb};
ghost use Rattle.formats.specs.Numbers.{number_at};
ghost use Rattle.formats.specs.Records.{record_bytes};
ghost use Rattle.formats.specs.Programs.{most_parameters};
ghost use Rattle.formats.specs.Results.{each, verdict};
ghost use Rattle.formats.specs.Rows.{function_row};
ghost use Rattle.formats.specs.Inner.Fields.{header_in, function_in, sort_in, arity_in, count_in};
ghost use Rattle.refusal.specs.Inner.Verdicts.{verdict_result};
ghost use Rattle.functions.specs.Inner.Counts.{counts_from};

use refusal::{Refusal, Refused};
use signatures::TREE_VALUED;

const MOST_PARAMETERS: u8 = 4;

// The most number parameters of function j.
#[tactic(auto, using(crate::proofs::Functions::parameters))]
fn most_parameters(j: u16) -> u8
    ensures { result ≡ most_parameters j }
{
    if j == 0 { 0 } else { MOST_PARAMETERS }
}

// Whether the fields of function j's record are right. The largest number of a sort is tree's. (The
// clause says the conditions of `function_from` over again: that definition is of a signature or a
// refusal with its number, and gives no `Bool` by itself.)
fn function_fits(flat: &[u8], j: u16) -> bool
    ensures { result ≡ (leb (sort_in flat.now j) 1
        && (leb (arity_in flat.now j) (most_parameters j)
        && (leb 1 (count_in flat.now j)
        && eqb (number_at 4 flat.now (record_bytes * (1 + j) + 4)) 0))) }
{
    signatures::sort_number(flat, j) <= TREE_VALUED
        && signatures::parameters(flat, j) <= most_parameters(j)
        && 1 <= signatures::count(flat, j)
        && words32::read32(flat, signatures::byte_of(j, 4)) == 0
}

// The fields of so many function records, one record after the other.
#[tactic(auto, using(crate::proofs::Functions::fields_checked))]
fn function_fields(flat: &[u8], functions: u16) -> Result<(), Refused>
    ensures { verdict_result result ≡ verdict
        (each (function_in flat.now) functions 0) }
{
    for j in 0..functions {
        if !function_fits(flat, j) {
            return Err(Refusal::FunctionField.at(usize::from(j) + 1));
        }
    }
    Ok(())
}

// The sum of the node counts. It is exact: fewer than 65,536 counts of 16 bits each.
pub fn count_sum(flat: &[u8], functions: u16) -> usize
    ensures { result ≡ counts_from functions flat.now 0 }
{
    (0..functions)
        .map(|j| usize::from(signatures::count(flat, j)))
        .sum()
}

// The row "functions": the fields of each record, then the sum of the counts.
#[tactic(auto, using(crate::proofs::Functions::function_said))]
pub fn function_row(flat: &[u8]) -> Result<(), Refused>
    ensures { verdict_result result ≡ verdict
        (function_row (header_in flat.now) flat.now) }
{
    let functions = u16::from(signatures::functions_in(flat));
    let nodes = usize::from(signatures::nodes_in(flat));
    function_fields(flat, functions)?;
    if count_sum(flat, functions) != nodes {
        return Err(Refusal::FunctionField.at(usize::from(functions)));
    }
    Ok(())
}
