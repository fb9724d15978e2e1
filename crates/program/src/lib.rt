// The rows header to prefix form of 01, The order of the tests, over flat records of 8 bytes each.
#![tactic(auto)]

ghost use Rattle.std.specs.Prelude.{◌≤◌, ◌≡◌};
ghost use Rattle.formats.specs.Results.{verdict};
ghost use Rattle.formats.specs.Rows.{read_program};
ghost use Rattle.refusal.specs.Inner.Verdicts.{verdict_result};
ghost use Rattle.program.specs.Inner.Prefix.{IsOne, PrefixSays};

use refusal::{Refusal, Refused};

// Whether the records from `first` up to `end` are exactly one expression. From the last record to
// the first, each takes its parts off the expressions that stand after it, and is one expression
// with them.
fn one_expression(flat: &[u8], first: usize, end: usize) -> bool
    requires { first ≤ end }
    ensures { IsOne flat.now first end result }
{
    let mut standing: usize = 0;
    for k in (first..end).rev() {
        let Some(left) = standing.checked_sub(nodes::parts_at(flat, k)) else {
            return false;
        };
        standing = left + 1;
    }
    standing == 1
}

// The row "prefix form".
fn prefix_row(flat: &[u8]) -> Result<(), Refused>
    ensures { PrefixSays flat.now (verdict_result result) }
{
    let functions = u16::from(signatures::functions_in(flat));
    let mut first = signatures::first_node(flat);
    for j in 0..functions {
        let end = first + usize::from(signatures::count(flat, j));
        if !one_expression(flat, first, end) {
            return Err(Refusal::PrefixForm.at(first));
        }
        first = end;
    }
    Ok(())
}

// The rows header to prefix form, each finished before the next begins.
#[tactic(auto, using(crate::proofs::Rows::rows_said))]
pub fn check_records(flat: &[u8]) -> Result<(), Refused>
    ensures { verdict_result result ≡ verdict (read_program flat.now) }
{
    header::header_row(flat)?;
    functions::function_row(flat)?;
    nodes::node_row(flat)?;
    prefix_row(flat)
}
