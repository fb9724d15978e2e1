// The row "nodes" over flat records of 8 bytes each, and how many parts a node has.
#![tactic(auto)]

ghost use Rattle.std.specs.Prelude.{◌≡◌};
ghost use Rattle.formats.specs.Records.{part_count};
ghost use Rattle.formats.specs.Results.{verdict};
ghost use Rattle.formats.specs.Rows.{node_row};
ghost use Rattle.formats.specs.Inner.Fields.{header_in, arity_in};
ghost use Rattle.refusal.specs.Inner.Verdicts.{verdict_result};
ghost use Rattle.records.specs.Inner.Read.{listed};
ghost use Rattle.nodes.specs.Inner.Parts.{parts_in};

use records::Parts;
use refusal::Refused;

// The row "nodes".
#[tactic(auto, using(crate::proofs::Nodes::nodes_checked))]
pub fn node_row(flat: &[u8]) -> Result<(), Refused>
    ensures { verdict_result result ≡ verdict
        (node_row (header_in flat.now) flat.now) }
{
    let end = signatures::nodes_end(flat);
    for k in signatures::first_node(flat)..end {
        records::record_at(flat, k)?;
    }
    Ok(())
}

// How many parts there are. A Call has as many as its function has number parameters.
#[tactic(auto, using(crate::proofs::Nodes::parts_counted))]
pub fn part_count(flat: &[u8], parts: Parts) -> usize
    ensures { result ≡ part_count (arity_in flat.now) (listed parts) }
{
    match parts {
        Parts::None => 0,
        Parts::One(_) => 1,
        Parts::Two(_, _) => 2,
        Parts::Three(_, _, _) => 3,
        Parts::Arguments(b) => usize::from(signatures::parameters(flat, b)),
    }
}

// How many parts record k has; 0 where it is refused, as the definition `parts_in` says.
pub fn parts_at(flat: &[u8], k: usize) -> usize
    ensures { result ≡ parts_in flat.now k }
{
    records::record_at(flat, k).map_or(0, |found| part_count(flat, found.parts))
}
