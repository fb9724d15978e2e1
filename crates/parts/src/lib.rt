// Part i of a record's parts: what is expected of it, and what more is named in it.
#![tactic(auto)]

ghost use Rattle.std.specs.Prelude.{◌≡◌, map};
ghost use Rattle.formats.specs.Records.{nth_part, these};
ghost use Rattle.records.specs.Inner.Read.{part_of, listed};

use records::{Part, Parts};

// Part i of these; `Whole` where there is no part i.
#[tactic(auto, using(crate::proofs::Parts::in_a_row))]
fn nth_of(parts: &[Part], i: usize) -> Part
    ensures { part_of result ≡ nth_part (these (map part_of parts.now)) i }
{
    parts.get(i).copied().unwrap_or(Part::Whole)
}

// Part i, counted from 0. Every part of a Call is a number. Where another record has no part i, it
// is `Whole`.
#[tactic(auto, using(crate::proofs::Parts::part_ways))]
pub fn nth_part(parts: Parts, i: usize) -> Part
    ensures { part_of result ≡ nth_part (listed parts) i }
{
    match parts {
        Parts::None => Part::Whole,
        Parts::One(p) => nth_of(&[p], i),
        Parts::Two(p, q) => nth_of(&[p, q], i),
        Parts::Three(p, q, r) => nth_of(&[p, q, r], i),
        Parts::Arguments(_) => Part::Number,
    }
}
