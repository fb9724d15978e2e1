// A template's items, counted and found by the part that they stand before; and the entry of a
// function.
#![tactic(auto)]

ghost use Rattle.std.specs.Prelude.{◌≡◌, length};
ghost use Rattle.records.specs.Inner.Read.{row};
ghost use Rattle.template.specs.Inner.Items.{ItemsBefore, entries_in};

use records::{Items, Template};

// The entry of a function that the table does not have.
const NO_ENTRY: u16 = 0;

// How many items there are.
pub fn length_of(items: Items) -> usize
    ensures { result ≡ length (row items) }
{
    match items {
        Items::None => 0,
        Items::One(_) => 1,
        Items::Two(_, _) => 2,
    }
}

// The items before part i. (The parts of a template are three fields, and no array by part: the
// definitions and proofs go by cases on them, and an array would need a proof of its length.)
#[tactic(auto, using(crate::proofs::Items::before_ways))]
pub fn items_before(template: Template, i: usize) -> Items
    ensures { ItemsBefore template i result }
{
    match i {
        0 => template.first,
        1 => template.second,
        2 => template.third,
        _ => Items::None,
    }
}

// The entry of function b; 0 where the table has none.
pub fn entry_of(entries: &[u16], b: u16) -> u16
    ensures { result ≡ entries_in entries.now b }
{
    entries.get(usize::from(b)).copied().unwrap_or(NO_ENTRY)
}
