// Node records: the nine kinds with their operands, parts and templates, read from flat records of
// 8 bytes each.
#![tactic(auto)]

ghost use Rattle.std.specs.Prelude.{◌≡◌, ◌&&◌, eqb, ltb};
ghost use Rattle.formats.specs.Refusals.{node_field};
ghost use Rattle.formats.specs.Results.{value_if, on_value};
ghost use Rattle.formats.specs.Inner.Fields.{node_in};
ghost use Rattle.records.specs.Inner.Read.{OfKind, StandsAt, described, shaped, shape_of};
ghost use Rattle.records.specs.declared.Items.TheVariants.{None, One};

use refusal::{Refusal, Refused};
use signatures::RECORD_BYTES;

// Const's operand.
#[derive(Clone, Copy, Debug, PartialEq, Eq)]
pub struct Constant {
    pub i: u32,
}

// Var's operand: a number name.
#[derive(Clone, Copy, Debug, PartialEq, Eq)]
pub struct NumberName {
    pub a: u8,
}

// Case's operand: a tree name.
#[derive(Clone, Copy, Debug, PartialEq, Eq)]
pub struct TreeName {
    pub a: u8,
}

// Call's operands: a tree name and a function.
#[derive(Clone, Copy, Debug, PartialEq, Eq)]
pub struct Called {
    pub a: u8,
    pub b: u16,
}

// A node record: its kind with its operands.
#[derive(Clone, Copy, Debug, PartialEq, Eq)]
pub enum Record {
    Const(Constant),
    Var(NumberName),
    Add,
    IfZero,
    Let,
    Leaf,
    Node,
    Case(TreeName),
    Call(Called),
}

// A part: a number or a tree is expected; or what is expected of the whole, as it is, with one
// number name more, or with two tree names more.
#[derive(Clone, Copy, Debug, PartialEq, Eq)]
pub enum Part {
    Number,
    Tree,
    Whole,
    UnderNumber,
    UnderTrees,
}

// A record's parts in order: none to three, or the number arguments of a function. (Definitions and
// proofs go by cases on these values; an array or a slice would need its length besides.)
#[derive(Clone, Copy, Debug, PartialEq, Eq)]
pub enum Parts {
    None,
    One(Part),
    Two(Part, Part),
    Three(Part, Part, Part),
    Arguments(u16),
}

// An item of a template: an instruction whose address or word is found when it is emitted. `Ifnot`
// and `ReadTag` go to the last part, `Jump` goes after the whole; `Get` is of a number name, `Call`
// of a function.
#[derive(Clone, Copy, Debug, PartialEq, Eq)]
pub enum Item {
    Push(u32),
    Get(u8),
    Add,
    Ifnot,
    Jump,
    End,
    LeafTag,
    NodeTag,
    WriteNumber,
    ReadTag,
    ReadNumber,
    Call(u16),
}

// Items in a row. (Cases, as `Parts` are, for the same reason.)
#[derive(Clone, Copy, Debug, Default, PartialEq, Eq)]
pub enum Items {
    #[default]
    None,
    One(Item),
    Two(Item, Item),
}

// A kind's template: what stands before its first, second and third part, and after them all.
#[derive(Clone, Copy, Debug, Default, PartialEq, Eq)]
pub struct Template {
    pub first: Items,
    pub second: Items,
    pub third: Items,
    pub last: Items,
}

// A record read: its kind with its operands, its parts and its template.
#[derive(Clone, Copy, Debug, PartialEq, Eq)]
pub struct Described {
    pub node: Record,
    pub parts: Parts,
    pub template: Template,
}

// Whether fields that must be zero are.
fn zero(a: u8, b: u16, i: u32) -> bool
    ensures { result ≡ (eqb a 0 && (eqb b 0 && eqb i 0)) }
{
    a == 0 && b == 0 && i == 0
}

// The same for a Call, whose b must be below the number of functions, and whose i zero.
fn callable(b: u16, i: u32, functions: u8) -> bool
    ensures { result ≡ (ltb b functions && eqb i 0) }
{
    b < u16::from(functions) && i == 0
}

// An item after all parts.
fn last(item: Item) -> Template
    ensures { result ≡ record { first = None; second = None; third = None; last = One item } }
{
    Template {
        last: Items::One(item),
        ..Template::default()
    }
}

// Items before the first, second and third part.
fn before(first: Items, second: Items, third: Items) -> Template
    ensures { result ≡ record { first = first; second = second; third = third; last = None } }
{
    Template {
        first,
        second,
        third,
        ..Template::default()
    }
}

// An item before the one part, and one after it.
fn around(first: Item, last: Item) -> Template
    ensures { result ≡ record
        { first = One first; second = None; third = None; last = One last } }
{
    Template {
        first: Items::One(first),
        last: Items::One(last),
        ..Template::default()
    }
}

// The record with its parts and its template where the fields that it does not use are right; else
// refused with 6 at record `at`.
fn row(
    node: Record,
    parts: Parts,
    template: Template,
    right: bool,
    at: usize,
) -> Result<Described, Refused>
    ensures { described result ≡ value_if right node_field at
        (shaped (record { node = node; parts = parts; template = template })) }
{
    if right {
        return Ok(Described {
            node,
            parts,
            template,
        });
    }
    Err(Refusal::NodeField.at(at))
}

// The one match over the kind number. Each arm has the kind's operands, its parts with what is
// expected and named in each, its template, and whether the fields that it does not use are right.
// (It is long because it is the specification's table of kinds, one arm for each row. Its six
// parameters are the fields of a record as they are read, for one caller: a struct of them would be
// made there, and taken apart here.)
fn record_of(
    kind: u8,
    a: u8,
    b: u16,
    i: u32,
    functions: u8,
    at: usize,
) -> Result<Described, Refused>
    ensures { OfKind functions at kind a b i result }
{
    let ab = zero(a, b, 0);
    let bi = zero(0, b, i);
    let abi = zero(a, b, i);
    match kind {
        0 => row(
            Record::Const(Constant { i }),
            Parts::None,
            last(Item::Push(i)),
            ab,
            at,
        ),
        1 => row(
            Record::Var(NumberName { a }),
            Parts::None,
            last(Item::Get(a)),
            bi,
            at,
        ),
        2 => row(
            Record::Add,
            Parts::Two(Part::Number, Part::Number),
            last(Item::Add),
            abi,
            at,
        ),
        3 => row(
            Record::IfZero,
            Parts::Three(Part::Number, Part::Whole, Part::Whole),
            before(Items::None, Items::One(Item::Ifnot), Items::One(Item::Jump)),
            abi,
            at,
        ),
        4 => row(
            Record::Let,
            Parts::Two(Part::Number, Part::UnderNumber),
            last(Item::End),
            abi,
            at,
        ),
        5 => row(
            Record::Leaf,
            Parts::One(Part::Number),
            around(Item::LeafTag, Item::WriteNumber),
            abi,
            at,
        ),
        6 => row(
            Record::Node,
            Parts::Two(Part::Tree, Part::Tree),
            before(Items::One(Item::NodeTag), Items::None, Items::None),
            abi,
            at,
        ),
        7 => row(
            Record::Case(TreeName { a }),
            Parts::Two(Part::UnderNumber, Part::UnderTrees),
            before(
                Items::Two(Item::ReadTag, Item::ReadNumber),
                Items::Two(Item::End, Item::Jump),
                Items::None,
            ),
            bi,
            at,
        ),
        8 => row(
            Record::Call(Called { a, b }),
            Parts::Arguments(b),
            last(Item::Call(b)),
            callable(b, i, functions),
            at,
        ),
        _ => Err(Refusal::NodeField.at(at)),
    }
}

// The offset of record k, or the end where there is no such record.
fn offset_of(flat: &[u8], k: usize) -> usize
    ensures { StandsAt flat.now k result }
{
    k.saturating_mul(RECORD_BYTES).min(flat.len())
}

// Record k of flat records, read as a node of the program that their header describes. Where the
// record is not there, its fields read as 0.
pub fn record_at(flat: &[u8], k: usize) -> Result<Described, Refused>
    ensures { described result ≡ on_value shape_of (node_in flat.now k) }
{
    let p = offset_of(flat, k);
    let kind = words::read8(flat, p);
    let a = words::read8(flat, p + 1);
    let b = words::read16(flat, p + 2);
    let i = words32::read32(flat, p + 4);
    let functions = signatures::functions_in(flat);
    record_of(kind, a, b, i, functions, k)
}
