// The first half of a row of a program's record, for the source run: what the record's kind and its
// operands say.
#![tactic(auto)]

ghost use Rattle.std.specs.Prelude.{◌%◌, ◌≡◌};
ghost use Rattle.records.specs.Inner.Read.{meant};
ghost use Rattle.stepwise.specs.Inner.Rows.{naming_code};
ghost use Rattle.record_rows.specs.Inner.Halves.{first_in, own_in};

use frames::Action;
use records::Record;

// The first half of a row: what the record's kind and its operands say.
#[derive(Clone, Copy, Debug, PartialEq, Eq)]
pub struct Own {
    pub action: Action,
    pub operand: u16,
    pub tree: u16,
    pub more: u16,
}

// The first record of function b: after the header, the function records, and the nodes of the
// functions before it.
#[tactic(auto, using(crate::proofs::Halves::first_is))]
fn first_record(flat: &[u8], b: u16) -> usize
    ensures { result ≡ first_in flat.now b }
{
    signatures::first_node(flat) + functions::count_sum(flat, b)
}

// The code that a row has instead of tree name a, inside these Cases.
#[tactic(auto, using(crate::proofs::Halves::codes))]
fn code_of(cases: &[u16], a: u8) -> u16
    ensures { result ≡ naming_code cases.now a % 65536 }
{
    if a == 0 {
        return 0;
    }
    let j = usize::from(a) - 1;
    let looked_at = usize::from(cases.get(j / 2).copied().unwrap_or(0));
    ((1 + (2 * looked_at + j % 2)) % 65536) as u16
}

// The first half of a record's row. At the record `names` numbers are named, and it stands in node
// parts of the Cases whose records are `cases`, the outermost first. (A cast to 16 bits may lose
// none, so a number is cut before it.)
#[tactic(auto, using(crate::proofs::Halves::owned))]
pub fn own_of(flat: &[u8], cases: &[u16], node: Record, names: usize) -> Own
    ensures { result ≡ own_in flat.now cases.now names (meant node) }
{
    let enters = Own {
        action: Action::EntersPart,
        operand: 0,
        tree: 0,
        more: 0,
    };
    match node {
        // Both halves, by division: the library has no method that gives them.
        Record::Const(c) => Own {
            action: Action::GivesConstant,
            operand: (c.i % 65536) as u16,
            more: (c.i / 65536) as u16,
            ..enters
        },
        Record::Var(v) => Own {
            action: Action::GivesNamed,
            operand: u16::from(v.a),
            ..enters
        },
        Record::Add | Record::IfZero | Record::Let | Record::Leaf => enters,
        Record::Node => Own {
            action: Action::TagsNode,
            ..enters
        },
        Record::Case(t) => Own {
            action: Action::LooksAtTree,
            operand: (names % 65536) as u16,
            tree: code_of(cases, t.a),
            more: 0,
        },
        Record::Call(c) => Own {
            action: Action::CallsFunction,
            operand: (first_record(flat, c.b) % 65536) as u16,
            tree: code_of(cases, c.a),
            more: u16::from(signatures::parameters(flat, c.b)),
        },
    }
}
