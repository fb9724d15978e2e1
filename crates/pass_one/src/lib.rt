// 01, Pass one, over flat records, 8 bytes each. At each record, in prefix order, it tests that the
// name is bound, then the type, then the words.
#![tactic(auto)]

ghost use Rattle.std.specs.Prelude.{◌≡◌};
ghost use Rattle.formats.specs.Results.{done, verdict};
ghost use Rattle.formats.specs.Rows.{read_program};
ghost use Rattle.records.specs.Inner.Read.{meant, part_of};
ghost use Rattle.refusal.specs.Inner.Verdicts.{verdict_result};
ghost use Rattle.rules.specs.Scopes.{part_scope};
ghost use Rattle.rules.specs.PassOne.{name_bound};
ghost use Rattle.rules.specs.Inner.Checks.{check_one};
ghost use Rattle.pass_one.specs.Inner.Walk.{scope_of, RoomFor, Fits, Typed, Bare, WordTested, Roomy, Tested, Entered, Starts, PassSays};

use records::{Described, Part, Record};
use refusal::{Refusal, Refused};

// The most words above the frame's base.
const MOST_WORDS: usize = 16;

// What is known on entering a record: number names and tree names bound, words above the frame's
// base, and whether a tree is expected. (The Scope of `code_scope` is another: it has the words
// that the names stand on, and no tree names.)
#[derive(Clone, Copy)]
struct Scope {
    numbers: usize,
    trees: usize,
    words: usize,
    tree: bool,
}

impl Scope {
    // What is known on entering the body of function j.
    #[tactic(auto, using(crate::proofs::Functions::started))]
    fn start(flat: &[u8], j: u16) -> Scope
        ensures { Starts flat.now j result }
    {
        let numbers = usize::from(signatures::parameters(flat, j));
        Scope {
            numbers,
            trees: 1,
            words: numbers,
            tree: signatures::gives_tree(flat, j),
        }
    }

    // What is known on entering part i of a record, by what the part is.
    #[tactic(auto, using(crate::proofs::PartScopes::part_scopes))]
    fn inside(self, part: Part, i: usize) -> Scope
        requires { RoomFor i (scope_of self) }
        ensures { scope_of result ≡ part_scope (part_of part) i (scope_of self) }
    {
        match part {
            Part::Number => Scope {
                words: self.words + i,
                tree: false,
                ..self
            },
            Part::Tree => Scope { tree: true, ..self },
            Part::Whole => self,
            Part::UnderNumber => Scope {
                numbers: self.numbers + 1,
                words: self.words + 1,
                ..self
            },
            Part::UnderTrees => Scope {
                trees: self.trees + 2,
                ..self
            },
        }
    }
}

// Whether the record's name is bound.
#[tactic(auto, using(crate::proofs::Entries::names))]
fn is_named(node: Record, scope: Scope) -> bool
    ensures { result ≡ name_bound (scope_of scope) (meant node) }
{
    match node {
        Record::Var(v) => usize::from(v.a) < scope.numbers,
        Record::Case(t) => usize::from(t.a) < scope.trees,
        Record::Call(c) => usize::from(c.a) < scope.trees,
        _ => true,
    }
}

// Whether the record has the type expected.
#[tactic(auto, using(crate::proofs::Entries::typings))]
fn is_typed(flat: &[u8], node: Record, scope: Scope) -> bool
    ensures { Typed flat.now scope node result }
{
    match node {
        Record::Const(_) | Record::Var(_) | Record::Add => !scope.tree,
        Record::Leaf | Record::Node => scope.tree,
        Record::Call(c) => scope.tree == signatures::gives_tree(flat, c.b),
        Record::IfZero | Record::Let | Record::Case(_) => true,
    }
}

// Whether this function gives a number and has no number parameters.
#[tactic(auto, using(crate::proofs::Entries::bare))]
fn is_bare_number(flat: &[u8], b: u16) -> bool
    ensures { Bare flat.now b result }
{
    !signatures::gives_tree(flat, b) && signatures::parameters(flat, b) == 0
}

// Whether it is tested that there is room for the record's word.
#[tactic(auto, using(crate::proofs::Entries::words))]
fn is_word_tested(flat: &[u8], node: Record) -> bool
    ensures { WordTested flat.now node result }
{
    match node {
        Record::Const(_) | Record::Var(_) | Record::Case(_) => true,
        Record::Call(c) => is_bare_number(flat, c.b),
        _ => false,
    }
}

// Whether there is room for the record's word, where that is tested.
#[tactic(auto, using(crate::proofs::Entries::roomy))]
fn is_roomy(flat: &[u8], node: Record, scope: Scope) -> bool
    ensures { Roomy flat.now scope node result }
{
    !is_word_tested(flat, node) || scope.words < MOST_WORDS
}

// A record's own tests: name bound, then type, then words.
#[tactic(auto, using(crate::proofs::Entries::conditions))]
fn tests(flat: &[u8], node: Record, scope: Scope, k: usize) -> Result<(), Refused>
    ensures { Tested flat.now scope k node result }
{
    if !is_named(node, scope) {
        return Err(Refusal::NotBound.at(k));
    }
    if !is_typed(flat, node, scope) {
        return Err(Refusal::WrongType.at(k));
    }
    if is_roomy(flat, node, scope) {
        return Ok(());
    }
    Err(Refusal::TooManyWords.at(k))
}

// What stays the same while a program is walked over: its flat records, and the record after the
// last node.
#[derive(Clone, Copy)]
struct Walk<'a> {
    flat: &'a [u8],
    end: usize,
}

impl Walk<'_> {
    // Pass one over the expression at record k, entered with this scope: its own tests, then its
    // parts in order. The measure, the records left up to the end, falls at each call.
    #[tactic(auto, using(crate::proofs::Expressions::entering))]
    fn enter(&self, k: usize, scope: Scope) -> Result<usize, Refused>
        requires { Fits k self.now.end (scope_of scope) }
        ensures { Entered self.now.flat.now k self.now.end scope result }
    {
        if self.end <= k {
            return Err(Refusal::PrefixForm.at(k));
        }
        let Described { node, parts, .. } = records::record_at(self.flat, k)?;
        tests(self.flat, node, scope, k)?;
        let count = nodes::part_count(self.flat, parts);
        let mut next = k + 1;
        for i in 0..count {
            let inner = scope.inside(parts::nth_part(parts, i), i);
            next = self.enter(next, inner)?;
        }
        Ok(next)
    }
}

// The row "pass one". It is not put into its caller, so that a program which the rows before
// refuse does not pay for the walk's frame.
#[tactic(auto, using(crate::proofs::Functions::walking))]
#[inline(never)]
fn pass(flat: &[u8]) -> Result<(), Refused>
    requires { verdict (read_program flat.now) ≡ done tt }
    ensures { PassSays flat.now result }
{
    let functions = u16::from(signatures::functions_in(flat));
    let walk = Walk {
        flat,
        end: signatures::nodes_end(flat),
    };
    let mut k = signatures::first_node(flat);
    for j in 0..functions {
        k = walk.enter(k, Scope::start(flat, j))?;
    }
    Ok(())
}

// The rows header to prefix form, then pass one.
#[tactic(auto, using(crate::proofs::Functions::checked))]
pub fn check_pass_one(flat: &[u8]) -> Result<(), Refused>
    ensures { verdict_result result ≡ check_one flat.now }
{
    program::check_records(flat)?;
    pass(flat)
}
