// 01, Pass two, over flat records, 8 bytes each: the order in which a program visits its trees.
#![tactic(auto)]

ghost use Rattle.std.specs.Prelude.{◌+◌, ◌≡◌};
ghost use Rattle.formats.specs.Results.{done, verdict};
ghost use Rattle.formats.specs.Rows.{read_program};
ghost use Rattle.refusal.specs.Inner.Verdicts.{verdict_result};
ghost use Rattle.rules.specs.PassTwo.{check_records};
ghost use Rattle.pass_two.specs.Inner.Walk.{Small, Joined, Ordered, OrderedCall, OrderedCase, OrderedIf, OrderedList, OrderedFunction, PassSays};

use pending::Pending;
use records::{Described, Record};
use refusal::{Refusal, Refused};

// How far a check came: the trees then pending, and the record after what was checked.
#[derive(Clone, Copy)]
struct Checked {
    pending: Pending,
    next: usize,
}

// Both branches of the Case or IfZero at record k are finished: they must have left the same trees.
#[tactic(auto, using(crate::proofs::Branches::joins))]
fn joined(one: Pending, other: Checked, k: usize) -> Result<Checked, Refused>
    ensures { Joined one other k result }
{
    if one.is_same(other.pending) {
        return Ok(other);
    }
    Err(Refusal::OutOfOrder.at(k))
}

// What stays the same while a program is walked over: its flat records, and the record after the
// last node. (`pass_one` has the like: the methods of a struct stand in its crate.)
#[derive(Clone, Copy)]
struct Walk<'a> {
    flat: &'a [u8],
    end: usize,
}

impl Walk<'_> {
    // Pass two over the expression at record k, where so many tree names are bound. The measure:
    // three times the records left up to the end, with one more for an expression and two more for
    // a list, falls at each call. The number of names and the trees pending are two parameters: a
    // struct of both would be taken apart and put together again at each call. `Small` stands in
    // each clause below, since the record and the number of names differ at each call; a ghost
    // field of `Walk` could say one of its three parts alone, that `end` is small.
    #[cycle(ordering)]
    fn order_at(&self, k: usize, trees: u16, pending: Pending) -> Result<Checked, Refused>
        requires { Small k self.now.end trees }
        ensures { Ordered self.now.flat.now k self.now.end trees pending result }
    {
        if self.end <= k {
            return Err(Refusal::PrefixForm.at(k));
        }
        let Described { node, parts, .. } = records::record_at(self.flat, k)?;
        let count = nodes::part_count(self.flat, parts);
        match node {
            Record::IfZero => self.order_if(k, trees, pending),
            Record::Case(t) => self.order_case(t.a, k, trees, pending),
            Record::Call(c) => self.order_call(c.a, count, k, trees, pending),
            _ => self.order_list(count, k + 1, trees, pending),
        }
    }

    // Pass two over the Call at record k, which takes the head after its arguments.
    #[cycle(ordering)]
    fn order_call(
        &self,
        a: u8,
        count: usize,
        k: usize,
        trees: u16,
        pending: Pending,
    ) -> Result<Checked, Refused>
        requires { Small (k + 1) self.now.end trees }
        ensures { OrderedCall self.now.flat.now a count k self.now.end trees
            pending result }
    {
        let after = self.order_list(count, k + 1, trees, pending)?;
        let rest = after.pending.take_head(a).ok_or(Refusal::OutOfOrder.at(k))?;
        Ok(Checked {
            pending: rest,
            ..after
        })
    }

    // Pass two over so many arguments, or parts, the first of them at record k: one after the
    // other.
    #[cycle(ordering)]
    #[tactic(auto, using(crate::proofs::Expressions::lists))]
    fn order_list(
        &self,
        count: usize,
        k: usize,
        trees: u16,
        pending: Pending,
    ) -> Result<Checked, Refused>
        requires { Small k self.now.end trees }
        ensures { OrderedList self.now.flat.now count k self.now.end trees
            pending result }
    {
        let mut after = Checked { pending, next: k };
        for _i in 0..count {
            after = self.order_at(after.next, trees, after.pending)?;
        }
        Ok(after)
    }

    // Pass two over the Case at record k, which takes the head. Its leaf part begins with the other
    // trees; its node part with its two names in front of them. It is not put into its caller,
    // whose frame each of many nested Calls needs.
    #[cycle(ordering)]
    #[inline(never)]
    fn order_case(&self, a: u8, k: usize, trees: u16, pending: Pending) -> Result<Checked, Refused>
        requires { Small (k + 1) self.now.end trees }
        ensures { OrderedCase self.now.flat.now a k self.now.end trees
            pending result }
    {
        let rest = pending.take_head(a).ok_or(Refusal::OutOfOrder.at(k))?;
        if pending.is_full() {
            return Err(Refusal::TooManyPending.at(k));
        }
        let leaf = self.order_at(k + 1, trees, rest)?;
        let inner = rest.put_two(trees, trees + 1);
        let node = self.order_at(leaf.next, trees + 2, inner)?;
        joined(leaf.pending, node, k)
    }

    // Pass two over the IfZero at record k. Both its parts begin with the trees that its test left.
    // It is not put into its caller, as above.
    #[cycle(ordering)]
    #[inline(never)]
    fn order_if(&self, k: usize, trees: u16, pending: Pending) -> Result<Checked, Refused>
        requires { Small (k + 1) self.now.end trees }
        ensures { OrderedIf self.now.flat.now k self.now.end trees pending result }
    {
        let test = self.order_at(k + 1, trees, pending)?;
        let zero = self.order_at(test.next, trees, test.pending)?;
        let other = self.order_at(zero.next, trees, test.pending)?;
        joined(zero.pending, other, k)
    }

    // Pass two over a function, its body at record k. At first its parameter alone is pending, at
    // the end no tree.
    fn order_function(&self, k: usize) -> Result<Checked, Refused>
        requires { Small k self.now.end 1 }
        ensures { OrderedFunction self.now.flat.now k self.now.end result }
    {
        let body = self.order_at(k, 1, Pending::parameter_alone())?;
        if body.pending.len != 0 {
            return Err(Refusal::OutOfOrder.at(k));
        }
        Ok(body)
    }
}

// The row "pass two": one function after the other. It is not put into its caller, as pass one's
// `pass` is not.
#[inline(never)]
fn pass(flat: &[u8]) -> Result<(), Refused>
    requires { verdict (read_program flat.now) ≡ done tt }
    ensures { PassSays flat.now result }
{
    let functions = signatures::functions_in(flat);
    let walk = Walk {
        flat,
        end: signatures::nodes_end(flat),
    };
    let mut k = signatures::first_node(flat);
    for _j in 0..functions {
        k = walk.order_function(k)?.next;
    }
    Ok(())
}

// The rows header to prefix form, pass one, then pass two.
#[tactic(auto, using(crate::proofs::Rows::orders))]
pub fn check_all_rows(flat: &[u8]) -> Result<(), Refused>
    ensures { verdict_result result ≡ check_records flat.now }
{
    pass_one::check_pass_one(flat)?;
    pass(flat)
}
