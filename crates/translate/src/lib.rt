// The translator: from a program's records to its code, by 01, Templates.
#![tactic(auto)]

ghost use Rattle.std.specs.Prelude.{◌≡◌, ◌+◌, length};
ghost use Rattle.formats.specs.Results.{done, verdict};
ghost use Rattle.refusal.specs.Inner.FilledBuffer.{FilledBuffer};
ghost use Rattle.translation.specs.TranslateAndRun.{checked_records, translate_records, translate_file};
ghost use Rattle.translation.specs.Templates.{words_kept};
ghost use Rattle.records.specs.Inner.Read.{row};
ghost use Rattle.code_scope.specs.Inner.Around.{sort_of};
ghost use Rattle.emit_items.specs.Inner.Operations.{operations_for, put_all};
ghost use Rattle.translate.specs.Inner.Walk.{Small, SmallParts, SmallAddresses, Emits, EmitsParts, Starts, EmitsFunction, EmitsAll};

use block_reader::MOST_BYTES;
use code_scope::Scope;
use emit_items::Emitter;
use header::MOST_FUNCTIONS;
use instruction::{INSTRUCTION_BYTES, Instruction, Opcode};
use records::{Described, Items};
use refusal::{Refusal, Refused};

// How far the code is emitted: the next record, the next address, and the address at which the last
// part begins. Addresses count from the start of the part of the code buffer that is lent.
#[derive(Clone, Copy)]
struct Emitted {
    next: usize,
    at: usize,
    last: usize,
}

// A record that was read, and how many parts it has.
#[derive(Clone, Copy)]
struct Shape {
    read: Described,
    count: usize,
}

// Where the functions begin, and how many instructions they have together.
#[derive(Clone, Copy)]
struct Table {
    entries: [u16; MOST_FUNCTIONS],
    instructions: usize,
}

// What is known on entering the body of function j: its number parameters stand on the frame's
// first words.
#[tactic(auto, using(crate::proofs::Functions::started))]
fn start(flat: &[u8], j: u16) -> Scope
    ensures { Starts flat.now j result }
{
    let parameters = usize::from(signatures::parameters(flat, j));
    Scope {
        words: [0, 1, 2, 3, 4, 5, 6, 7, 8, 9, 10, 11, 12, 13, 14, 15],
        names: parameters,
        standing: parameters,
        tree: signatures::gives_tree(flat, j),
    }
}

// How many words a function's return keeps: a number is kept.
#[tactic(auto, using(crate::proofs::Functions::kept))]
fn words_kept(tree: bool) -> u8
    ensures { result ≡ words_kept (sort_of tree) }
{
    if tree { 0 } else { 1 }
}

// What stays the same while a function is emitted: the program's records, the entries of its
// functions, the address at which the lent part of the code buffer begins, and the record after the
// last one.
#[derive(Clone, Copy)]
struct Emission<'a> {
    flat: &'a [u8],
    entries: &'a [u16],
    base: usize,
    end: usize,
}

impl Emission<'_> {
    // Emits the expression at record k from address `at` of `code` on, which is address base + at
    // of the program; None where a record is missing or refused. Instructions that do not fit are
    // not written; the addresses are reported all the same.
    #[cycle(emitting)]
    #[tactic(auto, using(crate::proofs::Walk::expressions))]
    fn emit(&self, code: &mut [u8], at: usize, k: usize, scope: Scope) -> Option<Emitted>
        requires { Small k self.now.end self.now.base at 0 }
        ensures { Emits self.now.flat.now self.now.entries.now code.old
            code.new self.now.base at k self.now.end scope result }
    {
        if self.end <= k {
            return None;
        }
        let read = records::record_at(self.flat, k).ok()?;
        let shape = Shape {
            read,
            count: nodes::part_count(self.flat, read.parts),
        };
        self.emit_parts(code, at, at, &shape, 0, k + 1, scope)
    }

    // Emits the parts of a record from part i on, the next of them at record k, each after the
    // template's items before it, and after them all the template's last items. The items before a
    // part are emitted after all parts, because only then their addresses are known: so it calls
    // itself, since a loop would have to keep where each part begins.
    #[cycle(emitting)]
    #[tactic(auto, using(crate::proofs::Walk::parts))]
    fn emit_parts(
        &self,
        code: &mut [u8],
        at: usize,
        last: usize,
        shape: &Shape,
        i: usize,
        k: usize,
        scope: Scope,
    ) -> Option<Emitted>
        requires { SmallParts i k self.now.end self.now.base at last }
        ensures { EmitsParts self.now.flat.now self.now.entries.now code.old
            code.new self.now.base at last shape.now i k self.now.end scope
            result }
    {
        if shape.count <= i {
            let items = shape.read.template.last;
            let beyond = at + template::length_of(items);
            self.emit_items(code, at, items, scope, last, beyond);
            return Some(Emitted {
                next: k,
                at: beyond,
                last,
            });
        }
        let items = template::items_before(shape.read.template, i);
        let start = at + template::length_of(items);
        let inner = scope.inside(parts::nth_part(shape.read.parts, i), i);
        let part = self.emit(code, start, k, inner)?;
        let rest = self.emit_parts(code, part.at, start, shape, i + 1, part.next, scope)?;
        self.emit_items(code, at, items, scope, rest.last, rest.at);
        Some(rest)
    }

    // Emits items of a record, whose last part begins at address `last` of `code`, and whose code
    // ends before address `beyond`. It is not put into its caller: there are many frames of that.
    #[inline(never)]
    #[tactic(auto, using(crate::proofs::Walk::addresses))]
    fn emit_items(
        &self,
        code: &mut [u8],
        at: usize,
        items: Items,
        scope: Scope,
        last: usize,
        beyond: usize,
    )
        requires { SmallAddresses self.now.base last beyond }
        ensures { code.new ≡ put_all code.old at (operations_for
            self.now.flat.now self.now.entries.now scope (self.now.base + last)
            (self.now.base + beyond) (row items)) }
    {
        let emitter = Emitter {
            flat: self.flat,
            entries: self.entries,
            scope,
            last: self.base + last,
            beyond: self.base + beyond,
        };
        emitter.emit(code, at, items);
    }

    // Emits function j, its body at record k, at the start of `code`, which is the part of the code
    // buffer that begins at its entry: its body, then return. None where a record of the body is
    // missing or refused.
    #[tactic(auto, using(crate::proofs::Functions::function_ways))]
    fn emit_function(&self, code: &mut [u8], j: u16, k: usize) -> Option<Emitted>
        requires { Small k self.now.end self.now.base 0 1 }
        ensures { EmitsFunction self.now.flat.now self.now.entries.now code.old
            code.new self.now.base j k self.now.end result }
    {
        let scope = start(self.flat, j);
        let body = self.emit(code, 0, k, scope)?;
        let leaves = Instruction {
            byte1: words_kept(scope.tree),
            ..Opcode::Return.alone()
        };
        leaves.write_at(code, body.at);
        Some(Emitted {
            at: body.at + 1,
            ..body
        })
    }
}

// Emits all functions of a program that was checked, with these entries, each in the part of the
// code buffer that begins where the one before it ends; and says where they begin. Where the buffer
// has no room they are only measured.
#[tactic(auto, using(crate::proofs::Loops::emitting_all))]
fn emit_all(flat: &[u8], entries: &[u16], code: &mut [u8]) -> Table
    requires { verdict (checked_records flat.now) ≡ done tt }
    ensures { EmitsAll flat.now entries.now code.old code.new result }
{
    let mut table = Table {
        entries: [0; MOST_FUNCTIONS],
        instructions: 0,
    };
    let end = signatures::nodes_end(flat);
    let mut k = signatures::first_node(flat);
    for j in 0..u16::from(signatures::functions_in(flat)) {
        let entry = table.instructions;
        table.entries[usize::from(j)] = entry as u16;
        let emission = Emission {
            flat,
            entries,
            base: entry,
            end,
        };
        let start = (INSTRUCTION_BYTES * entry).min(code.len());
        // No record of a program that was checked is missing or refused.
        let emitted = emission.emit_function(&mut code[start..], j, k).unwrap();
        table.instructions += emitted.at;
        k = emitted.next;
    }
    table
}

// The code of flat records that are a program which both passes accept, written to the start of a
// lent buffer; or the first refusal: of the rows from header to prefix form, of pass one, of pass
// two, and last 13 where the buffer is too short. A refusal leaves the buffer untouched.
pub fn translate_records(flat: &[u8], code: &mut [u8]) -> Result<usize, Refused>
    ensures { FilledBuffer
        (translate_records (length code.old) flat.now) code.old
        code.new result }
{
    order::check_records(flat)?;
    let table = emit_all(flat, &[], &mut []);
    let bytes = INSTRUCTION_BYTES * table.instructions;
    if code.len() < bytes {
        return Err(Refusal::SpaceTooShort.at(0));
    }
    emit_all(flat, &table.entries, code);
    Ok(bytes)
}

// The same for a program file: the block rows come first.
pub fn translate_file(file: &[u8], code: &mut [u8]) -> Result<usize, Refused>
    ensures { FilledBuffer (translate_file (length code.old) file.now)
        code.old code.new result }
{
    let mut flat = [0u8; MOST_BYTES];
    // `block_reader: from_blocks` says why each of its callers cuts the buffer.
    let bytes = block_reader::from_blocks(file, &mut flat)?;
    translate_records(&flat[..bytes], code)
}
