// A template's items emitted as instructions.
#![tactic(auto)]

ghost use Rattle.std.specs.Prelude.{[], ◌∷◌, ◌≡◌};
ghost use Rattle.records.specs.Inner.Read.{item_of, row};
ghost use Rattle.instruction.specs.Inner.Opcodes.{fields_in};
ghost use Rattle.emit_items.specs.Inner.Operations.{instruction_for, operations_for, put_all, end_opcode};

use code_scope::Scope;
use instruction::{Instruction, Opcode};
use records::{Item, Items};

// The opcode of "end": slide where a number is expected, drop where a tree is.
fn end_opcode(tree: bool) -> Opcode
    ensures { result ≡ end_opcode tree }
{
    if tree { Opcode::Drop } else { Opcode::Slide }
}

// What items are emitted with: the program's records, the entries of its functions, what is known
// where the items stand, and the addresses that they refer to: where the last part begins, and what
// comes after the whole expression.
#[derive(Clone, Copy)]
pub struct Emitter<'a> {
    pub flat: &'a [u8],
    pub entries: &'a [u16],
    pub scope: Scope,
    pub last: usize,
    pub beyond: usize,
}

impl Emitter<'_> {
    // The instruction of an item.
    #[tactic(auto, using(crate::proofs::Operations::item_ways))]
    fn instruction_of(&self, item: Item) -> Instruction
        ensures { fields_in result ≡ instruction_for self.now.flat.now self.now.entries.now
            self.now.scope self.now.last self.now.beyond (item_of item) }
    {
        match item {
            Item::Push(i) => Instruction {
                number: i,
                ..Opcode::Push.alone()
            },
            Item::Get(a) => Instruction {
                operand: usize::from(self.scope.word_of(a)),
                ..Opcode::Get.alone()
            },
            Item::Add => Opcode::Add.alone(),
            Item::Ifnot => Instruction {
                operand: self.last,
                ..Opcode::Ifnot.alone()
            },
            Item::Jump => Instruction {
                operand: self.beyond,
                ..Opcode::Jump.alone()
            },
            Item::End => end_opcode(self.scope.tree).alone(),
            Item::LeafTag => Opcode::LeafTag.alone(),
            Item::NodeTag => Opcode::NodeTag.alone(),
            Item::WriteNumber => Opcode::WriteNumber.alone(),
            Item::ReadTag => Instruction {
                operand: self.last,
                ..Opcode::ReadTag.alone()
            },
            Item::ReadNumber => Opcode::ReadNumber.alone(),
            Item::Call(b) => Instruction {
                byte1: signatures::parameters(self.flat, b),
                operand: usize::from(template::entry_of(self.entries, b)),
                ..Opcode::Call.alone()
            },
        }
    }

    // Emits one item at an address, or nothing where it does not fit.
    fn emit_one(&self, code: &mut [u8], address: usize, item: Item)
        ensures { code.new ≡ put_all code.old address (operations_for
            self.now.flat.now self.now.entries.now self.now.scope self.now.last self.now.beyond
            (item_of item ∷ [])) }
    {
        self.instruction_of(item).write_at(code, address);
    }

    // Emits items from an address on, each where it fits.
    #[tactic(auto, using(crate::proofs::Operations::items_ways))]
    pub fn emit(&self, code: &mut [u8], address: usize, items: Items)
        ensures { code.new ≡ put_all code.old address (operations_for
            self.now.flat.now self.now.entries.now self.now.scope self.now.last self.now.beyond
            (row items)) }
    {
        // so the address after this one has a number
        if code.len() <= address {
            return;
        }
        match items {
            Items::None => {}
            Items::One(x) => self.emit_one(code, address, x),
            Items::Two(x, y) => {
                self.emit_one(code, address, x);
                self.emit_one(code, address + 1, y);
            }
        }
    }
}
