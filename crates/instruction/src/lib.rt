// An instruction written into a code buffer, 8 bytes: opcode; byte 1; operand in 2–3; number in
// 4–7.
#![tactic(auto)]

ghost use Rattle.std.specs.Prelude.{◌*◌, ◌≡◌};
ghost use Rattle.formats.specs.Records.{record_bytes, fields, bytes_of_record};
ghost use Rattle.formats.specs.Written.{written};
ghost use Rattle.instruction.specs.Inner.Opcodes.{number_of, fields_in};

// The bytes of an instruction.
pub const INSTRUCTION_BYTES: usize = 8;

// The most instructions that code has: from this address on none is performed.
pub const MOST_INSTRUCTIONS: usize = 4128;

// The opcodes of 01, Opcodes, in the order of their numbers.
#[derive(Clone, Copy, Debug, PartialEq, Eq)]
pub enum Opcode {
    Push,
    Get,
    Add,
    Ifnot,
    Jump,
    Slide,
    Drop,
    LeafTag,
    NodeTag,
    WriteNumber,
    ReadTag,
    ReadNumber,
    Call,
    Return,
}

// The number of an opcode: 0 to 13.
impl From<Opcode> for u8 {
    ghost from_gives = { λ opcode n. n ≡ number_of opcode };

    fn from(opcode: Opcode) -> u8 {
        opcode as u8
    }
}

// The fields of an instruction.
#[derive(Clone, Copy, Debug, PartialEq, Eq)]
pub struct Instruction {
    pub opcode: Opcode,
    pub byte1: u8,
    pub operand: usize,
    pub number: u32,
}

impl Opcode {
    // The instruction of this opcode with no operand. Unused fields are zero.
    pub fn alone(self) -> Instruction
        ensures { result ≡ record
            { opcode = self; byte1 = 0; operand = 0; number = 0 } }
    {
        Instruction {
            opcode: self,
            byte1: 0,
            operand: 0,
            number: 0,
        }
    }
}

// Writes an instruction at an address, or nothing where the buffer has no 8 bytes there. (An offset
// that has no number of 64 bits is past every buffer's end, as the largest number is.) Any byte is
// written as the opcode. Of the operand the low 16 bits are written: a cast may lose none, so it is
// cut before it.
pub fn write_instruction(
    code: &mut [u8],
    address: usize,
    opcode: u8,
    byte1: u8,
    operand: usize,
    number: u32,
)
    ensures { code.new ≡ written code.old (record_bytes * address)
        (bytes_of_record (fields opcode byte1 operand number)) }
{
    let [o0, o1] = ((operand % 65536) as u16).to_le_bytes();
    let [n0, n1, n2, n3] = number.to_le_bytes();
    let bytes = [opcode, byte1, o0, o1, n0, n1, n2, n3];
    writing::write_bytes(code, INSTRUCTION_BYTES.saturating_mul(address), &bytes);
}

impl Instruction {
    // Writes this instruction at an address, as `write_instruction` does.
    pub fn write_at(self, code: &mut [u8], address: usize)
        ensures { code.new ≡ written code.old (record_bytes * address)
            (bytes_of_record (fields_in self)) }
    {
        let opcode = u8::from(self.opcode);
        write_instruction(code, address, opcode, self.byte1, self.operand, self.number);
    }
}
