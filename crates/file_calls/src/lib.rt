// The calls from C and Rust that write and read program files.
#![tactic(auto)]

ghost use Rattle.std.specs.Prelude.{length};
ghost use Rattle.formats.specs.Blocks.{read_into, write_into};
ghost use Rattle.answers.specs.Fills.{Fills};

use refusal::Refusal;

// Flat records, 8 bytes each, to the program file, written to the start of `file`. The refusal's
// number, 0 where it is written; the refusal's position and the bytes written go to the answer's
// first two slots. With fewer slots: 13, and both buffers are untouched.
pub fn pack(flat: &[u8], file: &mut [u8], answer: &mut [u64]) -> u32
    ensures { Fills (write_into (length file.old) flat.now)
        file.old file.new answer.old answer.new result }
{
    if !answers::has_room(answer) {
        return u32::from(Refusal::SpaceTooShort);
    }
    let filled = files::write_file(flat, file);
    answers::report(filled, answer)
}

// A program file to its flat records, 8 bytes each, written to the start of `flat`. The answer is
// that of `pack`.
pub fn unpack(file: &[u8], flat: &mut [u8], answer: &mut [u64]) -> u32
    ensures { Fills (read_into (length flat.old) file.now)
        flat.old flat.new answer.old answer.new result }
{
    if !answers::has_room(answer) {
        return u32::from(Refusal::SpaceTooShort);
    }
    let filled = files::read_file(file, flat);
    answers::report(filled, answer)
}
