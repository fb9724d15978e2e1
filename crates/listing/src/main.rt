// Reads a program file from standard input and prints its code listing, or the refusal. The text is
// one proved function of the bytes that it is lent: `put_listing`.
#![tactic(auto)]

ghost use Rattle.std.specs.Prelude.{◌+◌, ◌*◌, ◌≤◌, ◌<◌, ◌≡◌, length, take};
ghost use Rattle.std.specs.Io.KnownBytes.{Consumes};
ghost use Rattle.formats.specs.Records.{record_at};
ghost use Rattle.formats.specs.Results.{done};
ghost use Rattle.translation.specs.Listing.{line_of, lines_from, refused_listing, instructions_in, listing_of, listing};
ghost use Rattle.translation.specs.ListingText.{field, signed_field, line_text, lines_text, text};
ghost use Rattle.listing.specs.PrintedText.{longest_line, most_text, Puts};
ghost use Rattle.listing.specs.Inner.Shown.{most_code, shown};

use instruction::{INSTRUCTION_BYTES, MOST_INSTRUCTIONS};
use itoa::Buffer;
use std::io::{Read, Write};

// A file has at most 17 blocks of 512 bytes; one byte more shows that it is too long.
const INPUT_BYTES: usize = 17 * 512 + 1;

// Room for the code of every program.
const CODE_BYTES: usize = INSTRUCTION_BYTES * MOST_INSTRUCTIONS;

// Room for a heading of 10 bytes and the lines, of at most 31 bytes each.
const TEXT_BYTES: usize = 10 + 31 * MOST_INSTRUCTIONS;

// A line of the listing.
#[derive(Drop)]
struct Line {
    address: usize,
    opcode: u8,
    byte1: u8,
    operand: u16,
    number: i32,
}

// The line of instruction k.
fn line_at(code: &[u8], k: usize) -> Line
    requires { k < instructions_in code.now }
    ensures { shown result ≡ line_of k (record_at code.now k) }
{
    let p = INSTRUCTION_BYTES * k;
    let opcode = words::read8(code, p);
    let byte1 = words::read8(code, p + 1);
    let operand = words::read16(code, p + 2);
    let number = numbers::signed(words32::read32(code, p + 4));
    Line {
        address: k,
        opcode,
        byte1,
        operand,
        number,
    }
}

// The text as far as it is put: its bytes from the start on, and how many they are. `Puts` promises
// that the bytes after these stay, and of the library's `InlineText` no clause says that. (That
// there are no more of them than bytes is no field's fact: each method needs room besides, and how
// much differs by what it puts, so one clause of each says both.)
#[derive(Drop)]
struct Text {
    bytes: [u8; TEXT_BYTES],
    len: usize,
}

impl Text {
    // What is put.
    fn as_bytes(&self) -> &[u8]
        requires { self.now.len ≤ length self.now.bytes }
        ensures { result.now ≡ take self.now.len self.now.bytes }
    {
        &self.bytes[..self.len]
    }

    // Puts a word after what is there, as all that follow do.
    fn put_word(&mut self, word: &[u8])
        requires { self.old.len + length word.now ≤ length self.old.bytes }
        ensures { Puts self.old.bytes self.new.bytes self.old.len word.now self.new.len }
    {
        writing::write_bytes(&mut self.bytes, self.len, word);
        self.len += word.len();
    }

    // Puts a number in decimal, and the character after it. (Not by `write!`: its contract says
    // nothing where it answers `Err`, nor that it answers `Ok` where there is room. Tried with an
    // `InlineText`: the goal that the digits are put stays open.)
    fn put_field(&mut self, n: usize, after: u8)
        requires { self.old.len + length (field n after) ≤ length self.old.bytes }
        ensures { Puts self.old.bytes self.new.bytes self.old.len (field n after) self.new.len }
    {
        self.put_word(Buffer::new().format(n).as_bytes());
        self.put_word(&[after]);
    }

    // Puts a number with its sign, and a newline. (One method for all types of `itoa::Integer` was
    // tried: no fact at its calls in `put_line` says that a line's numbers fit their types, and the
    // library's `decimal` is the definition's only of numbers that do.)
    fn put_signed(&mut self, n: i32)
        requires { self.old.len + length (signed_field n) ≤ length self.old.bytes }
        ensures { Puts self.old.bytes self.new.bytes self.old.len (signed_field n) self.new.len }
    {
        self.put_word(Buffer::new().format(n).as_bytes());
        self.put_word(b"\n");
    }

    // Puts a line.
    fn put_line(&mut self, l: Line)
        requires { self.old.len + length (line_text (shown l)) ≤ length self.old.bytes }
        ensures { Puts self.old.bytes self.new.bytes self.old.len
            (line_text (shown l)) self.new.len }
    {
        self.put_field(l.address, b' ');
        self.put_field(usize::from(l.opcode), b' ');
        self.put_field(usize::from(l.byte1), b' ');
        self.put_field(usize::from(l.operand), b' ');
        self.put_signed(l.number);
    }

    // Puts the lines of code.
    fn put_lines(&mut self, code: &[u8])
        requires { (length code.now ≤ most_code) ×
            (self.old.len + longest_line * instructions_in code.now ≤ length self.old.bytes) }
        ensures { Puts self.old.bytes self.new.bytes self.old.len
            (lines_text (lines_from code.now (instructions_in code.now) 0)) self.new.len }
    {
        for k in 0..code.len() / INSTRUCTION_BYTES {
            self.put_line(line_at(code, k));
        }
    }

    // Puts the one line of a refusal.
    fn put_refusal(&mut self, number: usize, position: usize)
        requires { self.old.len + most_text ≤ length self.old.bytes }
        ensures { Puts self.old.bytes self.new.bytes self.old.len
            (text (refused_listing number position)) self.new.len }
    {
        self.put_word(b"refused ");
        self.put_field(number, b' ');
        self.put_field(position, b'\n');
    }

    // Puts the listing of code: the heading, and the lines.
    fn put_code(&mut self, code: &[u8])
        requires { (self.old.len + most_text ≤ length self.old.bytes) ×
            (length code.now ≤ most_code) }
        ensures { Puts self.old.bytes self.new.bytes self.old.len
            (text (listing_of (done code.now))) self.new.len }
    {
        self.put_word(b"code ");
        self.put_field(code.len() / INSTRUCTION_BYTES, b'\n');
        self.put_lines(code);
    }

    // Puts the listing of a program file.
    fn put_listing(&mut self, file: &[u8])
        requires { self.old.len + most_text ≤ length self.old.bytes }
        ensures { Puts self.old.bytes self.new.bytes self.old.len
            (text (listing file.now)) self.new.len }
    {
        let mut code = [0u8; CODE_BYTES];
        match translate::translate_file(file, &mut code) {
            Ok(bytes) => self.put_code(&code[..bytes]),
            Err(refused) => self.put_refusal(u32::from(refused.why) as usize, refused.position),
        }
    }
}

// Reads until the buffer is full, the input ends or a read fails, and answers how many bytes it put
// at the start of the buffer. A failed read is taken for the end of the input. (The library's
// `read_exact` says nothing of an input that is shorter, and `read_to_end` needs a heap.)
fn read_full<R: Read>(input: &mut R, buffer: &mut [u8]) -> usize
    ensures inside { result ≤ length buffer.new }
    ensures count { result ≡ length (take result buffer.new) }
    ensures bytes { Consumes (R.remaining input.old) (R.remaining input.new)
        (take result buffer.new) }
{
    let mut done = 0;
    while done < buffer.len() {
        match input.read(&mut buffer[done..]) {
            Ok(0) => break,
            Ok(n) => done += n,
            Err(_) => break,
        }
    }
    done
}

fn main(rt: HostRuntime) {
    let mut file = [0u8; INPUT_BYTES];
    let bytes = read_full(&mut rt.stdin(), &mut file);
    let mut text = Text {
        bytes: [0u8; TEXT_BYTES],
        len: 0,
    };
    text.put_listing(&file[..bytes]);
    // A failed write is not told: there is nowhere to tell it.
    let _ = rt.stdout().write_all(text.as_bytes());
}
