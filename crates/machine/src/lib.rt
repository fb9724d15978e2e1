// The stream run: instruction after instruction, over any code buffer (`perform`), and over the
// code of a checked program (`run_checked`). That code is never refused with 19, so its loop makes
// no test for it: not whether an address holds an instruction, whether an opcode is above 13 or a
// return byte above 1, whether words are missing or surplus. What performs an opcode is written
// once for both loops, and TESTED says whether it makes those tests.
#![tactic(auto)]

ghost use Rattle.std.specs.Prelude.{◌+◌, ◌*◌, ◌≤◌, ◌<◌, ◌≡◌, ◌-◌, ◌↔◌, false, [], length, slice_index, IsTrue};
ghost use Rattle.formats.specs.Records.{record_at};
ghost use Rattle.meaning.specs.Instructions.{instruction_bytes, Push, Get, Add, Ifnot, Slide, Drop, WriteNumber, ReadTag, ReadNumber, Call, Return};
ghost use Rattle.meaning.specs.Running.{value_words, return_words, stream_run};
ghost use Rattle.machine_state.specs.Inner.States.{Sound, Going, Lent, limit_of, next_to, left};
ghost use Rattle.operations.specs.Inner.Effects.{OnNumbers, OnValues, WritesTag, OnOutput, FromInput, OnInput, OnReturns, FromReturns, Steps};
ghost use Rattle.operations.specs.Inner.Checked.{NeverCannot, Able, Words, Room, ReturnByte, Turns};
ghost use Rattle.meaning.specs.CannotPerform.{last_opcode};
ghost use Rattle.machine_state.specs.Inner.Answers.{Performed};

use instruction::{INSTRUCTION_BYTES, MOST_INSTRUCTIONS};
use machine_state::{Answer, Machine, RETURN_WORDS, Stop, VALUE_WORDS};
use refusal::Refusal;
use tree::{LABEL_BYTES, LEAF_TAG, NODE_TAG};

// One return place is never used, since the first frame has none.
const MOST_SAVED: usize = 2046;

// Where in the bytes of an instruction its operand and its number begin.
const OPERAND: usize = 2;

const NUMBER: usize = 4;

// A run begins with no words, at address 0.
const START: Machine = Machine {
    stop: Stop::GoesOn,
    address: 0,
    top: 0,
    base: 0,
    saved: 0,
    read: 0,
    written: 0,
};

// Code that is never refused with 19, whatever it reads and however long its output is.
#[derive(Clone, Copy)]
pub struct CheckedCode<'a> {
    pub code: &'a [u8],
    pub ghost never_19: { NeverCannot code.now },
}

// The bytes of the instruction at an address that holds one.
#[tactic(auto, using(operations::proofs::Fields::record_fetched))]
fn fetch(code: &[u8], address: usize) -> &[u8; INSTRUCTION_BYTES]
    requires { instruction_bytes * address + instruction_bytes ≤ length code.now }
    ensures { record_at result.now 0 ≡ record_at code.now address }
{
    let (instructions, _) = code.as_chunks::<INSTRUCTION_BYTES>();
    &instructions[address]
}

// Each function below asks what its own step needs of the machine and of the lent words, in clauses
// of its own. Most ask `Sound s`: as a ghost field of a type that holds the machine it would be
// said once, but `hogvax_perform` then took 6 % more machine instructions on Grow, 13 % on Sum.
// `Words` and `Room` stand in clauses, too: each opcode asks for a number of words of its own, and
// only the loop of checked code needs them. And each function is lent the buffers that it uses one
// by one, and no struct of all: it can change no other, so no clause need say that the rest stays.
// (Nine are answered in `proofs`: with the laws named on the function the search among the kit's
// own rules besides stopped at its limits.)

// The machine at the next address, with its frame's words up to `top`.
fn next(s: Machine, top: usize) -> Machine
    requires { Sound s }
    ensures { result ≡ next_to top s }
{
    Machine {
        address: s.address + 1,
        top,
        ..s
    }
}

// The three tests for 19 within an instruction, which only the loop of any code makes: they fail in
// the code of a checked program.

// Whether fewer words stand above the frame's base.
fn lacks<const TESTED: bool>(s: Machine, words: usize) -> bool
    requires sound { Sound s }
    requires words { TESTED ≡ false → Words words s }
    ensures { IsTrue result ↔ (s.top - s.base < words) }
{
    TESTED && s.top - s.base < words
}

// Whether there is no room for a word more.
fn is_full<const TESTED: bool>(s: Machine) -> bool
    requires { TESTED ≡ false → Room s }
    ensures { IsTrue result ↔ (value_words ≤ s.top) }
{
    TESTED && VALUE_WORDS <= s.top
}

// Whether a return is to keep more than one word.
fn keeps_more<const TESTED: bool>(kept: u8) -> bool
    requires { TESTED ≡ false → ReturnByte kept }
    ensures { IsTrue result ↔ (1 < kept) }
{
    TESTED && 1 < kept
}

// A word is put on top of the frame's words, where there is room.
#[tactic(auto, using(operations::proofs::StackLaws::pushes))]
fn put(s: Machine, word: u32, values: &mut [u32; VALUE_WORDS]) -> Machine
    requires sound { Sound s }
    requires room { Room s }
    ensures { OnValues (Push word) values.old values.new s result }
{
    values[s.top] = word;
    next(s, s.top + 1)
}

// 0 push: a number is the new top word.
#[tactic(auto, using(operations::proofs::CheckedLaws::to_push))]
fn push<const TESTED: bool>(s: Machine, number: u32, values: &mut [u32; VALUE_WORDS]) -> Machine
    requires sound { Sound s }
    requires room { TESTED ≡ false → Room s }
    ensures { OnValues (Push number) values.old values.new s result }
{
    if is_full::<TESTED>(s) {
        return s.refused(Refusal::CannotPerform);
    }
    put(s, number, values)
}

// 1 get: pushes the word that stands k above the base.
fn get<const TESTED: bool>(s: Machine, k: u16, values: &mut [u32; VALUE_WORDS]) -> Machine
    requires sound { Sound s }
    requires room { TESTED ≡ false → Room s }
    requires words { TESTED ≡ false → Words (k + 1) s }
    ensures { OnValues (Get k) values.old values.new s result }
{
    // by `usize::from` no proof was found: the laws are about `k` itself
    let k = k as usize;
    if lacks::<TESTED>(s, k + 1) {
        return s.refused(Refusal::CannotPerform);
    }
    if is_full::<TESTED>(s) {
        return s.refused(Refusal::CannotPerform);
    }
    put(s, values[s.base + k], values)
}

// 2 add: replaces the two top words by their sum, if it is in range.
fn add<const TESTED: bool>(s: Machine, values: &mut [u32; VALUE_WORDS]) -> Machine
    requires sound { Sound s }
    requires words { TESTED ≡ false → Words 2 s }
    ensures { OnValues Add values.old values.new s result }
{
    if lacks::<TESTED>(s, 2) {
        return s.refused(Refusal::CannotPerform);
    }
    let top = s.top;
    match numbers::sum_of(values[top - 2], values[top - 1]) {
        Some(word) => {
            values[top - 2] = word;
            next(s, top - 1)
        }
        None => s.refused(Refusal::OutOfRange),
    }
}

// 3 ifnot: takes the top word, and goes to the address if the word is not 0.
fn ifnot<const TESTED: bool>(s: Machine, address: u16, values: &[u32; VALUE_WORDS]) -> Machine
    requires sound { Sound s }
    requires words { TESTED ≡ false → Words 1 s }
    ensures { OnValues (Ifnot address) values.now values.now s result }
{
    if lacks::<TESTED>(s, 1) {
        return s.refused(Refusal::CannotPerform);
    }
    let top = s.top - 1;
    if values[top] != 0 {
        next(s, top).jump(address)
    } else {
        next(s, top)
    }
}

// 5 slide: removes the word under the top.
fn slide<const TESTED: bool>(s: Machine, values: &mut [u32; VALUE_WORDS]) -> Machine
    requires sound { Sound s }
    requires words { TESTED ≡ false → Words 2 s }
    ensures { OnValues Slide values.old values.new s result }
{
    if lacks::<TESTED>(s, 2) {
        return s.refused(Refusal::CannotPerform);
    }
    let top = s.top;
    values[top - 2] = values[top - 1];
    next(s, top - 1)
}

// 6 drop: removes the top word.
fn drop<const TESTED: bool>(s: Machine) -> Machine
    requires sound { Sound s }
    requires words { TESTED ≡ false → Words 1 s }
    ensures { OnNumbers Drop s result }
{
    if lacks::<TESTED>(s, 1) {
        return s.refused(Refusal::CannotPerform);
    }
    next(s, s.top - 1)
}

// 7 leaf tag and 8 node tag: writes the tag.
#[tactic(auto, using(operations::proofs::StreamLaws::tags))]
fn write_tag(s: Machine, tag: u8, output: &mut [u8]) -> Machine
    requires { Sound s }
    ensures { WritesTag tag output.old output.new s result }
{
    let written = s.written;
    if output.len() <= written {
        return s.refused(Refusal::OutputFull);
    }
    output[written] = tag;
    Machine {
        written: written + 1,
        ..next(s, s.top)
    }
}

// 9 write number: takes the top word, and writes its four bytes. (By `first_chunk_mut`, as `read
// number` has it, the searches found no proof: the output is then three parts joined again, also
// where nothing fits.)
fn write_number<const TESTED: bool>(
    s: Machine,
    values: &[u32; VALUE_WORDS],
    output: &mut [u8],
) -> Machine
    requires sound { Sound s }
    requires words { TESTED ≡ false → Words 1 s }
    requires written_in_bounds { s.written ≤ length output.old }
    ensures { OnOutput WriteNumber values.now output.old output.new s result }
{
    if lacks::<TESTED>(s, 1) {
        return s.refused(Refusal::CannotPerform);
    }
    let top = s.top;
    let written = s.written;
    if output.len() - written < LABEL_BYTES {
        return s.refused(Refusal::OutputFull);
    }
    output[written..written + LABEL_BYTES].copy_from_slice(&values[top - 1].to_le_bytes());
    Machine {
        written: written + LABEL_BYTES,
        ..next(s, top - 1)
    }
}

// 10 read tag: a leaf goes on, a node goes to the address. (By a match on `input.get(read)` the run
// of checked code took 17.6 machine instructions for each one performed in place of 15.6 on Grow,
// 19.5 in place of 17.0 on Sum.)
#[tactic(auto, using(operations::proofs::StreamLaws::tags_in))]
fn read_tag(s: Machine, address: u16, input: &[u8]) -> Machine
    requires { Sound s }
    ensures { OnInput (ReadTag address) input.now s result }
{
    let read = s.read;
    if input.len() <= read {
        return s.refused(Refusal::InputEnded);
    }
    let tag = input[read];
    let r = Machine {
        read: read + 1,
        ..next(s, s.top)
    };
    if tag == LEAF_TAG {
        return r;
    }
    if tag == NODE_TAG {
        return r.jump(address);
    }
    s.refused(Refusal::NotATag)
}

// 11 read number: pushes a label.
fn read_number<const TESTED: bool>(
    s: Machine,
    values: &mut [u32; VALUE_WORDS],
    input: &[u8],
) -> Machine
    requires sound { Sound s }
    requires room { TESTED ≡ false → Room s }
    requires read_in_bounds { s.read ≤ length input.now }
    ensures { FromInput ReadNumber input.now values.old values.new s result }
{
    if is_full::<TESTED>(s) {
        return s.refused(Refusal::CannotPerform);
    }
    let top = s.top;
    let read = s.read;
    let Some(label) = input[read..].first_chunk::<LABEL_BYTES>() else {
        return s.refused(Refusal::InputEnded);
    };
    values[top] = u32::from_le_bytes(*label);
    Machine {
        read: read + LABEL_BYTES,
        ..next(s, top + 1)
    }
}

// 12 call: the arguments are the new frame's first words.
fn call<const TESTED: bool>(
    s: Machine,
    entry: u16,
    arguments: u8,
    returns: &mut [u64; RETURN_WORDS],
) -> Machine
    requires sound { Sound s }
    requires words { TESTED ≡ false → Words arguments s }
    ensures { OnReturns (Call entry arguments) returns.old returns.new s result }
{
    // by `usize::from` no proof was found, as in `get`
    let arguments = arguments as usize;
    if lacks::<TESTED>(s, arguments) {
        return s.refused(Refusal::CannotPerform);
    }
    let saved = s.saved;
    if MOST_SAVED <= saved {
        return s.refused(Refusal::TooManyCalls);
    }
    returns[saved] = (s.address + 1) as u64;
    returns[saved + 1] = s.base as u64;
    Machine {
        base: s.top - arguments,
        saved: saved + 2,
        ..s.jump(entry)
    }
}

// Leaves the frame, with its words cut down to `top`. Where it is the first frame, the run has
// ended.
#[tactic(auto, using(operations::proofs::CallLaws::leaves))]
fn leave(s: Machine, top: usize, returns: &[u64; RETURN_WORDS]) -> Machine
    requires { s.saved ≤ length returns.now }
    ensures { result ≡ left returns.now top s }
{
    let saved = s.saved;
    if saved < 2 {
        return Machine {
            stop: Stop::Ended,
            top,
            ..s
        };
    }
    Machine {
        address: returns[saved - 2] as usize,
        base: returns[saved - 1] as usize,
        saved: saved - 2,
        top,
        ..s
    }
}

// 13 return, with no word or one word kept.
fn give_back<const TESTED: bool>(
    s: Machine,
    kept: u8,
    values: &mut [u32; VALUE_WORDS],
    returns: &[u64; RETURN_WORDS],
) -> Machine
    requires sound { Sound s }
    requires return_byte { TESTED ≡ false → ReturnByte kept }
    requires words { TESTED ≡ false → Words kept s }
    requires saved_in_bounds { s.saved ≤ length returns.now }
    ensures { FromReturns (Return kept) returns.now values.old values.new s result }
{
    let base = s.base;
    if kept == 0 {
        return leave(s, base, returns);
    }
    if keeps_more::<TESTED>(kept) {
        return s.refused(Refusal::CannotPerform);
    }
    if lacks::<TESTED>(s, 1) {
        return s.refused(Refusal::CannotPerform);
    }
    values[base] = values[s.top - 1];
    leave(s, base + 1, returns)
}

// The opcode in the bytes of an instruction. A checked program has none above 13: the mask spares
// its loop the test of the range.
fn opcode_of<const TESTED: bool>(i: &[u8; INSTRUCTION_BYTES]) -> u8
    requires { TESTED ≡ false → slice_index i.now 0 ≤ last_opcode }
    ensures { result ≡ slice_index i.now 0 }
{
    if TESTED { i[0] } else { i[0] % 16 }
}

// One instruction performed, by its opcode, if any of the fuel is left; else the machine stops with
// 14 before anything is changed. An arm reads only the fields that it uses. Every number under the
// mask has an arm, and the fuel is looked at in each: so the jump comes first, and is copied into
// every arm (docs/DECISIONS.md). So the match is on numbers and on no `Opcode`: of 14 and 15 there
// is none, and any byte comes in any code. The loop of any code, which looks at the fuel itself,
// gives 1.
#[tactic(auto, using(operations::proofs::CheckedLaws::stepping))]
fn step<const TESTED: bool>(
    s: Machine,
    fuel: u64,
    i: &[u8; INSTRUCTION_BYTES],
    input: &[u8],
    output: &mut [u8],
    values: &mut [u32; VALUE_WORDS],
    returns: &mut [u64; RETURN_WORDS],
) -> Machine
    requires sound { Sound s }
    requires lent { Lent s input.now output.old values.old returns.old }
    requires able { TESTED ≡ false → Able (record_at i.now 0) s }
    ensures { Turns fuel (record_at i.now 0) input.now
        values.old returns.old output.old values.new
        returns.new output.new s result }
{
    match (opcode_of::<TESTED>(i), fuel != 0) {
        (0, true) => push::<TESTED>(s, words32::read32(i, NUMBER), values),
        (1, true) => get::<TESTED>(s, words::read16(i, OPERAND), values),
        (2, true) => add::<TESTED>(s, values),
        (3, true) => ifnot::<TESTED>(s, words::read16(i, OPERAND), values),
        (4, true) => s.jump(words::read16(i, OPERAND)),
        (5, true) => slide::<TESTED>(s, values),
        (6, true) => drop::<TESTED>(s),
        (7, true) => write_tag(s, LEAF_TAG, output),
        (8, true) => write_tag(s, NODE_TAG, output),
        (9, true) => write_number::<TESTED>(s, values, output),
        (10, true) => read_tag(s, words::read16(i, OPERAND), input),
        (11, true) => read_number::<TESTED>(s, values, input),
        (12, true) => call::<TESTED>(s, words::read16(i, OPERAND), i[1], returns),
        (13, true) => give_back::<TESTED>(s, i[1], values, returns),
        (14, true) => s.refused(Refusal::CannotPerform),
        (_, true) => s.refused(Refusal::CannotPerform),
        (_, false) => s.refused(Refusal::FuelUsedUp),
    }
}

// How many addresses hold an instruction, in code of so many bytes.
fn limit(bytes: usize) -> usize
    ensures { result ≡ limit_of bytes }
{
    MOST_INSTRUCTIONS.min(bytes / INSTRUCTION_BYTES)
}

// One step of any code: the instruction at the address is performed, if it holds one.
#[tactic(auto, using(operations::proofs::StepLaws::turning))]
fn turn(
    s: Machine,
    limit: usize,
    code: &[u8],
    input: &[u8],
    output: &mut [u8],
    values: &mut [u32; VALUE_WORDS],
    returns: &mut [u64; RETURN_WORDS],
) -> Machine
    requires going { Going s }
    requires limit_value { limit ≡ limit_of (length code.now) }
    requires lent { Lent s input.now output.old values.old returns.old }
    ensures { Steps code.now input.now values.old
        returns.old output.old values.new returns.new
        output.new s result }
{
    if limit <= s.address {
        return s.refused(Refusal::CannotPerform);
    }
    step::<true>(s, 1, fetch(code, s.address), input, output, values, returns)
}

// The stream run of any code in the work words that a run uses: instruction after instruction, from
// address 0, until one stops the run or the fuel is used up.
fn perform_in(
    fuel: u64,
    output: &mut [u8],
    values: &mut [u32; VALUE_WORDS],
    returns: &mut [u64; RETURN_WORDS],
    code: &[u8],
    input: &[u8],
) -> Answer
    ensures { Performed (stream_run code.now input.now
        output.old fuel (length values.old) (length returns.old))
        output.new values.old values.new returns.old
        returns.new result }
{
    let limit = limit(code.len());
    let mut s = START;
    for units in 0..fuel {
        s = turn(s, limit, code, input, output, values, returns);
        let Stop::GoesOn = s.stop else {
            return s.report(units, values);
        };
    }
    s.refused(Refusal::FuelUsedUp).report(fuel, values)
}

// The same of code that is never refused with 19. What is left of the fuel is compared with 0 at
// each instruction, before anything is changed or refused. There are two loops, since one would
// hold both ways to look at the fuel: with a `for`, as the loop above has it, the test comes before
// the jump, and an instruction of this one took 2.1 ns in place of 1.3 (docs/BENCHMARKS.md). It is
// not put into `hogvax_run`: what comes before the loop there decided which of the loop's values
// got registers.
#[inline(never)]
fn run_checked_in(
    fuel: u64,
    output: &mut [u8],
    values: &mut [u32; VALUE_WORDS],
    returns: &mut [u64; RETURN_WORDS],
    code: CheckedCode<'_>,
    input: &[u8],
) -> Answer
    ensures { Performed (stream_run code.entry.code.now input.now
        output.old fuel (length values.old) (length returns.old))
        output.new values.old values.new returns.old
        returns.new result }
{
    let mut s = START;
    let mut units = 0;
    loop {
        let i = fetch(code.code, s.address);
        s = step::<false>(s, fuel - units, i, input, output, values, returns);
        let Stop::GoesOn = s.stop else {
            return s.report(units, values);
        };
        units = units + 1;
    }
}

// The stream run of any code: 13 first, where work words are missing. That test is written in both
// calls: by a function that answers both arrays `hogvax_perform` took 12 % more machine
// instructions on Grow.
pub fn perform(
    fuel: u64,
    output: &mut [u8],
    values: &mut [u32],
    returns: &mut [u64],
    code: &[u8],
    input: &[u8],
) -> Answer
    ensures { Performed (stream_run code.now input.now
        output.old fuel (length values.old) (length returns.old))
        output.new values.old values.new returns.old
        returns.new result }
{
    if let Some(values) = values.first_chunk_mut()
        && let Some(returns) = returns.first_chunk_mut()
    {
        return perform_in(fuel, output, values, returns, code, input);
    }
    Answer::refused(Refusal::SpaceTooShort.at(0))
}

// The same of code that is never refused with 19.
pub fn run_checked(
    fuel: u64,
    output: &mut [u8],
    values: &mut [u32],
    returns: &mut [u64],
    code: CheckedCode<'_>,
    input: &[u8],
) -> Answer
    ensures { Performed (stream_run code.entry.code.now input.now
        output.old fuel (length values.old) (length returns.old))
        output.new values.old values.new returns.old
        returns.new result }
{
    if let Some(values) = values.first_chunk_mut()
        && let Some(returns) = returns.first_chunk_mut()
    {
        return run_checked_in(fuel, output, values, returns, code, input);
    }
    Answer::refused(Refusal::SpaceTooShort.at(0))
}
