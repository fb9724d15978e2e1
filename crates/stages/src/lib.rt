// How far a source run has come: the stage of its loop.
#![tactic(auto)]

ghost use Rattle.std.specs.Prelude.{◌≡◌};
ghost use Rattle.stages.specs.Inner.Stages.{staged};
ghost use Rattle.stages.specs.Inner.InNumbers.{staged as staged_in_numbers, numbers_of, with_next};

// The numbers of records are below this limit.
pub const RECORD_LIMIT: u16 = 2048;

// What is to be done next: a record is to begin, a record is finished with a number, a call at a
// record is to open; the run has ended with a number, the call at a record would be one too many,
// the rows lead nowhere from a record, or the operation at a record has no result.
#[derive(Clone, Copy, Debug, PartialEq, Eq)]
pub enum Next {
    Begin(u16),
    Finished(u16, u32),
    Open(u16),
    Ended(u32),
    Deep(u16),
    Stuck(u16),
    Broken(u16),
}

// What is to be done next; how many calls wait, and the offset of the frame's tree; a tree that was
// passed, by its offset and its end (0 as long as there is none); how many bytes are written. (Two
// numbers and no Option: `stepwise: known_after` compares the first with the frame's tree, 0 too.
// Where no tree was passed an Option would answer otherwise in states that no program reaches, and
// contracts say each one.)
#[derive(Clone, Copy, Debug, PartialEq, Eq)]
pub struct Stage {
    pub next: Next,
    pub calls: u16,
    pub tree: usize,
    pub known: usize,
    pub end: usize,
    pub written: usize,
}

impl Stage {
    // The same stage, with something else to be done next.
    pub fn at(self, next: Next) -> Stage
        ensures { result ≡ staged self next }
    {
        Stage { next, ..self }
    }

    // The stage in numbers.
    #[tactic(auto, using(crate::proofs::InNumbers::numbered))]
    pub fn in_numbers(self) -> StageInNumbers
        ensures { result ≡ numbers_of self }
    {
        let (mode, node, number) = match self.next {
            Next::Begin(r) => (BEGIN, r, 0),
            Next::Finished(r, number) => (FINISHED, r, number),
            Next::Open(r) => (OPEN, r, 0),
            Next::Ended(number) => (ENDED, 0, number),
            Next::Deep(r) => (DEEP, r, 0),
            Next::Stuck(r) => (STUCK, r, 0),
            Next::Broken(r) => (BROKEN, r, 0),
        };
        StageInNumbers {
            mode,
            node,
            number,
            calls: self.calls,
            tree: self.tree,
            known: self.known,
            end: self.end,
            written: self.written,
        }
    }
}

// The modes of a stage in numbers: one for each case of `Next`.
pub const BEGIN: u32 = 0;

pub const FINISHED: u32 = 1;

pub const OPEN: u32 = 2;

pub const ENDED: u32 = 3;

pub const DEEP: u32 = 4;

pub const STUCK: u32 = 5;

pub const BROKEN: u32 = 6;

// A stage for callers whose mode, record and number may be any: what is to be done next (`mode`),
// and with which record; the number found where the record is finished; and the frame, as in
// `Stage`.
#[derive(Clone, Copy, Debug, PartialEq, Eq)]
pub struct StageInNumbers {
    pub mode: u32,
    pub node: u16,
    pub number: u32,
    pub calls: u16,
    pub tree: usize,
    pub known: usize,
    pub end: usize,
    pub written: usize,
}

// The frame of a stage in numbers, with something to be done next in place of these.
pub fn with_next(s: StageInNumbers, next: Next) -> Stage
    ensures { result ≡ with_next s next }
{
    Stage {
        next,
        calls: s.calls,
        tree: s.tree,
        known: s.known,
        end: s.end,
        written: s.written,
    }
}

// The same stage in numbers, with something else to be done next.
pub fn staged_at(s: StageInNumbers, mode: u32, r: u16, number: u32) -> StageInNumbers
    ensures { result ≡ staged_in_numbers s mode r number }
{
    StageInNumbers {
        mode,
        node: r,
        number,
        ..s
    }
}
