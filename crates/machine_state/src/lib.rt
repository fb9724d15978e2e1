// The numbers of the stream machine, and the answer of a run that stops: what the runs of
// `machine`, the runner and its callers share.
#![tactic(auto)]

ghost use Rattle.std.specs.Prelude.{◌≡◌, ◌+◌, ◌^◌, ◌<◌, ◌==◌};
ghost use Rattle.meaning.specs.Performing.{number_kept};
ghost use Rattle.machine_state.specs.Inner.States.{frame_of, has_ended, stopped_by, refused_by, jump_to};
ghost use Rattle.machine_state.specs.Inner.Answers.{run_answer, nothing_done, reported_refusal, reported_number, counted, due_at, Reports, in_64_bits};
ghost use Rattle.machine_state.specs.Inner.InNumbers.{has_ended as ended_in_numbers, stopped_by as stopped_in_numbers, jump_to as jump_in_numbers, with_stop, checked_number};
ghost use Rattle.machine_state.specs.Inner.InNumbers.{due_at as due_in_numbers, Reports as ReportsInNumbers, ReportsChecked};

use refusal::{Refusal, Refused};

// Whether the machine goes on; and if not, why.
#[derive(Clone, Copy, Debug, PartialEq, Eq)]
pub enum Stop {
    GoesOn,
    // the last frame has returned
    Ended,
    Refused(Refusal),
}

// The value words that a run is lent, and the words of the return places.
pub const VALUE_WORDS: usize = 16384;

pub const RETURN_WORDS: usize = 2048;

// The numbers of the machine: the address, why it stops, where the frame's words begin and end, how
// many bytes are read and written, how many words of the return places are in use. Flat, so that it
// stays in registers; in this order both runs are fast (docs/BENCHMARKS.md).
#[derive(Clone, Copy)]
pub struct Machine {
    pub address: usize,
    pub stop: Stop,
    pub top: usize,
    pub base: usize,
    pub read: usize,
    pub written: usize,
    pub saved: usize,
}

// What a run answers: its number or its refusal, units, bytes read and written.
#[derive(Clone, Copy)]
pub struct Answer {
    pub outcome: Result<u32, Refused>,
    pub units: u64,
    pub read: usize,
    pub written: usize,
}

// The refusal that a run reports: 14 to 19 and 21 are those of a run. No instruction is refused
// with another one, which is reported as 19.
fn reported_refusal(why: Refusal) -> Refusal
    ensures { result ≡ reported_refusal why }
{
    match why {
        Refusal::FuelUsedUp => Refusal::FuelUsedUp,
        Refusal::InputEnded => Refusal::InputEnded,
        Refusal::NotATag => Refusal::NotATag,
        Refusal::OutputFull => Refusal::OutputFull,
        Refusal::TooManyCalls => Refusal::TooManyCalls,
        Refusal::OutOfRange => Refusal::OutOfRange,
        _ => Refusal::CannotPerform,
    }
}

impl Machine {
    // The machine unchanged, but stopped.
    pub fn stopped(self, why: Stop) -> Machine
        ensures { result ≡ stopped_by why self }
    {
        Machine { stop: why, ..self }
    }

    // .. since the instruction is refused.
    pub fn refused(self, why: Refusal) -> Machine
        ensures { result ≡ refused_by why self }
    {
        self.stopped(Stop::Refused(why))
    }

    // The machine at an address.
    pub fn jump(self, address: u16) -> Machine
        ensures { result ≡ jump_to address self }
    {
        Machine {
            address: usize::from(address),
            ..self
        }
    }

    // The word that the frame has kept, or 0.
    #[tactic(auto, using(crate::proofs::Laws::kept))]
    fn number_kept(self, values: &[u32]) -> u32
        ensures { result ≡ number_kept (frame_of values.now self) }
    {
        if self.top <= self.base {
            return 0;
        }
        values.get(self.top - 1).copied().unwrap_or(0)
    }

    // The units of a run that stops here: the return that ends it counts as one more, in 64 bits,
    // so that nothing is asked of the units.
    fn counted(self, units: u64) -> u64
        ensures { result ≡ counted units self.stop }
    {
        match self.stop {
            Stop::Ended => units.wrapping_add(1),
            _ => units,
        }
    }

    // The answer of a run that stops here, after `units` instructions. 19 where the machine goes
    // on, or stops with a refusal that is none of a run.
    pub fn report(self, units: u64, values: &[u32]) -> Answer
        ensures reports { units + 1 < 2 ^ 64 → Reports values.now units self result }
        ensures wrapped { run_answer result ≡ in_64_bits (due_at values.now units self) }
    {
        let units = self.counted(units);
        let outcome = match self.stop {
            Stop::Ended => Ok(self.number_kept(values)),
            Stop::Refused(why) => Err(reported_refusal(why).at(self.read)),
            Stop::GoesOn => Err(Refusal::CannotPerform.at(self.read)),
        };
        Answer {
            outcome,
            units,
            read: self.read,
            written: self.written,
        }
    }
}

impl Answer {
    // The answer of a call that is refused before its first instruction.
    pub fn refused(why: Refused) -> Answer
        ensures { run_answer result ≡ nothing_done why }
    {
        Answer {
            outcome: Err(why),
            units: 0,
            read: 0,
            written: 0,
        }
    }
}

// The values of `stop` in a machine in numbers: it goes on, it has ended, or the number of a
// refusal. A run that stops with any other number reports 19.
pub const GOES_ON: u32 = 0;

pub const ENDED: u32 = 1;

pub const FUEL_USED_UP: u32 = 14;

pub const INPUT_ENDED: u32 = 15;

pub const NOT_A_TAG: u32 = 16;

pub const OUTPUT_FULL: u32 = 17;

pub const TOO_MANY_CALLS: u32 = 18;

pub const CANNOT_PERFORM: u32 = 19;

pub const OUT_OF_RANGE: u32 = 21;

// The machine for callers whose stop may be any number; else as `Machine`.
#[derive(Clone, Copy)]
pub struct MachineInNumbers {
    pub address: usize,
    pub stop: u32,
    pub top: usize,
    pub base: usize,
    pub read: usize,
    pub written: usize,
    pub saved: usize,
}

// The stop that a number names: a refusal of a run its own, and every other number 19.
#[tactic(auto, using(crate::proofs::InNumbers::stops_named))]
fn stop_named(stop: u32) -> Stop
    ensures ended { has_ended result ≡ (stop == ended_in_numbers) }
    ensures number { reported_number result ≡ checked_number stop }
{
    match stop {
        GOES_ON => Stop::GoesOn,
        ENDED => Stop::Ended,
        FUEL_USED_UP => Stop::Refused(Refusal::FuelUsedUp),
        INPUT_ENDED => Stop::Refused(Refusal::InputEnded),
        NOT_A_TAG => Stop::Refused(Refusal::NotATag),
        OUTPUT_FULL => Stop::Refused(Refusal::OutputFull),
        TOO_MANY_CALLS => Stop::Refused(Refusal::TooManyCalls),
        OUT_OF_RANGE => Stop::Refused(Refusal::OutOfRange),
        _ => Stop::Refused(Refusal::CannotPerform),
    }
}

impl MachineInNumbers {
    // The machine unchanged, but stopped.
    pub fn stopped(self, why: u32) -> MachineInNumbers
        ensures { result ≡ stopped_in_numbers why self }
    {
        MachineInNumbers { stop: why, ..self }
    }

    // The machine at an address.
    pub fn jump(self, address: u16) -> MachineInNumbers
        ensures { result ≡ jump_in_numbers address self }
    {
        let address = usize::from(address);
        MachineInNumbers { address, ..self }
    }

    // The numbers of this machine, with a stop in place of its number.
    fn with_stop(self, stop: Stop) -> Machine
        ensures { result ≡ with_stop stop self }
    {
        Machine {
            address: self.address,
            stop,
            top: self.top,
            base: self.base,
            read: self.read,
            written: self.written,
            saved: self.saved,
        }
    }

    // The answer of a run of checked code that stops here, after `units` instructions: its loop
    // stops the machine with 14 where no fuel is left, and so 14 names its own refusal.
    pub fn report_checked(self, units: u64, values: &[u32]) -> Answer
        ensures { ReportsChecked values.now units self result }
    {
        self.with_stop(stop_named(self.stop)).report(units, values)
    }

    // The answer of a run of any code that stops here: no instruction stops the machine with 14,
    // which is reported as 19. All else is as above.
    pub fn report(self, units: u64, values: &[u32]) -> Answer
        ensures reports { units + 1 < 2 ^ 64 → ReportsInNumbers values.now units self result }
        ensures wrapped { run_answer result ≡ in_64_bits (due_in_numbers values.now units self) }
    {
        if self.stop == FUEL_USED_UP {
            return self.stopped(CANNOT_PERFORM).report_checked(units, values);
        }
        self.report_checked(units, values)
    }
}
