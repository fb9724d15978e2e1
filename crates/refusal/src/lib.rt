// The refusals of 01, The table of refusals, with their numbers; and a refusal with its position,
// the error of every call that can be refused.
#![tactic(auto)]

ghost use Rattle.std.specs.Prelude.{◌≡◌};
ghost use Rattle.refusal.specs.Inner.Numbers.{number};

// Why an input is refused.
#[derive(Clone, Copy, Debug, PartialEq, Eq)]
pub enum Refusal {
    // the file's length is not 1 to 17 whole blocks
    FileLength = 1,
    // a block's check does not hold
    BlockCheck = 2,
    // another field of a block is wrong, or an unused record is not zero
    BlockField = 3,
    // a field of the header is wrong, or the record count
    HeaderField = 4,
    // a field of a function record is wrong, or the sum of the counts
    FunctionField = 5,
    // a node's kind is above 8, an unused field is not zero, or b is not below F
    NodeField = 6,
    // a function's records aren't exactly one expression
    PrefixForm = 7,
    // a number where a tree is expected, or a tree where a number is
    WrongType = 8,
    // a name that is not bound
    NotBound = 9,
    // one word more where 16 stand above the frame's base
    TooManyWords = 10,
    // a tree that is not the head of the pending list, unequal lists, or trees left
    OutOfOrder = 11,
    // a Case with 16 trees pending
    TooManyPending = 12,
    // a code, file or work buffer that is too short
    SpaceTooShort = 13,
    // the fuel is used up
    FuelUsedUp = 14,
    // the input ended
    InputEnded = 15,
    // a byte that is not 1 or 2 where a tag is due
    NotATag = 16,
    // the output is full, or shorter than the result
    OutputFull = 17,
    // a call with 1,024 open
    TooManyCalls = 18,
    // an instruction that can't be performed
    CannotPerform = 19,
    // a node tag under 1,024 others
    TooDeep = 20,
    // the exact sum lies outside −2147483648 to 2147483647
    OutOfRange = 21,
}

// A refusal and its position.
#[derive(Clone, Copy, Debug, PartialEq, Eq)]
pub struct Refused {
    pub why: Refusal,
    pub position: usize,
}

impl Refusal {
    // This refusal, at a position.
    pub fn at(self, position: usize) -> Refused
        ensures { result ≡ record { why = self; position = position } }
    {
        Refused {
            why: self,
            position,
        }
    }
}

// The number of a refusal in 01, The table of refusals.
impl From<Refusal> for u32 {
    ghost from_gives = { λ why n. n ≡ number why };

    fn from(why: Refusal) -> u32 {
        why as u32
    }
}
