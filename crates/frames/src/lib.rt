// The fields of a program's rows, and the words of frames, for the source run.
#![tactic(auto)]

ghost use Rattle.std.specs.Prelude.{◌+◌, ◌*◌, ◌≡◌, get_or, set};
ghost use Rattle.stepwise.specs.Inner.Steps.{field as field_of, action_at, role_at, frame_words};
ghost use Rattle.frames.specs.Inner.Named.{action_number, role_number, action_of_number, role_of_number};

// How many words a row has.
pub const ROW_WORDS: usize = 8;

// How many words a frame has.
const FRAME_WORDS: usize = 16;

// The fields of a row. (Numbers and no enum: `field` is promised of every number, and with a type
// that has these alone it would ask more of its callers.)
pub const ACTION: u16 = 0;

pub const OPERAND: u16 = 1;

pub const TREE: u16 = 2;

pub const MORE: u16 = 3;

pub const ROLE: u16 = 4;

pub const PARENT: u16 = 5;

pub const SLOT: u16 = 6;

pub const AFTER: u16 = 7;

// What a record does when it begins.
#[derive(Clone, Copy, Debug, PartialEq, Eq)]
pub enum Action {
    GivesConstant,
    GivesNamed,
    EntersPart,
    TagsNode,
    LooksAtTree,
    CallsFunction,
}

// What a record does with the value of its part.
#[derive(Clone, Copy, Debug, PartialEq, Eq)]
pub enum Role {
    Whole,
    Kept,
    Added,
    Tested,
    Passed,
    Labelled,
    Followed,
    LastArgument,
}

// The number of an action in a row.
impl From<Action> for u16 {
    ghost from_gives = { λ action n. n ≡ action_number action };

    fn from(action: Action) -> u16 {
        action as u16
    }
}

// The action of a number. (From and no TryFrom: every other number enters a part, as it does in
// `stepwise: beginning`.)
impl From<u16> for Action {
    ghost from_gives = { λ n action. action ≡ action_of_number n };

    #[tactic(auto, unfolding(crate::specs::Inner::Named::action_of_number))]
    fn from(number: u16) -> Action {
        match number {
            0 => Action::GivesConstant,
            1 => Action::GivesNamed,
            3 => Action::TagsNode,
            4 => Action::LooksAtTree,
            5 => Action::CallsFunction,
            _ => Action::EntersPart,
        }
    }
}

// The number of a role in a row.
impl From<Role> for u16 {
    ghost from_gives = { λ role n. n ≡ role_number role };

    fn from(role: Role) -> u16 {
        role as u16
    }
}

// The role of a number. (From and no TryFrom: every larger number is a last argument, as it is in
// `stepwise: following`.)
impl From<u16> for Role {
    ghost from_gives = { λ n role. role ≡ role_of_number n };

    #[tactic(auto, unfolding(crate::specs::Inner::Named::role_of_number))]
    fn from(number: u16) -> Role {
        match number {
            0 => Role::Whole,
            1 => Role::Kept,
            2 => Role::Added,
            3 => Role::Tested,
            4 => Role::Passed,
            5 => Role::Labelled,
            6 => Role::Followed,
            _ => Role::LastArgument,
        }
    }
}

// A field of a record's row; 0 where the table has none.
pub fn field(table: &[u16], r: u16, f: u16) -> u16
    ensures { result ≡ field_of table.now r f }
{
    let i = ROW_WORDS * usize::from(r) + usize::from(f);
    table.get(i).copied().unwrap_or(0)
}

// What record r does when it begins.
pub fn action_of(table: &[u16], r: u16) -> Action
    ensures { result ≡ action_of_number (action_at table.now r) }
{
    Action::from(field(table, r, ACTION))
}

// What record r does with the value of its part.
pub fn role_of(table: &[u16], r: u16) -> Role
    ensures { result ≡ role_of_number (role_at table.now r) }
{
    Role::from(field(table, r, ROLE))
}

// Puts an item at an index of a slice, if it reaches so far. By index: of what a slice's `get_mut`
// lends a proof knows no element.
pub fn put<T: Copy>(items: &mut [T], i: usize, x: T)
    ensures { items.new ≡ set items.old i x }
{
    if i < items.len() {
        items[i] = x;
    }
}

// Where a frame's word stands among the value words.
fn word_offset(calls: u16, slot: u16) -> usize
    ensures { result ≡ frame_words * calls + slot }
{
    FRAME_WORDS * usize::from(calls) + usize::from(slot)
}

// A word of a frame; 0 where there is none.
pub fn frame_word(values: &[u32], calls: u16, slot: u16) -> u32
    ensures { result ≡ get_or values.now (frame_words * calls + slot) 0 }
{
    let at = word_offset(calls, slot);
    values.get(at).copied().unwrap_or(0)
}

// Puts a number on a frame's word, if there is one.
pub fn put_frame(values: &mut [u32], calls: u16, slot: u16, x: u32)
    ensures { values.new ≡ set values.old (frame_words * calls + slot)
        x }
{
    put(values, word_offset(calls, slot), x)
}
