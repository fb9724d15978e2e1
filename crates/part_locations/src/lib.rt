// Where the parts of a program's record stand, for the rows of the source run.
#![tactic(auto)]

ghost use Rattle.std.specs.Prelude.{◌≡◌};
ghost use Rattle.records.specs.Inner.Read.{meant, part_of};
ghost use Rattle.part_locations.specs.Inner.Locations.{used_in, part_in, noted};
ghost use Rattle.part_locations.specs.Inner.InNumbers.{part_in as part_in_numbers};

use frames::Role;
use records::{Part, Record};

// The last word of a frame.
const LAST_WORD: usize = 15;

// Where a record stands: its role, its parent's record, the word of its number, how many numbers
// are named, how many are kept, and in how many node parts of Cases it stands. The records of these
// Cases are lent separately, the outermost first.
#[derive(Clone, Copy, Debug, PartialEq, Eq)]
pub struct Location {
    pub role: Role,
    pub parent: usize,
    pub slot: usize,
    pub names: usize,
    pub keeps: usize,
    pub depth: usize,
}

// What a record does with the value of its part i: the role, the word of its number, and how many
// numbers are kept when the part is entered. The record has `count` parts and stands at `location`.
#[tactic(auto, using(crate::proofs::Parts::uses))]
fn used(node: Record, i: usize, count: usize, location: Location) -> (Role, usize, usize)
    ensures { result ≡ used_in (meant node) i count location }
{
    let keeps = location.keeps;
    match (node, i) {
        (Record::Add, 0) => (Role::Kept, LAST_WORD.saturating_sub(keeps), keeps),
        (Record::Add, _) => (
            Role::Added,
            LAST_WORD.saturating_sub(keeps),
            keeps.saturating_add(1),
        ),
        (Record::IfZero, 0) => (Role::Tested, 0, keeps),
        (Record::IfZero, _) => (Role::Passed, 0, keeps),
        (Record::Let, 0) => (Role::Kept, location.names, keeps),
        (Record::Let, _) => (Role::Passed, location.names, keeps),
        (Record::Leaf, _) => (Role::Labelled, 0, keeps),
        (Record::Node, 0) => (Role::Followed, 0, keeps),
        (Record::Node, _) => (Role::Passed, 0, keeps),
        (Record::Call(_), _) => {
            let kept = keeps.saturating_add(i);
            let slot = LAST_WORD.saturating_sub(kept);
            if count.saturating_sub(i) == 1 {
                return (Role::LastArgument, slot, kept);
            }
            (Role::Kept, slot, kept)
        }
        _ => (Role::Passed, 0, keeps),
    }
}

// Where part i of the record r stands, which has `count` parts. The part says what is named in it,
// the record's kind says its role and its word. (Six parameters: `part_in` is a function of these
// six, and no two of them go together anywhere else.)
#[tactic(auto, using(crate::proofs::Parts::insides))]
pub fn inside(
    part: Part,
    node: Record,
    r: usize,
    i: usize,
    count: usize,
    location: Location,
) -> Location
    ensures { result ≡ part_in (part_of part) (meant node) r i count location }
{
    let (role, slot, keeps) = used(node, i, count, location);
    let inner = Location {
        role,
        parent: r,
        slot,
        keeps,
        ..location
    };
    match part {
        Part::Number | Part::Tree | Part::Whole => inner,
        Part::UnderNumber => Location {
            names: location.names.saturating_add(1),
            ..inner
        },
        Part::UnderTrees => Location {
            depth: location.depth.saturating_add(1),
            ..inner
        },
    }
}

// A location for callers whose role may be any number.
#[derive(Clone, Copy, Debug, PartialEq, Eq)]
pub struct LocationInNumbers {
    pub role: usize,
    pub parent: usize,
    pub slot: usize,
    pub names: usize,
    pub keeps: usize,
    pub depth: usize,
}

// The same of a location in numbers. The role of the location that is given does not matter.
#[tactic(auto, using(crate::proofs::InNumbers::numbered))]
pub fn inside_in_numbers(
    part: Part,
    node: Record,
    r: usize,
    i: usize,
    count: usize,
    location: LocationInNumbers,
) -> LocationInNumbers
    ensures { result ≡ part_in_numbers (part_of part) (meant node) r i count location }
{
    let outer = Location {
        role: Role::Whole,
        parent: location.parent,
        slot: location.slot,
        names: location.names,
        keeps: location.keeps,
        depth: location.depth,
    };
    let inner = inside(part, node, r, i, count, outer);
    LocationInNumbers {
        role: usize::from(u16::from(inner.role)),
        parent: inner.parent,
        slot: inner.slot,
        names: inner.names,
        keeps: inner.keeps,
        depth: inner.depth,
    }
}

// Before a part that names two trees more is entered, the Case's record r is put on top of the
// stack. (The caller says how high that is, since one stack serves all parts of a program. A cast
// to 16 bits may lose none, so the record is cut before it.)
#[tactic(auto, using(crate::proofs::Parts::notes))]
pub fn note_case(cases: &mut [u16], part: Part, r: usize, depth: usize)
    ensures { cases.new ≡ noted (part_of part) r depth cases.old }
{
    if let Part::UnderTrees = part {
        frames::put(cases, depth, (r % 65536) as u16);
    }
}
