// The rows of a program's records, for the source run: a table of 8 words for each record, filled
// from flat records, 8 bytes each.
#![tactic(auto)]

ghost use Rattle.std.specs.Prelude.{◌*◌, ◌≡◌};
ghost use Rattle.formats.specs.Written.{written};
ghost use Rattle.stepwise.specs.Inner.Rows.{row_words};
ghost use Rattle.decode.specs.Inner.Decoding.{Decodes};
ghost use Rattle.decode.specs.Inner.Walk.{row_in, Small, FillsRows, Starts, TableReady, FillsAll};

use frames::{ROW_WORDS, Role};
use part_locations::Location;
use record_rows::Own;
use records::Described;
use refusal::{Refusal, Refused};

// The most records: the header, 32 functions and 1,024 nodes.
const MOST_RECORDS: usize = 1057;

// A row for each of them.
pub const TABLE_WORDS: usize = ROW_WORDS * MOST_RECORDS;

// Writes the row of record k, or nothing where the table has no row there: a word whose offset has
// no number of 64 bits is past its end. (A cast to 16 bits may lose none, so a number is cut before
// it; for a program nothing is lost.)
fn write_row(table: &mut [u16], k: usize, own: Own, location: Location, after: usize)
    ensures { table.new ≡ written table.old (row_words * k)
        (row_in own location after) }
{
    let row = [
        u16::from(own.action),
        own.operand,
        own.tree,
        own.more,
        u16::from(location.role),
        (location.parent % 65536) as u16,
        (location.slot % 65536) as u16,
        (after % 65536) as u16,
    ];
    writing::write_items(table, ROW_WORDS.saturating_mul(k), &row);
}

// What stays the same while a program is walked over: its flat records, and the record after the
// last node. (`pass_one` has the like: the methods of a struct stand in its crate.)
#[derive(Clone, Copy)]
struct Walk<'a> {
    flat: &'a [u8],
    end: usize,
}

impl Walk<'_> {
    // Fills the rows of the expression at record k, and gives the record after it. A record's own
    // row is written after those of its parts, when the record after them is known. Where no
    // expression stands, nothing more is filled. (`cases` is one stack for all parts, and each part
    // has its own depth in it: a stack with a count of its own would have to be cut back after each
    // part.)
    fn decode_at(
        &self,
        table: &mut [u16],
        cases: &mut [u16],
        k: usize,
        location: Location,
    ) -> Option<usize>
        requires { Small k self.now.end location }
        ensures { FillsRows self.now.flat.now table.old table.new
            cases.old cases.new k self.now.end location result }
    {
        if self.end <= k {
            return None;
        }
        let Described { node, parts, .. } = records::record_at(self.flat, k).ok()?;
        let around = &cases[..location.depth.min(cases.len())];
        let own = record_rows::own_of(self.flat, around, node, location.names);
        let count = nodes::part_count(self.flat, parts);
        let mut next = k + 1;
        for i in 0..count {
            let part = parts::nth_part(parts, i);
            let inner = part_locations::inside(part, node, k, i, count, location);
            part_locations::note_case(cases, part, k, location.depth);
            next = self.decode_at(table, cases, next, inner)?;
        }
        write_row(table, k, own, location, next);
        Some(next)
    }
}

// Where the body of function j stands: its number parameters are named.
#[tactic(auto, using(crate::proofs::Locations::started))]
fn start(flat: &[u8], j: u16) -> Location
    ensures { Starts flat.now j result }
{
    Location {
        role: Role::Whole,
        parent: 0,
        slot: 0,
        names: usize::from(signatures::parameters(flat, j)),
        keeps: 0,
        depth: 0,
    }
}

// Fills the rows of all functions. The Cases around a record are no more than the records.
fn decode_all(flat: &[u8], table: &mut [u16])
    requires { TableReady flat.now table.old }
    ensures { FillsAll flat.now table.old table.new }
{
    let mut cases = [0u16; MOST_RECORDS];
    let functions = u16::from(signatures::functions_in(flat));
    let walk = Walk {
        flat,
        end: signatures::nodes_end(flat),
    };
    let mut k = signatures::first_node(flat);
    for j in 0..functions {
        k = walk
            .decode_at(table, &mut cases, k, start(flat, j))
            .unwrap();
    }
}

// The rows of a program that passes pass one, written into a lent table: the row of record k from
// word 8k on. Else the first refusal: of the checks of the records, header to prefix form, then of
// pass one, and last 13 where the table is too short. A refusal leaves the table untouched.
#[tactic(auto, using(crate::proofs::Calls::ways))]
pub fn decode(flat: &[u8], table: &mut [u16]) -> Result<(), Refused>
    ensures { Decodes flat.now table.old table.new result }
{
    pass_one::check_pass_one(flat)?;
    if table.len() < TABLE_WORDS {
        return Err(Refusal::SpaceTooShort.at(0));
    }
    decode_all(flat, table);
    Ok(())
}
