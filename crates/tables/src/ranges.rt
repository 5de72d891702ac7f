// A BTreeMap from starts to source locations, by exact key only: rows in order of insertion, found by their first word.
ghost use Rattle.std.specs.Prelude.{◌≡◌};
ghost use Rattle.tables.specs.Table.{newest_of, left};
ghost use Rattle.tables.specs.Ranges.{start_row_lem, get_of, put_of, replace_of, range_row_lem};

use crate::Row;
use crate::keys::Key;
use crate::kinds::{RangeRow, start_row};
use raw::SourceLocation;

// What a start held before it was put.
#[derive(Clone, Copy, PartialEq, Eq)]
pub enum Was {
    Vacant,
    Same,
    Changed,
}

#[derive(Clone, Copy)]
pub struct Change {
    // The number of the row with the start.
    pub index: u32,
    pub count: u32,
    pub was: Was,
}

// The number + 1 of the newest row in the bucket of a start; 0 where there is none.
pub fn newest(t: &[u32], start: u32) -> u32
    ensures { result ≡ newest_of 1 t.now (start_row_lem start) }
{
    crate::newest(t, start_row(start), Key::First)
}

// The location at a start.
#[tactic(auto, using(crate::proofs::Found::some_found, crate::proofs::Found::none_found), unfolding(crate::specs::Ranges::get_of))]
pub fn get(t: &[u32], count: u32, start: u32) -> Option<SourceLocation>
    ensures { result ≡ get_of t.now count start }
{
    let i = crate::find(t, count, start_row(start), Key::First)?;
    Some(RangeRow::from(crate::row_at(t, i)).location)
}

// The location at a start becomes loc. A count above the capacity changes nothing.
#[tactic(auto, using(crate::proofs::Kept::count_kept), unfolding(crate::specs::Ranges::put_of, crate::specs::Ranges::put_at))]
pub fn put(t: &mut [u32], count: u32, start: u32, loc: SourceLocation) -> Change
    ensures { left result t.new ≡ put_of t.old count (range_row_lem start loc) }
{
    if crate::capacity(t) < count {
        return Change {
            index: count,
            count,
            was: Was::Vacant,
        };
    }
    let row = Row::from(RangeRow {
        start,
        location: loc,
    });
    let got = crate::insert(t, count, row, Key::First);
    let was = if got.index < count {
        replace(t, got.index, row)
    } else {
        Was::Vacant
    };
    Change {
        index: got.index,
        count: got.count,
        was,
    }
}

// Row i becomes row.
#[tactic(auto, using(crate::proofs::Rows::equal_same), unfolding(crate::specs::Ranges::replace_of))]
fn replace(t: &mut [u32], i: u32, row: Row) -> Was
    ensures { left result t.new ≡ replace_of t.old i row }
{
    if crate::row_at(t, i) == row {
        return Was::Same;
    }
    crate::set_row(t, i, row);
    Was::Changed
}
