// Ranges with a journal, so that puts since a mark can be taken back. An entry has eight words: the number of a row, 1 where the row was added and 2 where its
// location was changed, and the row as it was. An entry that there is no room for makes the count of entries capacity + 1, and there it stays.
ghost use Rattle.std.specs.Prelude.{◌≡◌};
ghost use Rattle.tables.specs.Table.{left};
ghost use Rattle.tables.specs.Ranges.{range_row_lem};
ghost use Rattle.journal.specs.Undo.{set_entry, note_of, note_was, put_noted_of, put_marked_of, journaled, undo_entry, undo_at, undone_ranges, undone};

use crate::undo::{By, take_off_by};
use raw::SourceLocation;
use slices::word;
use tables::Row;
use tables::keys::Key;
use tables::kinds::RangeRow;
use tables::ranges::{Change, Was};

// The words of an entry, and the second of them.
const ENTRY: usize = 8;

const ADDED: u32 = 1;

const CHANGED: u32 = 2;

#[derive(Clone, Copy)]
pub struct Noted {
    pub change: Change,
    // How many entries the journal has now.
    pub noted: u32,
}

// The location at a start becomes loc; where `on`, the journal says what was there. The flag stands alone, since the journal is lent either way, and a clause
// says of a slice inside an Option not what it becomes.
#[tactic(auto, unfolding(crate::specs::Undo::put_marked_of))]
pub fn put(
    t: &mut [u32],
    count: u32,
    journal: &mut [u32],
    entries: u32,
    on: bool,
    start: u32,
    loc: SourceLocation,
) -> Noted
    ensures { let after = journaled result t.new journal.new in
        after ≡ put_marked_of on t.old count journal.old entries (range_row_lem start loc) }
{
    if on {
        return put_noted(t, count, journal, entries, start, loc);
    }
    let change = tables::ranges::put(t, count, start, loc);
    Noted {
        change,
        noted: entries,
    }
}

// The location at a start becomes loc, and the journal says what was there.
fn put_noted(
    t: &mut [u32],
    count: u32,
    journal: &mut [u32],
    entries: u32,
    start: u32,
    loc: SourceLocation,
) -> Noted
    ensures { let after = journaled result t.new journal.new in
        after ≡ put_noted_of t.old count journal.old entries (range_row_lem start loc) }
{
    let row = Row::from(RangeRow {
        start,
        location: loc,
    });
    let i = tables::find(t, count, row, Key::First).unwrap_or(count);
    let old = tables::row_at(t, i);
    let change = tables::ranges::put(t, count, start, loc);
    let was = change.was;
    let noted = note_was(journal, entries, was, count, i, old);
    Noted { change, noted }
}

// One more entry for what a put to n rows did: row n was added, or row i changed, or nothing.
#[tactic(auto, unfolding(crate::specs::Undo::note_was))]
fn note_was(journal: &mut [u32], m: u32, was: Was, n: u32, i: u32, old: Row) -> u32
    ensures { left result journal.new ≡ note_was journal.old m was n i old }
{
    match was {
        Was::Vacant => note(journal, m, n, ADDED, Row::default()),
        Was::Same => m,
        Was::Changed => note(journal, m, i, CHANGED, old),
    }
}

// One more entry after m, where there is room.
#[tactic(auto, unfolding(crate::specs::Undo::note_of))]
fn note(journal: &mut [u32], m: u32, i: u32, v: u32, old: Row) -> u32
    ensures { left result journal.new ≡ note_of journal.old m i v old }
{
    let cap = tables::capacity(journal);
    if m < cap {
        set_entry(journal, m, i, v, old);
        return m + 1;
    }
    tables::over(journal, m)
}

#[tactic(auto, unfolding(crate::specs::Undo::set_entry))]
fn set_entry(journal: &mut [u32], k: u32, i: u32, v: u32, old: Row)
    ensures { journal.new ≡ set_entry journal.old k i v old }
{
    let at = (k as usize) * ENTRY;
    slices::put(journal, at, i);
    slices::put(journal, at + 1, v);
    tables::set_six(journal, at + 2, old);
}

// Of m entries the newest are taken back until `to` are left; each becomes 0.
pub fn undo_ranges(t: &mut [u32], journal: &mut [u32], entries: u32, to: u32)
    ensures { undone t.new journal.new ≡ undone_ranges to t.old journal.old entries }
{
    for m in (to..entries).rev() {
        undo_at(t, journal, m);
        set_entry(journal, m, 0, 0, Row::default());
    }
}

// The ranges with entry k taken back.
#[tactic(auto, unfolding(crate::specs::Undo::undo_at))]
fn undo_at(t: &mut [u32], journal: &[u32], k: u32)
    ensures { t.new ≡ undo_at t.old journal.now k }
{
    let at = (k as usize) * ENTRY;
    let i = word(journal, at);
    let v = word(journal, at + 1);
    let old = tables::six(journal, at + 2);
    undo_entry(t, i, v, old);
}

// Row i is taken off where it was added, and is again what it was where it was changed.
#[tactic(auto, unfolding(crate::specs::Undo::undo_entry))]
fn undo_entry(t: &mut [u32], i: u32, v: u32, old: Row)
    ensures { t.new ≡ undo_entry t.old i v old }
{
    match v {
        ADDED => take_off_by(t, i, By::Key(Key::First)),
        CHANGED => tables::set_row(t, i, old),
        _ => {}
    }
}
