// Rows and texts added since a mark are taken back: each table is to the word what it was.
ghost use Rattle.std.specs.Prelude.{◌≡◌};
ghost use Rattle.journal.specs.Undo.{width_by, row_hash_of, undo_of, off_of, undone_to, cut_to};

use slices::put;
use tables::Row;
use tables::keys::Key;
use tables::kinds::IndexedText;

// The width of the index of texts: its rows are found by their hash.
const TEXT: u32 = 4;

// What the rows of a table are found by: their key, as those of ranges and of index sets, or the text that they stand for.
#[derive(Clone, Copy, PartialEq, Eq)]
pub enum By {
    Key(Key),
    Text,
}

impl By {
    // What rows are found by at a width: 6 for an index set, 1 for ranges, 4 for the index of texts. Any other is as 6.
    pub fn of(width: u32) -> By
        ensures { row_hash_of (width_by result) ≡ row_hash_of width }
    {
        if width == TEXT {
            By::Text
        } else {
            By::Key(Key::by(width))
        }
    }
}

// Of `count` rows the newest are taken off until `to` are left. The width is 6 for an index set, 1 for ranges, 4 for the index of texts.
pub fn undo_rows(t: &mut [u32], count: u32, to: u32, width: u32)
    ensures { t.new ≡ undone_to width to t.old count }
{
    undo_rows_by(t, count, to, By::of(width));
}

// The same, by what the rows are found by.
pub fn undo_rows_by(t: &mut [u32], count: u32, to: u32, by: By)
    ensures { t.new ≡ undone_to (width_by by) to t.old count }
{
    for n in (to..count).rev() {
        take_off_by(t, n, by);
    }
}

// Of the texts the newest are taken off until `to_count` are left, and of their bytes those from `to_bytes` on become 0.
pub fn undo_strings(
    text: &mut [u8],
    strings: &mut [u32],
    bytes: u32,
    count: u32,
    to_bytes: u32,
    to_count: u32,
)
    ensures { (text.new ≡ cut_to to_bytes text.old bytes)
        × (strings.new ≡ undone_to 4 to_count strings.old count) }
{
    cut(text, to_bytes, bytes);
    undo_rows_by(strings, count, to_count, By::Text);
}

// The bytes from `to` to n become 0.
fn cut(text: &mut [u8], to: u32, n: u32)
    ensures { text.new ≡ cut_to to text.old n }
{
    let end = text.len().min(n as usize);
    let to = to as usize;
    if to < end {
        text[to..end].fill(0);
    }
}

// Row n is taken off, where there is room for one. The width is as for `undo_rows`.
pub fn take_off(t: &mut [u32], n: u32, width: u32)
    ensures { t.new ≡ off_of width t.old n }
{
    take_off_by(t, n, By::of(width));
}

// The same, by what the rows are found by.
#[tactic(auto, unfolding(crate::specs::Undo::off_of))]
pub fn take_off_by(t: &mut [u32], n: u32, by: By)
    ensures { t.new ≡ off_of (width_by by) t.old n }
{
    let cap = tables::capacity(t);
    if n < cap {
        let h = tables::bucket(row_hash(tables::row_at(t, n), by), cap);
        unlink(t, cap, n, h);
    }
}

// The hash by which a row was put into its bucket.
#[tactic(auto, unfolding(crate::specs::Undo::row_hash_of))]
fn row_hash(row: Row, by: By) -> u32
    ensures { result ≡ row_hash_of (width_by by) row }
{
    match by {
        By::Key(key) => tables::hash(key.of(row)),
        By::Text => IndexedText::from(row).hash,
    }
}

// Row n is taken back from bucket h: its link is the head again, and its words become 0.
fn unlink(t: &mut [u32], cap: u32, n: u32, h: u32)
    ensures { t.new ≡ undo_of cap t.old n h }
{
    let link = tables::link_at(t, n);
    put(t, (cap as usize) * tables::ROW + (h as usize), link);
    tables::set_row(t, n, Row::default());
    put(t, (n as usize) * tables::ROW + tables::LINK, 0);
}
