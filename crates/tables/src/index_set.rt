// An IndexSet of rows: each row once, in the order of insertion.
ghost use Rattle.std.specs.Prelude.{◌≡◌};
ghost use Rattle.tables.specs.Table.{newest_of, insert_of, left};

use crate::keys::Key;
use crate::{Inserted, Row};

// The number of the row equal to `row`, which is appended where there is none.
pub fn insert_full(t: &mut [u32], count: u32, row: Row) -> Inserted
    ensures { left result t.new ≡ insert_of 6 t.old count row }
{
    crate::insert(t, count, row, Key::Whole)
}

// The number + 1 of the newest row in the bucket of `row`; 0 where there is none.
pub fn newest(t: &[u32], row: Row) -> u32
    ensures { result ≡ newest_of 6 t.now row }
{
    crate::newest(t, row, Key::Whole)
}
