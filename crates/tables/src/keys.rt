// What of a row is compared, in a file of its own: no type may have a function's name but for its case, as `Key` has that of `key`.
ghost use Rattle.std.specs.Prelude.{◌≡◌};
ghost use Rattle.tables.specs.Table.{width_of, key_of};

use crate::{FIRST, Row};

// What of a row is compared: its first word alone, or all of it.
#[derive(Clone, Copy, PartialEq, Eq)]
pub enum Key {
    First,
    Whole,
}

impl Key {
    // What of a row is compared at a width.
    pub fn by(width: u32) -> Key
        ensures { key_of (width_of result) ≡ key_of width }
    {
        if width == FIRST {
            Key::First
        } else {
            Key::Whole
        }
    }

    // The words of a row that are compared, and 0 in place of the others.
    #[tactic(auto, unfolding(crate::specs::Table::key_of))]
    pub fn of(self, row: Row) -> Row
        ensures { result ≡ key_of (width_of self) row }
    {
        match self {
            Key::First => Row {
                a: row.a,
                ..Row::default()
            },
            Key::Whole => row,
        }
    }
}
