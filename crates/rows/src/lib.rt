// What a tree call is given: function rows and line rows as columns of numbers over one lent text.
#![tactic(auto)]

ghost use Rattle.std.specs.Prelude.{◌≡◌, ◌/◌, length};
ghost use Rattle.rows.specs.Columns.{function_in_columns, line_in_columns, part_of, boundaries_of};
ghost use Rattle.rows.specs.Clamped.{cut_at, clamped_columns_lem};

// A part of the lent text.
#[repr(C)]
#[derive(Clone, Copy, Default)]
pub struct TextPart {
    pub start: u32,
    pub len: u32,
}

// A text that may be absent. Not an Option: rows of line rows are lent as they lie in C, SymcacheLineRow of include/symcache.h.
#[repr(C)]
#[derive(Clone, Copy, Default)]
pub struct OptionalPart {
    pub present: bool,
    pub part: TextPart,
}

#[derive(Clone, Copy, Default)]
pub struct FunctionRow {
    pub depth: u32,
    pub address: u64,
    pub size: u64,
    pub inline: bool,
    pub language: u32,
    pub name: TextPart,
    pub comp_dir: TextPart,
    pub lines: u32,
}

// Its size is a flag and a number, and no Option, for the same reason.
#[repr(C)]
#[derive(Clone, Copy, Default)]
pub struct LineRow {
    pub address: u64,
    pub has_size: bool,
    pub size: u64,
    pub number: u64,
    pub name: TextPart,
    pub directory: TextPart,
    pub srcsrv_name: OptionalPart,
    pub srcsrv_dir: OptionalPart,
    pub revision: OptionalPart,
}

// The addresses from `start` up to but not `end`, and whether either was cut back to u32::MAX.
#[derive(Clone, Copy)]
pub struct Boundaries {
    pub start: u32,
    pub end: u32,
    pub cut: bool,
}

// Function rows, as their two columns.
#[derive(Clone, Copy)]
pub struct FunctionRows<'a> {
    // Two words a row: address, size.
    pub columns64: &'a [u64],
    // Eight words a row: depth, inline flag, language, name, compilation directory, count of line rows.
    pub columns32: &'a [u32],
}

impl<'a> FunctionRows<'a> {
    // How many there are.
    pub fn len(self) -> usize
        ensures { result ≡ length self.entry.columns64.now / 2 }
    {
        self.columns64.len() / 2
    }

    // Row i; zeros where there is none.
    pub fn row(self, i: usize) -> FunctionRow
        ensures { result ≡ function_in_columns self.entry.columns64.now self.entry.columns32.now i }
    {
        let wide = self.columns64;
        let words = self.columns32;
        if i < wide.len() / 2 && i < words.len() / 8 {
            let w = i * 2;
            let k = i * 8;
            return FunctionRow {
                depth: words[k],
                address: wide[w],
                size: wide[w + 1],
                inline: words[k + 1] != 0,
                language: words[k + 2],
                name: TextPart {
                    start: words[k + 3],
                    len: words[k + 4],
                },
                comp_dir: TextPart {
                    start: words[k + 5],
                    len: words[k + 6],
                },
                lines: words[k + 7],
            };
        }
        FunctionRow::default()
    }
}

// Line rows, as their two columns.
#[derive(Clone, Copy)]
pub struct LineRows<'a> {
    // Three words a row: address, size, line number.
    pub columns64: &'a [u64],
    // Fourteen words a row: has-size flag, name, directory, and the three optional texts.
    pub columns32: &'a [u32],
}

impl<'a> LineRows<'a> {
    // How many there are.
    pub fn len(self) -> usize
        ensures { result ≡ length self.entry.columns64.now / 3 }
    {
        self.columns64.len() / 3
    }

    // Row j; zeros where there is none.
    pub fn row(self, j: usize) -> LineRow
        ensures { result ≡ line_in_columns self.entry.columns64.now self.entry.columns32.now j }
    {
        let wide = self.columns64;
        let words = self.columns32;
        if j < wide.len() / 3 && j < words.len() / 14 {
            let w = j * 3;
            let k = j * 14;
            return LineRow {
                address: wide[w],
                has_size: words[k] != 0,
                size: wide[w + 1],
                number: wide[w + 2],
                name: TextPart {
                    start: words[k + 1],
                    len: words[k + 2],
                },
                directory: TextPart {
                    start: words[k + 3],
                    len: words[k + 4],
                },
                srcsrv_name: OptionalPart {
                    present: words[k + 5] != 0,
                    part: TextPart {
                        start: words[k + 6],
                        len: words[k + 7],
                    },
                },
                srcsrv_dir: OptionalPart {
                    present: words[k + 8] != 0,
                    part: TextPart {
                        start: words[k + 9],
                        len: words[k + 10],
                    },
                },
                revision: OptionalPart {
                    present: words[k + 11] != 0,
                    part: TextPart {
                        start: words[k + 12],
                        len: words[k + 13],
                    },
                },
            };
        }
        LineRow::default()
    }

    // Whether the addresses of row j were cut back; of a row that is not there they were not.
    fn is_cut(self, j: usize) -> bool
        ensures { result ≡ cut_at self.entry.columns64.now self.entry.columns32.now j }
    {
        let line = self.row(j);
        line_boundaries(line.address, line.has_size, line.size).cut
    }

    // How many have addresses that were cut back: every row once, whatever becomes of it.
    pub fn clamped(self) -> u64
        ensures { result ≡ clamped_columns_lem self.entry.columns64.now self.entry.columns32.now }
    {
        (0..self.len()).filter(|&j| self.is_cut(j)).count() as u64
    }
}

// A part of the text; empty where it lies outside.
pub fn part<'a>(text: &'a [u8], p: TextPart) -> &'a [u8]
    ensures { result.now ≡ part_of text.now p.start p.len }
{
    let start = p.start as usize;
    let end = start + p.len as usize;
    if end <= text.len() {
        return &text[start..end];
    }
    &text[..0]
}

// A line's addresses: the start clamps and the end saturates at u32::MAX; a line with no size covers one address.
pub fn line_boundaries(address: u64, has_size: bool, size: u64) -> Boundaries
    ensures { result ≡ boundaries_of address has_size size }
{
    let max = u32::MAX as u64;
    if max < address {
        let start = u32::MAX;
        return Boundaries {
            start,
            end: start,
            cut: true,
        };
    }
    let start = address as u32;
    let size = if has_size { size } else { 1 };
    if max - address < size {
        return Boundaries {
            start,
            end: u32::MAX,
            cut: true,
        };
    }
    let end = start + size as u32;
    Boundaries {
        start,
        end,
        cut: false,
    }
}
