// What the rows of the converter's tables stand for: the fields of each kind as the words of a row, and back. The order of the fields stands nowhere else.
ghost use Rattle.std.specs.Prelude.{◌≡◌};
ghost use Rattle.tables.specs.Kinds.{row_of_file, file_of_row, row_of_function, function_of_row, row_of_call, call_of_row};
ghost use Rattle.tables.specs.Kinds.{range_row_lem, start_of, location_of_lem, start_row_lem, row_of_text, text_of_row};

use crate::Row;
use raw::{File, Function, SourceLocation};

// A range: its start, by which it is found, and its location.
#[derive(Clone, Copy)]
pub struct RangeRow {
    pub start: u32,
    pub location: SourceLocation,
}

// A text of the string section in its index: where its prefix begins, where its bytes begin, how many there are, and its hash.
#[derive(Clone, Copy)]
pub struct IndexedText {
    pub offset: u32,
    pub start: u32,
    pub len: u32,
    pub hash: u32,
}

// A file: six offsets of texts.
impl From<File> for Row {
    ghost from_gives = { λ file row. row ≡ row_of_file file };

    fn from(file: File) -> Row {
        Row {
            a: file.comp_dir_offset,
            b: file.directory_offset,
            c: file.name_offset,
            d: file.srcsrv_name_offset,
            e: file.srcsrv_dir_offset,
            f: file.srcsrv_revision_offset,
        }
    }
}

impl From<Row> for File {
    ghost from_gives = { λ row file. file ≡ file_of_row row };

    fn from(row: Row) -> File {
        File {
            comp_dir_offset: row.a,
            directory_offset: row.b,
            name_offset: row.c,
            srcsrv_name_offset: row.d,
            srcsrv_dir_offset: row.e,
            srcsrv_revision_offset: row.f,
        }
    }
}

// A function.
impl From<Function> for Row {
    ghost from_gives = { λ function row. row ≡ row_of_function function };

    fn from(function: Function) -> Row {
        Row {
            a: function.name_offset,
            b: function.comp_dir_offset,
            c: function.entry_pc,
            d: function.lang,
            ..Row::default()
        }
    }
}

impl From<Row> for Function {
    ghost from_gives = { λ row function. function ≡ function_of_row row };

    fn from(row: Row) -> Function {
        Function {
            name_offset: row.a,
            comp_dir_offset: row.b,
            entry_pc: row.c,
            lang: row.d,
        }
    }
}

// A call location: a location that is a row of its own.
impl From<SourceLocation> for Row {
    ghost from_gives = { λ location row. row ≡ row_of_call location };

    fn from(location: SourceLocation) -> Row {
        Row {
            a: location.file_idx,
            b: location.line,
            c: location.function_idx,
            d: location.inlined_into_idx,
            ..Row::default()
        }
    }
}

impl From<Row> for SourceLocation {
    ghost from_gives = { λ row location. location ≡ call_of_row row };

    fn from(row: Row) -> SourceLocation {
        SourceLocation {
            file_idx: row.a,
            line: row.b,
            function_idx: row.c,
            inlined_into_idx: row.d,
        }
    }
}

impl From<RangeRow> for Row {
    ghost from_gives = { λ range row. row ≡ range_row_lem range.start range.location };

    fn from(range: RangeRow) -> Row {
        Row {
            a: range.start,
            b: range.location.file_idx,
            c: range.location.line,
            d: range.location.function_idx,
            e: range.location.inlined_into_idx,
            f: 0,
        }
    }
}

impl From<Row> for RangeRow {
    ghost from_gives = { λ row range. range ≡ record { start = start_of row; location = location_of_lem row } };

    fn from(row: Row) -> RangeRow {
        RangeRow {
            start: row.a,
            location: SourceLocation {
                file_idx: row.b,
                line: row.c,
                function_idx: row.d,
                inlined_into_idx: row.e,
            },
        }
    }
}

// A range that is looked for: its start alone.
pub fn start_row(start: u32) -> Row
    ensures { result ≡ start_row_lem start }
{
    Row {
        a: start,
        ..Row::default()
    }
}

// A text of the string section.
impl From<IndexedText> for Row {
    ghost from_gives = { λ text row. row ≡ row_of_text text };

    fn from(text: IndexedText) -> Row {
        Row {
            a: text.offset,
            b: text.start,
            c: text.len,
            d: text.hash,
            ..Row::default()
        }
    }
}

impl From<Row> for IndexedText {
    ghost from_gives = { λ row text. text ≡ text_of_row row };

    fn from(row: Row) -> IndexedText {
        IndexedText {
            offset: row.a,
            start: row.b,
            len: row.c,
            hash: row.d,
        }
    }
}
