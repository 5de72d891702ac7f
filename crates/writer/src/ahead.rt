// Reading ahead: before any text of a tree is stored, its first functions are looked at in the tables. Each step is made for all of
// them, so that what one has to wait for is fetched from memory while the others are. What is read goes to scratch memory, four words
// a function, and nothing of it is used.
use crate::tree::entry_pc;
use memory::Tables;
use rows::{FunctionRow, FunctionRows};
use slices::{put, word};
use tables::Row;

// The newest row in the bucket of a function's name, as a link.
fn name_link(
    tables: &Tables,
    undecorate: bool,
    s: &mut [u32],
    q: FunctionRow,
    text: &[u8],
    i: u32,
) {
    let name = steps::shown_name(rows::part(text, q.name), undecorate);
    put(s, i as usize * 4, strings::newest(tables.strings, name));
}

// The same for the range that starts at its address.
fn range_link(tables: &Tables, s: &mut [u32], q: FunctionRow, i: u32) {
    let address = (q.address % 4294967296) as u32;
    put(
        s,
        i as usize * 4 + 1,
        tables::ranges::newest(tables.ranges, address),
    );
}

// The row that a link names; row 0 where it names none.
fn linked(t: &[u32], link: u32) -> Row {
    if link == 0 {
        return tables::row_at(t, 0);
    }
    tables::row_at(t, link - 1)
}

// The offset of the name, and where its bytes begin.
fn name_row(tables: &Tables, s: &mut [u32], i: u32) {
    let k = i as usize * 4;
    let row = linked(tables.strings, word(s, k));
    put(s, k, row.a);
    put(s, k + 2, row.b);
}

// A byte of the texts, 0 past their end.
fn byte(string_bytes: &[u8], at: usize) -> u32 {
    if at < string_bytes.len() {
        return string_bytes[at] as u32;
    }
    0
}

// The first byte of the name, and one that lies 60 bytes on.
fn name_bytes(tables: &Tables, s: &mut [u32], i: u32) {
    let k = i as usize * 4 + 2;
    let at = word(s, k) as usize;
    put(
        s,
        k,
        byte(tables.string_bytes, at) ^ byte(tables.string_bytes, at + 60),
    );
}

// The newest row in the bucket of the function, as a link.
fn function_link(tables: &Tables, s: &mut [u32], q: FunctionRow, i: u32) {
    let k = i as usize * 4;
    let row = Row::from(raw::Function {
        name_offset: word(s, k),
        comp_dir_offset: u32::MAX,
        entry_pc: entry_pc(q),
        lang: q.language,
    });
    put(s, k, tables::index_set::newest(tables.functions, row));
}

// A word of the function's row.
fn function_word(tables: &Tables, s: &mut [u32], i: u32) {
    let k = i as usize * 4;
    let row = linked(tables.functions, word(s, k));
    put(s, k, row.a);
}

// At most eight functions are read ahead. Six steps, each for all of these; later steps go on from what earlier ones left in scratch memory.
pub(crate) fn read_ahead(
    tables: &Tables,
    undecorate: bool,
    s: &mut [u32],
    functions: FunctionRows,
    text: &[u8],
) {
    let n = functions.len().min(8) as u32;
    for i in 0..n {
        name_link(tables, undecorate, s, functions.row(i as usize), text, i);
    }
    for i in 0..n {
        range_link(tables, s, functions.row(i as usize), i);
    }
    for i in 0..n {
        name_row(tables, s, i);
    }
    for i in 0..n {
        name_bytes(tables, s, i);
    }
    for i in 0..n {
        function_link(tables, s, functions.row(i as usize), i);
    }
    for i in 0..n {
        function_word(tables, s, i);
    }
}
