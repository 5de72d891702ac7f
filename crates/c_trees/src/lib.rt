// Tree and symbol calls over words: the converter's record is twenty words between calls, and the six tables are lent at each call. The exported functions
// pass on what these answer.
#![tactic(auto)]

ghost use Rattle.std.specs.Prelude.{◌≡◌, []};
ghost use Rattle.rows.specs.Columns.{columns_of};
ghost use Rattle.errors.specs.Numbers.{code_of};
ghost use Rattle.memory.specs.Memory.{SameTables, memory_of};
ghost use Rattle.line_rows.specs.Lines.{line_columns};
ghost use Rattle.line_rows.specs.Numbers.{usable_by, number_of};
ghost use Rattle.c_words.specs.Record.{converter_of};
ghost use Rattle.c_words.specs.Writing.{call_left, tree_call, symbol_call, lines_left_lem, lines_call};
ghost use Rattle.c_trees.specs.Unpacked.{unpacked_call};

use c_words::record::{load, store_answer};
use errors::{Refusal, code_of};
use memory::{Lengths, Tables, is_usable};
use rows::{FunctionRows, LineRow, LineRows, OptionalPart};
use slices::zero;

// A tree.
pub fn process_symbolic_function(
    record: &mut [u32],
    tables: &mut Tables,
    scratch: &mut [u32],
    functions: FunctionRows,
    lines: LineRows,
    text: &[u8],
) -> Result<(), Refusal>
    ensures same { SameTables tables.old tables.new }
    ensures state { tables.new.state ≡ tables.old.state }
    ensures left { call_left (code_of result) «record».new (memory_of tables.new) scratch.new
        ≡ tree_call «record».old (memory_of tables.old) scratch.old (columns_of functions.entry lines.entry text.now) }
{
    let mut converter = load(record);
    let answer = writer::calls::process_symbolic_function(
        &mut converter,
        tables,
        scratch,
        functions,
        lines,
        text,
    );
    store_answer(record, code_of(answer), converter);
    answer
}

// A symbol.
pub fn process_symbolic_symbol(
    record: &mut [u32],
    tables: &mut Tables,
    text: &[u8],
    address: u64,
    size: u64,
    name: OptionalPart,
) -> Result<(), Refusal>
    ensures same { SameTables tables.old tables.new }
    ensures state { tables.new.state ≡ tables.old.state }
    ensures left { call_left (code_of result) «record».new (memory_of tables.new) []
        ≡ symbol_call «record».old (memory_of tables.old) text.now address size name }
{
    let mut converter = load(record);
    let answer = symbol_call::process_symbolic_symbol(
        &mut converter,
        tables,
        text,
        address,
        size,
        name,
    );
    store_answer(record, code_of(answer), converter);
    answer
}

// What a tree whose line rows are one list is refused with before a row is unpacked. Of the tables, scratch, the memory to unpack into and the line rows
// the lengths are given.
pub fn lines_refusal(
    record: &[u32],
    tables: Lengths,
    scratch: usize,
    unpacked64: usize,
    unpacked32: usize,
    functions: FunctionRows,
    lines: usize,
    texts: bool,
    text: &[u8],
) -> Result<(), Refusal>
    ensures { let usable = usable_by (converter_of «record».now) tables.string_bytes tables.strings tables.files
        tables.functions tables.call_locations tables.ranges in
        code_of result
        ≡ number_of usable scratch unpacked64 unpacked32 functions.entry.columns64.now functions.entry.columns32.now lines texts text.now }
{
    line_rows::refusal(
        is_usable(load(record), tables),
        scratch,
        unpacked64,
        unpacked32,
        functions,
        lines,
        texts,
        text,
    )
}

// The tree over the rows that were unpacked; they are zeroed after it. Too little scratch memory where less was lent than they ask for.
fn convert_unpacked(
    lines: usize,
    record: &mut [u32],
    tables: &mut Tables,
    scratch: &mut [u32],
    unpacked64: &mut [u64],
    unpacked32: &mut [u32],
    functions: FunctionRows,
    text: &[u8],
) -> Result<(), Refusal>
    ensures same { SameTables tables.old tables.new }
    ensures state { tables.new.state ≡ tables.old.state }
    ensures left { lines_left_lem (call_left (code_of result) «record».new (memory_of tables.new) scratch.new) unpacked64.new unpacked32.new
        ≡ unpacked_call 0 lines «record».old (memory_of tables.old) scratch.old unpacked64.old unpacked32.old
        functions.entry.columns64.now functions.entry.columns32.now text.now }
{
    if lines > unpacked64.len() / 3 {
        return Err(Refusal::ScratchTooSmall);
    }
    if lines > unpacked32.len() / 14 {
        return Err(Refusal::ScratchTooSmall);
    }
    let line_rows = LineRows {
        columns64: &unpacked64[..lines * 3],
        columns32: &unpacked32[..lines * 14],
    };
    let answer = process_symbolic_function(record, tables, scratch, functions, line_rows, text);
    zero(unpacked64);
    zero(unpacked32);
    answer
}

// The tree over the rows that were unpacked, unless it is refused.
pub fn process_unpacked(
    refused: Result<(), Refusal>,
    lines: usize,
    record: &mut [u32],
    tables: &mut Tables,
    scratch: &mut [u32],
    unpacked64: &mut [u64],
    unpacked32: &mut [u32],
    functions: FunctionRows,
    text: &[u8],
) -> Result<(), Refusal>
    ensures same { SameTables tables.old tables.new }
    ensures state { tables.new.state ≡ tables.old.state }
    ensures left { lines_left_lem (call_left (code_of result) «record».new (memory_of tables.new) scratch.new) unpacked64.new unpacked32.new
        ≡ unpacked_call (code_of refused) lines «record».old (memory_of tables.old) scratch.old unpacked64.old unpacked32.old
        functions.entry.columns64.now functions.entry.columns32.now text.now }
{
    match refused {
        Ok(()) => convert_unpacked(
            lines, record, tables, scratch, unpacked64, unpacked32, functions, text,
        ),
        Err(refusal) => Err(refusal),
    }
}

// The same with numbers: what it is refused with is passed on, whatever it is.
pub fn process_unpacked_by_code(
    refused: u32,
    lines: usize,
    record: &mut [u32],
    tables: &mut Tables,
    scratch: &mut [u32],
    unpacked64: &mut [u64],
    unpacked32: &mut [u32],
    functions: FunctionRows,
    text: &[u8],
) -> u32
    ensures same { SameTables tables.old tables.new }
    ensures state { tables.new.state ≡ tables.old.state }
    ensures left { lines_left_lem (call_left result «record».new (memory_of tables.new) scratch.new) unpacked64.new unpacked32.new
        ≡ unpacked_call refused lines «record».old (memory_of tables.old) scratch.old unpacked64.old unpacked32.old
        functions.entry.columns64.now functions.entry.columns32.now text.now }
{
    if refused != 0 {
        return refused;
    }
    code_of(convert_unpacked(
        lines, record, tables, scratch, unpacked64, unpacked32, functions, text,
    ))
}

// A tree whose line rows are one list. They are unpacked into memory that is lent for them, if the call isn't refused before that.
pub fn process_symbolic_function_lines(
    record: &mut [u32],
    tables: &mut Tables,
    scratch: &mut [u32],
    unpacked64: &mut [u64],
    unpacked32: &mut [u32],
    functions: FunctionRows,
    lines: &[LineRow],
    text: &[u8],
) -> Result<(), Refusal>
    ensures same { SameTables tables.old tables.new }
    ensures state { tables.new.state ≡ tables.old.state }
    ensures left { lines_left_lem (call_left (code_of result) «record».new (memory_of tables.new) scratch.new) unpacked64.new unpacked32.new
        ≡ lines_call «record».old (memory_of tables.old) scratch.old unpacked64.old unpacked32.old
        (line_columns functions.entry.columns64.now functions.entry.columns32.now lines.now text.now) }
{
    let refused = lines_refusal(
        record,
        tables.lengths(),
        scratch.len(),
        unpacked64.len(),
        unpacked32.len(),
        functions,
        lines.len(),
        line_rows::lines_texts(lines, text),
        text,
    );
    line_rows::unpack(code_of(refused), lines, unpacked64, unpacked32);
    refused?;
    convert_unpacked(
        lines.len(),
        record,
        tables,
        scratch,
        unpacked64,
        unpacked32,
        functions,
        text,
    )
}

#[cfg(test)]
mod tests;
