// The steps of the converter (writer.rs, `SymCacheConverter`) on the lent tables and what is in use of them.
#![tactic(auto)]

ghost use Rattle.std.specs.Prelude.{◌≡◌, cond};
ghost use Rattle.names.specs.Names.{undecorated};
ghost use Rattle.text.specs.Utf8.{utf8};
ghost use Rattle.tables.specs.Ranges.{get_of};
ghost use Rattle.rows.specs.Columns.{text_of};
ghost use Rattle.model.specs.Machine.{unless_held, put_end};
ghost use Rattle.model.specs.Converter.{Setup, input};
ghost use Rattle.memory.specs.Memory.{SameTables, words_of};
ghost use Rattle.steps.specs.Steps.{gave, store, add_function, add_file_row, add_call, put_range, vacant, free};
ghost use Rattle.steps.specs.Steps.{begin_named, no_part, or_no_part, six_of, store_row, locate_six, over_words};

use memory::Tables;
use raw::{File, Function, SourceLocation};
use rows::{LineRow, OptionalPart, TextPart};
use tables::Row;

pub mod symbols;

// A text into the string table: its offset.
pub fn insert_string(tables: &mut Tables, t: &[u8]) -> u32
    ensures same { SameTables tables.old tables.new }
    ensures stored { gave result (words_of tables.new) ≡ store t.now (words_of tables.old) }
{
    let got = strings::insert(
        tables.string_bytes,
        tables.strings,
        tables.state.string_bytes,
        tables.state.strings,
        t,
    );
    tables.state.string_bytes = got.bytes;
    tables.state.strings = got.count;
    got.offset
}

// A function into its index set.
pub fn insert_function(tables: &mut Tables, name_offset: u32, entry_pc: u32, lang: u32) -> u32
    ensures same { SameTables tables.old tables.new }
    ensures added { gave result (words_of tables.new) ≡ add_function name_offset entry_pc lang (words_of tables.old) }
{
    let row = Row::from(Function {
        name_offset,
        comp_dir_offset: u32::MAX,
        entry_pc,
        lang,
    });
    let got = tables::index_set::insert_full(tables.functions, tables.state.functions, row);
    tables.state.functions = got.count;
    got.index
}

// A file into its index set: the words of a file row, in its order.
pub fn insert_file(tables: &mut Tables, row: Row) -> u32
    ensures same { SameTables tables.old tables.new }
    ensures added { gave result (words_of tables.new) ≡ add_file_row row (words_of tables.old) }
{
    let got = tables::index_set::insert_full(tables.files, tables.state.files, row);
    tables.state.files = got.count;
    got.index
}

// A call location into its index set.
pub fn insert_call_location(tables: &mut Tables, l: SourceLocation) -> u32
    ensures same { SameTables tables.old tables.new }
    ensures added { gave result (words_of tables.new) ≡ add_call l (words_of tables.old) }
{
    let row = Row::from(l);
    let got = tables::index_set::insert_full(
        tables.call_locations,
        tables.state.call_locations,
        row,
    );
    tables.state.call_locations = got.count;
    got.index
}

// The range that starts at `start` has the location l. Every change of a range is made here.
pub fn insert_range(tables: &mut Tables, start: u32, l: SourceLocation)
    ensures same { SameTables tables.old tables.new }
    ensures put { words_of tables.new ≡ put_range start l (words_of tables.old) }
{
    let got = tables::ranges::put(tables.ranges, tables.state.ranges, start, l);
    tables.state.ranges = got.count;
}

// Whether a start is vacant or holds the empty mapping.
pub fn is_free(ranges: &[u32], count: u32, start: u32) -> bool
    ensures { result ≡ free (get_of ranges.now count start) }
{
    match tables::ranges::get(ranges, count, start) {
        Some(l) => l.is_no_source_location(),
        None => true,
    }
}

// The same of the lent tables, where so many ranges are in use.
pub(crate) fn is_free_in(tables: &Tables, count: u32, start: u32) -> bool
    ensures { result ≡ free (get_of tables.now.ranges.now count start) }
{
    is_free(tables.ranges, count, start)
}

// A location at a start that is vacant or holds the empty mapping: `insert_source_location`.
pub fn insert_source_location(tables: &mut Tables, start: u32, l: SourceLocation)
    ensures same { SameTables tables.old tables.new }
    ensures put { (X : Setup) →
        let before = words_of tables.old in
        words_of tables.new ≡ unless_held input (over_words X) start (put_range start l before) before }
{
    let count = tables.state.ranges;
    if is_free_in(tables, count, start) {
        insert_range(tables, start, l);
    }
}

// Whether a start holds nothing.
fn is_vacant(tables: &Tables, start: u32) -> bool
    ensures { result ≡ vacant (get_of tables.now.ranges.now tables.now.state.ranges start) }
{
    tables::ranges::get(tables.ranges, tables.state.ranges, start).is_none()
}

// An explicit empty mapping at the end of a function or symbol, where the start is vacant.
pub fn insert_end(tables: &mut Tables, end: u32)
    ensures same { SameTables tables.old tables.new }
    ensures put { (X : Setup) → words_of tables.new ≡ put_end input (over_words X) end (words_of tables.old) }
{
    if is_vacant(tables, end) {
        insert_range(tables, end, SourceLocation::NO_SOURCE_LOCATION);
    }
}

// A name as it is stored: undecorated where that is on.
pub fn shown_name<'a>(name: &'a [u8], undecorate: bool) -> &'a [u8]
    ensures { result.now ≡ cond undecorate (undecorated name.now) name.now }
{
    if undecorate {
        return names::undecorate_win_symbol(name);
    }
    name
}

// A function's name, and the function.
pub fn begin_function(
    tables: &mut Tables,
    name: &[u8],
    undecorate: bool,
    entry_pc: u32,
    lang: u32,
) -> u32
    ensures same { SameTables tables.old tables.new }
    ensures begun { gave result (words_of tables.new)
        ≡ begin_named (cond undecorate (undecorated name.now) name.now) entry_pc lang (words_of tables.old) }
{
    let name_offset = insert_string(tables, shown_name(name, undecorate));
    insert_function(tables, name_offset, entry_pc, lang)
}

// A part of the lent text into the string table.
fn insert_part(tables: &mut Tables, text: &[u8], p: TextPart) -> u32
    ensures same { SameTables tables.old tables.new }
    ensures stored { gave result (words_of tables.new) ≡ store (text_of text.now p) (words_of tables.old) }
{
    insert_string(tables, rows::part(text, p))
}

// The part that an optional text has, empty where it is absent.
fn or_empty(p: OptionalPart) -> TextPart
    ensures { result ≡ or_no_part p }
{
    if p.present {
        return p.part;
    }
    TextPart { start: 0, len: 0 }
}

// The same of a text that may be absent.
fn insert_optional(tables: &mut Tables, text: &[u8], p: OptionalPart) -> u32
    ensures same { SameTables tables.old tables.new }
    ensures stored { gave result (words_of tables.new) ≡ store (text_of text.now (or_no_part p)) (words_of tables.old) }
{
    insert_part(tables, text, or_empty(p))
}

// A compilation directory that isn't UTF-8 is absent.
pub fn comp_dir_part(text: &[u8], p: TextPart) -> TextPart
    ensures { result ≡ cond (utf8 (text_of text.now p)) p no_part }
{
    let t = rows::part(text, p);
    if text::utf8::is_utf8(t) {
        return p;
    }
    TextPart { start: 0, len: 0 }
}

// A line's texts into the string table: name, directory, compilation directory, srcsrv name, srcsrv directory, revision.
// The answer is their offsets, in the order of a file row.
pub fn insert_texts(tables: &mut Tables, text: &[u8], comp_dir: TextPart, line: LineRow) -> Row
    ensures same { SameTables tables.old tables.new }
    ensures stored { gave result (words_of tables.new) ≡ store_row (six_of text.now comp_dir line) (words_of tables.old) }
{
    let name = insert_part(tables, text, line.name);
    let directory = insert_part(tables, text, line.directory);
    let dir = insert_part(tables, text, comp_dir);
    let srcsrv_name = insert_optional(tables, text, line.srcsrv_name);
    let srcsrv_dir = insert_optional(tables, text, line.srcsrv_dir);
    let revision = insert_optional(tables, text, line.revision);
    Row::from(File {
        comp_dir_offset: dir,
        directory_offset: directory,
        name_offset: name,
        srcsrv_name_offset: srcsrv_name,
        srcsrv_dir_offset: srcsrv_dir,
        srcsrv_revision_offset: revision,
    })
}

// A line's texts, its file and its location. Line numbers are cut to 32 bits.
pub fn locate_line(
    tables: &mut Tables,
    text: &[u8],
    comp_dir: TextPart,
    line: LineRow,
    function_idx: u32,
    inlined_into_idx: u32,
) -> SourceLocation
    ensures same { SameTables tables.old tables.new }
    ensures located { gave result (words_of tables.new)
        ≡ locate_six (six_of text.now comp_dir line) line.number function_idx inlined_into_idx (words_of tables.old) }
{
    let texts = insert_texts(tables, text, comp_dir, line);
    let file_idx = insert_file(tables, texts);
    SourceLocation {
        file_idx,
        line: (line.number % 4294967296) as u32,
        function_idx,
        inlined_into_idx,
    }
}
