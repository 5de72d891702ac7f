// The written file: writer.rs, `serialize`, from the lent tables into a lent output.
#![tactic(auto)]

ghost use Rattle.std.specs.Prelude.{◌≡◌, ℕ, ◌+◌, ◌*◌, ◌≤◌, ◌<◌, List, ◌++◌, length, take};
ghost use Rattle.std.proofs.lemmas.List.Edits.{sets};
ghost use Rattle.slices.specs.Bytes.{table_bytes};
ghost use Rattle.tables.specs.Table.{rows_of};
ghost use Rattle.tables.specs.declared.Row.{Row};
ghost use Rattle.serialize.specs.Sections.{location_size, range_size, entry_size, entries, entry_row, entries_at};
ghost use Rattle.serialize.specs.Sections.{in_order, range_sections};
ghost use Rattle.raw.specs.Rows.{version_info_bytes, header_bytes};
ghost use Rattle.raw.specs.Head.{version_info, padding};
ghost use Rattle.errors.specs.Numbers.{code_of};
ghost use Rattle.memory.specs.Memory.{memory_in};
ghost use Rattle.serialize.specs.File.{header_of, layout_of, written_file, Ready, wrote, len_of, serialize_of};

use errors::Refusal;
use memory::{Converter, Lent, State, is_usable};
use raw::{File, Function, Header, Range, SourceLocation, Stored, VersionInfo};
use slices::{copy, load_u32, store_u32};
use tables::Row;
use tables::kinds::RangeRow;

// Magic, version and header; then the rows.
const HEAD_SIZE: usize = VersionInfo::SIZE + Header::SIZE;

// An entry, while the ranges are sorted: a start and a row number.
const ENTRY_SIZE: usize = 8;

// The file of what was converted: it answers its length, and its bytes stand at the front of the output. The converter is as it was, and may write again.
pub fn serialize(converter: Converter, lent: Lent, out: &mut [u8]) -> Result<usize, Refusal>
    ensures { wrote (code_of result) (len_of result) out.new ≡ serialize_of converter (memory_in lent.entry) out.old }
{
    if !is_usable(converter, lent.lengths()) {
        return Err(Refusal::Closed);
    }
    let at = lay_out(converter.state);
    let len = at.len;
    if out.len() < len {
        return Err(Refusal::OutputTooShort);
    }
    write_sections(out, converter, lent);
    Ok(len)
}

// The file, from the front of the output on.
fn write_sections(out: &mut [u8], converter: Converter, lent: Lent)
    requires { Ready converter (length lent.string_bytes.now) (length out.old) }
    ensures { out.new ≡ sets out.old 0 (written_file converter (memory_in lent.entry)) }
{
    let state = converter.state;
    let at = lay_out(state);
    write_head(out, converter);
    write_rows(out, HEAD_SIZE, lent.files, state.files, File::from);
    write_rows(
        out,
        at.functions,
        lent.functions,
        state.functions,
        Function::from,
    );
    write_rows(
        out,
        at.call_locations,
        lent.call_locations,
        state.call_locations,
        SourceLocation::from,
    );
    write_sorted(out, at.locations, lent.ranges, state.ranges);
    write_padding(out, at.padding, state.ranges);
    write_texts(out, at.texts, lent.string_bytes, state.string_bytes);
}

// Where the sections begin, and the file's length. The files follow the head.
#[derive(Clone, Copy)]
struct Layout {
    functions: usize,
    call_locations: usize,
    locations: usize,
    padding: usize,
    texts: usize,
    len: usize,
}

// The layout of the file.
fn lay_out(state: State) -> Layout
    ensures { result ≡ layout_of state state.ranges }
{
    let n = state.ranges as usize;
    let functions = HEAD_SIZE + (state.files as usize) * File::SIZE;
    let call_locations = functions + (state.functions as usize) * Function::SIZE;
    let locations = call_locations + (state.call_locations as usize) * SourceLocation::SIZE;
    let padding = locations + n * SourceLocation::SIZE + n * Range::SIZE;
    let texts = padding + n % 2 * 4;
    let len = texts + (state.string_bytes as usize);
    Layout {
        functions,
        call_locations,
        locations,
        padding,
        texts,
        len,
    }
}

// Magic, version and header.
fn write_head(out: &mut [u8], converter: Converter)
    requires { converter.state.call_locations + converter.state.ranges < 4294967296 }
    ensures { out.new ≡ sets out.old 0
        (version_info_bytes version_info ++ header_bytes (header_of converter converter.state.ranges)) }
{
    let state = converter.state;
    let num_source_locations = state.call_locations + state.ranges;
    let debug_id = converter.debug_id;
    let reserved = [0u8; 14];
    let version_info = VersionInfo {
        magic: raw::SYMCACHE_MAGIC,
        version: 9,
    };
    let header = Header {
        debug_id,
        arch: converter.arch,
        num_files: state.files,
        num_functions: state.functions,
        num_source_locations,
        num_ranges: state.ranges,
        string_bytes: state.string_bytes,
        variable_header: 0,
        reserved,
    };
    version_info.write(out, 0);
    header.write(out, VersionInfo::SIZE);
}

// The first `count` rows of a table from `at` on, each as `of` makes it.
fn write_rows<T: Stored, F: Fn(Row) -> T>(
    out: &mut [u8],
    at: usize,
    table: &[u32],
    count: u32,
    of: F,
)
    requires callable { F.IsAlwaysCallable of }
    requires room { at + count * T.SIZE ≤ length out.old }
    ensures { (bytes : Row → List ℕ) → ((r : Row) (x : T) → F.post of r x → T.bytes x ≡ bytes r)
        → ((r : Row) → length (bytes r) ≡ T.SIZE)
        → out.new ≡ sets out.old at (table_bytes bytes (rows_of table.now count)) }
{
    for i in 0..count {
        let row = of(tables::row_at(table, i));
        row.write(out, at + (i as usize) * T::SIZE);
    }
}

// The locations of the ranges from `at` on and then their starts, ascending. The entries are sorted in the second half of the room for the locations.
fn write_sorted(out: &mut [u8], at: usize, ranges: &[u32], count: u32)
    requires { at + count * (location_size + range_size) ≤ length out.old }
    ensures { let ascending = in_order ranges.now count in
        out.new ≡ sets out.old at (range_sections ranges.now ascending) }
{
    let entries = at + (count as usize) * ENTRY_SIZE;
    let starts = at + (count as usize) * SourceLocation::SIZE;
    write_entries(out, entries, ranges, count);
    sorting::sort_entries(&mut out[entries..starts]);
    write_ranges(out, at, ranges, count);
}

// An entry: a range's start and its row number, eight bytes.
fn write_entry(out: &mut [u8], at: usize, start: u32, row: u32)
    requires { at + entry_size ≤ length out.old }
    ensures { out.new ≡ sets out.old at (entry_row (record { from = start; to = row })) }
{
    store_u32(out, at, start);
    store_u32(out, at + Range::SIZE, row);
}

// The entries of the ranges from `at` on.
fn write_entries(out: &mut [u8], at: usize, ranges: &[u32], count: u32)
    requires { at + count * entry_size ≤ length out.old }
    ensures { out.new ≡ sets out.old at (table_bytes entry_row (entries 0 (rows_of ranges.now count))) }
{
    for i in 0..count {
        let start = RangeRow::from(tables::row_at(ranges, i)).start;
        write_entry(out, at + (i as usize) * ENTRY_SIZE, start, i);
    }
}

// The locations of the ranges from `at` on, then their starts, in the order of the entries. There are `count` of them, in the second half of the room for
// the locations: location i ends where entry i does at the latest, and nothing is read that was written over.
fn write_ranges(out: &mut [u8], at: usize, ranges: &[u32], count: u32)
    requires { at + count * (location_size + range_size) ≤ length out.old }
    ensures { let read = entries_at count out.old (at + count * entry_size) in
        out.new ≡ sets out.old at (range_sections ranges.now read) }
{
    let entries = at + (count as usize) * ENTRY_SIZE;
    let starts = at + (count as usize) * SourceLocation::SIZE;
    for k in 0..count as usize {
        let start = load_u32(out, entries + k * ENTRY_SIZE);
        let row = load_u32(out, entries + k * ENTRY_SIZE + Range::SIZE);
        let l = RangeRow::from(tables::row_at(ranges, row)).location;
        Range(start).write(out, starts + k * Range::SIZE);
        l.write(out, at + k * SourceLocation::SIZE);
    }
}

// Zeros from the end of so many range starts up to a multiple of 8: four or none.
fn write_padding(out: &mut [u8], at: usize, count: u32)
    ensures { out.new ≡ sets out.old at (padding (count * range_size)) }
{
    if count % 2 == 1 {
        store_u32(out, at, 0);
    }
}

// The first `n` bytes of the texts from `at` on.
fn write_texts(out: &mut [u8], at: usize, texts: &[u8], n: u32)
    requires { (n ≤ length texts.now) × (at + n ≤ length out.old) }
    ensures { out.new ≡ sets out.old at (take n texts.now) }
{
    let end = n as usize;
    copy(out, at, &texts[..end]);
}
