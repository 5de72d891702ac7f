// A function's lines.
ghost use Rattle.std.specs.Prelude.{◌≡◌, cond, List, ℕ, ◌+◌, ◌*◌, ◌/◌, ◌≤◌, ltb, length};
ghost use Rattle.model.specs.Machine.{advance_m};
ghost use Rattle.model.specs.Converter.{Setup};
ghost use Rattle.rows.specs.Columns.{columns, function_in_columns};
ghost use Rattle.memory.specs.Memory.{SameTables, words_of};
ghost use Rattle.steps.specs.Steps.{put_range};
ghost use Rattle.writer.specs.Walk.{refs_from, cursor_at, LinesReady, LinesLeft};

use crate::stack::Pairs;
use memory::Tables;
use raw::SourceLocation;
use rows::{FunctionRow, LineRows};
use slices::{put, word};
use steps::{comp_dir_part, insert_call_location, insert_range, locate_line};

// The call locations of a function: the number of the first one, and the others as pairs of address and number.
#[derive(Clone, Copy)]
pub(crate) struct CallLocations {
    pub first: u32,
    pub others: Pairs,
}

// Where the walk over them stands: the number of the current one, and which of the others is next.
#[derive(Clone, Copy)]
pub(crate) struct CallLocationIter {
    pub current_call_location: u32,
    pub next_call_location: usize,
}

// Finds the call location for a line that starts at `line_range_start`.
fn find_call_location(
    s: &[u32],
    others: Pairs,
    iter: CallLocationIter,
    line_range_start: u32,
) -> CallLocationIter
    requires { (others.at + others.len * 2 ≤ length s.now) × (iter.next_call_location ≤ others.len) }
    ensures { let left = refs_from s.now others iter.next_call_location in
        (result.next_call_location ≤ others.len)
        × (advance_m line_range_start iter.current_call_location left ≡ cursor_at s.now others result) }
{
    let at = others.at;
    let len = others.len;
    let mut current_call_location = iter.current_call_location;
    for next_call_location in iter.next_call_location..len {
        let k = at + next_call_location * 2;
        if line_range_start < word(s, k) {
            return CallLocationIter {
                current_call_location,
                next_call_location,
            };
        }
        current_call_location = word(s, k + 1);
    }
    CallLocationIter {
        current_call_location,
        next_call_location: len,
    }
}

// "insert_range", if the address is not covered by the next inlinee range, which starts at `inline_start`.
fn insert_self_range(
    tables: &mut Tables,
    current_address: u32,
    inline_start: u32,
    source_location: SourceLocation,
)
    ensures same { SameTables tables.old tables.new }
    ensures put { let before = words_of tables.old in
        words_of tables.new ≡ cond (ltb current_address inline_start) (put_range current_address source_location before) before }
{
    if current_address < inline_start {
        insert_range(tables, current_address, source_location);
    }
}

// The lines of a function, whose first line row is `first_line`. Its inlinee ranges are pairs of start and end, sorted by start;
// each that a line covers becomes a pair of start and call location. The answer is how many became call locations for the inlinees.
pub(crate) fn process_lines(
    tables: &mut Tables,
    s: &mut [u32],
    line_rows: LineRows,
    text: &[u8],
    function: FunctionRow,
    first_line: usize,
    function_idx: u32,
    own: CallLocations,
    inlinee_ranges: Pairs,
) -> usize
    requires { LinesReady function first_line own inlinee_ranges (length line_rows.columns64.now / 3) (length s.old) }
    ensures same { SameTables tables.old tables.new }
    ensures left { (X : Setup) (f64 f32 : List ℕ) (i : ℕ) → function ≡ function_in_columns f64 f32 i →
        let k = columns f64 f32 line_rows.entry.columns64.now line_rows.entry.columns32.now text.now in
        LinesLeft X k i first_line function_idx own inlinee_ranges s.old s.new (words_of tables.old) (words_of tables.new) result }
{
    let comp_dir = comp_dir_part(text, function.comp_dir);
    let lines = function.lines;
    let others = own.others;
    let inline_at = inlinee_ranges.at;
    let inline_len = inlinee_ranges.len;

    // Walk three iterators. All of these are already sorted by address.
    let mut call_location_iter = CallLocationIter {
        current_call_location: own.first,
        next_call_location: 0,
    };
    let mut next_inline: usize = 0;

    let mut current_address: u32 = 0;

    // Iterate over the line records.
    for next_line in 0..lines {
        let line = line_rows.row(first_line + next_line as usize);
        let line_range = rows::line_boundaries(line.address, line.has_size, line.size);
        let line_range_start = line_range.start;
        let line_range_end = line_range.end;

        // Skip any lines that start before current_address.
        // Such lines can exist if the debug information is faulty, or if the compiler created
        // multiple identical small "call line" records instead of one combined record
        // covering the entire inlinee range. We can't have different "call lines" for a single
        // inlinee range anyway, so it's fine to skip these.
        let address = (line.address % 4294967296) as u32;
        if address < current_address {
            continue;
        }

        // Find the call location for this line.
        call_location_iter = find_call_location(s, others, call_location_iter, line_range_start);
        let source_location = locate_line(
            tables,
            text,
            comp_dir,
            line,
            function_idx,
            call_location_iter.current_call_location,
        );

        // The current line can be a "self line", or a "call line", or even a mixture.
        //
        // Examples:
        //
        //  a) Just self line:
        //      Line:            |==============|
        //      Inlinee ranges:  (none)
        //
        //      Effect: insert_range
        //
        //  b) Just call line:
        //      Line:            |==============|
        //      Inlinee ranges:  |--------------|
        //
        //      Effect: make_call_location
        //
        //  c) Just call line, for multiple inlined calls:
        //      Line:            |==========================|
        //      Inlinee ranges:  |----------||--------------|
        //
        //      Effect: make_call_location, make_call_location
        //
        //  d) Call line and trailing self line:
        //      Line:            |==================|
        //      Inlinee ranges:  |-----------|
        //
        //      Effect: make_call_location, insert_range
        //
        //  e) Leading self line and also call line:
        //      Line:            |==================|
        //      Inlinee ranges:         |-----------|
        //
        //      Effect: insert_range, make_call_location
        //
        //  f) Interleaving
        //      Line:            |======================================|
        //      Inlinee ranges:         |-----------|    |-------|
        //
        //      Effect: insert_range, make_call_location, insert_range, make_call_location, insert_range
        //
        //  g) Bad debug info
        //      Line:            |=======|
        //      Inlinee ranges:  |-------------|
        //
        //      Effect: make_call_location

        current_address = line_range_start;
        current_address = loop {
            if line_range_end <= current_address {
                break current_address;
            }

            if inline_len <= next_inline {
                // "insert_range"
                insert_range(tables, current_address, source_location);
                break line_range_end;
            }

            // Emit our source location at current_address if current_address is not covered by an inlinee.
            let k = inline_at + next_inline * 2;
            let inline_start = word(s, k);
            insert_self_range(tables, current_address, inline_start, source_location);

            // No further inlinee ranges are overlapping with this line record. Advance to the
            // end of the line record.
            if line_range_end <= inline_start {
                break line_range_end;
            }

            // There is an inlinee range covered by this line record: turn this line into that
            // call's "call line". Make a call location for it and store it in the range's place.
            // "make_call_location"
            let inline_end = word(s, k + 1);
            put(s, k + 1, insert_call_location(tables, source_location));

            // Advance current_address to the end of this inlinee range.
            current_address = inline_end;
            next_inline += 1;
        };
    }
    next_inline
}
