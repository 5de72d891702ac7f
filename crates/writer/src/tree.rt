// A tree call: `process_symbolic_functions`.
ghost use Rattle.std.specs.Prelude.{◌≡◌, Bool, true, None, cond, [], ℕ, ◌+◌, ◌*◌, ◌%◌, ◌≤◌, eqb, ltb, length};
ghost use Rattle.names.specs.Names.{undecorated};
ghost use Rattle.model.specs.Rows.{MAX};
ghost use Rattle.model.specs.Rows.{FunctionRow as ModelRow};
ghost use Rattle.model.specs.Machine.{entry_m, closing_m};
ghost use Rattle.model.specs.Converter.{Setup, input};
ghost use Rattle.rows.specs.Columns.{columns_of, text_of};
ghost use Rattle.refusals.specs.Refusals.{tree_refusal};
ghost use Rattle.memory.specs.Memory.{SameTables, words_of};
ghost use Rattle.steps.specs.Steps.{gave, begin_named, over_words};
ghost use Rattle.scratch.specs.Scratch.{top_of, kid_spans};
ghost use Rattle.writer.specs.Walk.{calls_of_lem, OwnCalls, GatherReady, Sorted, InProgress, VisitReady};
ghost use Rattle.writer.specs.Walk.{RowLeft, RowConverted, TreeConverted};
ghost use Rattle.steps.specs.Symbols.{switches};

use crate::ahead::read_ahead;
use crate::lines::{CallLocations, process_lines};
use crate::stack::{Pairs, calls_at, gather, set_calls};
use memory::Tables;
use raw::SourceLocation;
use rows::{FunctionRow, FunctionRows, LineRows};
use slices::word;
use steps::{begin_function, insert_end, insert_source_location};

// Functions of size 0, and those whose address is too large for 32 bits, are skipped.
fn is_skipped(q: FunctionRow) -> bool
    ensures { result ≡ cond (eqb q.size 0) true (ltb MAX q.address) }
{
    q.size == 0 || q.address > u32::MAX as u64
}

// The end address, cut to 32 bits.
fn function_end(q: FunctionRow) -> u32
    ensures { result ≡ (q.address + q.size) % 4294967296 }
{
    let low = q.address % 4294967296 + q.size % 4294967296;
    (low % 4294967296) as u32
}

pub(crate) fn entry_pc(q: FunctionRow) -> u32
    ensures { result ≡ cond q.inline MAX (q.address % 4294967296) }
{
    if q.inline {
        u32::MAX
    } else {
        (q.address % 4294967296) as u32
    }
}

// A function's name, and the function.
fn begin_row(tables: &mut Tables, undecorate: bool, text: &[u8], q: FunctionRow) -> u32
    ensures same { SameTables tables.old tables.new }
    ensures begun { let name = text_of text.now q.name in
        gave result (words_of tables.new)
        ≡ begin_named (cond undecorate (undecorated name) name) (cond q.inline MAX (q.address % 4294967296)) q.language (words_of tables.old) }
{
    let name = rows::part(text, q.name);
    begin_function(tables, name, undecorate, entry_pc(q), q.language)
}

// The bare minimum of information at a function's entry, if there isn't any.
fn insert_entry(tables: &mut Tables, q: FunctionRow, function_idx: u32)
    ensures same { SameTables tables.old tables.new }
    ensures put { (X : Setup) (p : ModelRow) →
        p.address ≡ q.address → p.inline ≡ q.inline → q.address ≤ MAX
        → words_of tables.new ≡ entry_m input (over_words X) p function_idx (words_of tables.old) }
{
    if q.inline {
        return;
    }
    let bare = SourceLocation {
        file_idx: u32::MAX,
        line: 0,
        function_idx,
        inlined_into_idx: u32::MAX,
    };
    let entry = (q.address % 4294967296) as u32;
    insert_source_location(tables, entry, bare);
}

// After a function's own lines: its entry, and the empty mapping at its end.
fn close_function(tables: &mut Tables, q: FunctionRow, function_idx: u32)
    ensures same { SameTables tables.old tables.new }
    ensures closed { (X : Setup) (p : ModelRow) →
        p.address ≡ q.address → p.size ≡ q.size → p.inline ≡ q.inline → q.address ≤ MAX
        → words_of tables.new ≡ closing_m input (over_words X) p function_idx (words_of tables.old) }
{
    insert_entry(tables, q, function_idx);
    insert_end(tables, function_end(q));
}

// The call locations of the functions at a depth.
#[derive(Clone, Copy)]
struct Own {
    // The pairs in use end here.
    top: usize,
    // If there is one.
    call_locations: Option<CallLocations>,
}

// Those of depth 0 are no pairs but a value.
fn own_calls(s: &[u32], base: usize, depth: u32) -> Own
    requires { base + top_of s.now depth * 2 ≤ length s.now }
    ensures { OwnCalls s.now base depth result }
{
    if depth == 0 {
        return Own {
            top: 0,
            call_locations: Some(CallLocations {
                first: u32::MAX,
                others: Pairs { at: 0, len: 0 },
            }),
        };
    }
    let c = calls_at(s, depth - 1);
    let start = c.start;
    let len = c.len;
    let top = start + len;
    if len == 0 {
        return Own {
            top,
            call_locations: None,
        };
    }
    let at = base + start * 2;
    let first = word(s, at + 1);
    let others = Pairs {
        at: at + 2,
        len: len - 1,
    };
    Own {
        top,
        call_locations: Some(CallLocations { first, others }),
    }
}

// The inlinee ranges of a function at `depth`, sorted, as pairs from word `at` on; answers how many.
fn sorted_ranges(
    s: &mut [u32],
    at: usize,
    functions: FunctionRows,
    lines: LineRows,
    i: usize,
    first: usize,
    depth: u32,
) -> usize
    requires { GatherReady (columns_of functions lines []) (length s.old) at i first depth }
    ensures { let k = columns_of functions.entry lines.entry [] in
        Sorted at (kid_spans k depth i first) result s.old s.new }
{
    let spans = gather(s, at, functions, lines, i, first, depth);
    let end = at + spans * 2;
    sorting::sort_pairs(&mut s[at..end]);
    spans
}

// A function row, its number, and its first line row.
#[derive(Clone, Copy)]
struct InProgressFunction {
    function: FunctionRow,
    i: usize,
    first_line: usize,
}

// A function row that is visited.
fn visit_row(
    tables: &mut Tables,
    undecorate: bool,
    s: &mut [u32],
    functions: FunctionRows,
    lines: LineRows,
    text: &[u8],
    base: usize,
    row: InProgressFunction,
    top: usize,
    own: CallLocations,
)
    requires { VisitReady (columns_of functions lines text.now) (length s.old) base row top own }
    ensures same { SameTables tables.old tables.new }
    ensures left { (Y : Bool) (a : ℕ) →
        let k = columns_of functions.entry lines.entry text.now in
        let calls = calls_of_lem s.old a own in
        RowLeft (switches undecorate Y) k base row.i row.first_line top calls s.old s.new (words_of tables.old) (words_of tables.new) }
{
    let function = row.function;
    let at = base + top * 2;
    let len = sorted_ranges(
        s,
        at,
        functions,
        lines,
        row.i + 1,
        row.first_line + function.lines as usize,
        function.depth,
    );
    let inlinee_ranges = Pairs { at, len };
    let function_idx = begin_row(tables, undecorate, text, function);
    let callee_call_locations = process_lines(
        tables,
        s,
        lines,
        text,
        function,
        row.first_line,
        function_idx,
        own,
        inlinee_ranges,
    );
    close_function(tables, function, function_idx);
    set_calls(s, function.depth, top, callee_call_locations);
}

// The call locations of a row that is visited: of a row that is skipped, or that no call location was made for, there are none.
fn to_visit(q: FunctionRow, own: Option<CallLocations>) -> Option<CallLocations>
    ensures { result ≡ cond (cond (eqb q.size 0) true (ltb MAX q.address)) None own }
{
    if is_skipped(q) { None } else { own }
}

// A function row; `base` is the word at which the pairs begin.
fn process_row(
    tables: &mut Tables,
    undecorate: bool,
    s: &mut [u32],
    functions: FunctionRows,
    lines: LineRows,
    text: &[u8],
    base: usize,
    row: InProgressFunction,
)
    requires { InProgress (columns_of functions lines text.now) s.old base row }
    ensures same { SameTables tables.old tables.new }
    ensures left { (Y : Bool) →
        let k = columns_of functions.entry lines.entry text.now in
        RowConverted (switches undecorate Y) k base row s.old s.new (words_of tables.old) (words_of tables.new) }
{
    let function = row.function;
    let own = own_calls(s, base, function.depth);
    match to_visit(function, own.call_locations) {
        Some(call_locations) => visit_row(
            tables,
            undecorate,
            s,
            functions,
            lines,
            text,
            base,
            row,
            own.top,
            call_locations,
        ),
        None => set_calls(s, function.depth, own.top, 0),
    }
}

// All function rows, in preorder, after a look ahead.
pub(crate) fn process_rows(
    tables: &mut Tables,
    undecorate: bool,
    s: &mut [u32],
    functions: FunctionRows,
    lines: LineRows,
    text: &[u8],
)
    requires { tree_refusal (columns_of functions lines text.now) (length s.old) ≡ 0 }
    ensures same { SameTables tables.old tables.new }
    ensures converted { (Y : Bool) →
        let k = columns_of functions.entry lines.entry text.now in
        TreeConverted (switches undecorate Y) k (words_of tables.old) (words_of tables.new) }
{
    read_ahead(tables, undecorate, s, functions, text);
    let base = functions.len() * 4;
    let mut first_line: usize = 0;
    for i in 0..functions.len() {
        let function = functions.row(i);
        let row = InProgressFunction {
            function,
            i,
            first_line,
        };
        process_row(tables, undecorate, s, functions, lines, text, base, row);
        first_line += function.lines as usize;
    }
}
