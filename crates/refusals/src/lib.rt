// What a tree call refuses its rows with, from the rows alone.
#![tactic(auto)]

ghost use Rattle.std.specs.Prelude.{◌≡◌, ◌/◌, ◌≤◌, List, ℕ, length};
ghost use Rattle.errors.specs.Numbers.{code_of};
ghost use Rattle.rows.specs.Columns.{columns_of, function_in_columns, line_in_columns};
ghost use Rattle.refusals.specs.Refusals.{
  each,
  total,
  function_lengths?,
  line_lengths?,
  depth?,
  shallow_row?,
  shaped_with?,
  inside?,
  readable?,
  optional?,
  function_texts?,
  line_texts?,
  end?,
  refusal_with,
  tree_refusal,
};

use errors::Refusal;
use rows::{FunctionRow, FunctionRows, LineRow, LineRows, OptionalPart, TextPart, part};
use text::utf8::is_utf8;

// The depth of the deepest function row that is taken, named as in include/symcache.h.
pub const SYMCACHE_MAX_DEPTH: u32 = 41;

// Invalid rows: the lengths of the function rows' slices are those of whole rows, and agree.
fn function_lengths(functions: FunctionRows) -> bool
    ensures { result ≡ function_lengths? functions.entry.columns64.now functions.entry.columns32.now }
{
    functions.columns64.len() % 2 == 0
        && functions.columns32.len() % 8 == 0
        && functions.columns32.len() / 8 == functions.len()
}

// Invalid rows: the same of the line rows' slices.
fn line_lengths(lines: LineRows) -> bool
    ensures { result ≡ line_lengths? lines.entry.columns64.now lines.entry.columns32.now }
{
    lines.columns64.len() % 3 == 0
        && lines.columns32.len() % 14 == 0
        && lines.columns32.len() / 14 == lines.len()
}

// Invalid rows: the first depth is 0, and each later one is above 0 and at most its predecessor's plus 1.
fn depths(functions: FunctionRows) -> bool
    requires { 1 ≤ length functions.columns64.now / 2 }
    ensures { let row = function_in_columns functions.entry.columns64.now functions.entry.columns32.now in
        result ≡ each (depth? (λ (i : ℕ). (row i).depth)) (length functions.entry.columns64.now / 2) }
{
    if functions.row(0).depth != 0 {
        return false;
    }
    let mut most: u64 = 1;
    for i in 1..functions.len() {
        let depth = u64::from(functions.row(i).depth);
        if depth == 0 || most < depth {
            return false;
        }
        most = depth + 1;
    }
    true
}

// Invalid rows: the line counts of all function rows together.
fn line_count(functions: FunctionRows) -> usize
    requires { length functions.columns64.now / 2 ≤ 65536 }
    ensures { let row = function_in_columns functions.entry.columns64.now functions.entry.columns32.now in
        result ≡ total (λ (i : ℕ). (row i).lines) (length functions.entry.columns64.now / 2) }
{
    let mut sum: usize = 0;
    for i in 0..functions.len() {
        sum += functions.row(i).lines as usize;
    }
    sum
}

// Invalid rows: the function rows are a tree's, and its line rows are that many.
fn shaped(functions: FunctionRows, lines: usize) -> bool
    ensures { result ≡ shaped_with? functions.entry.columns64.now functions.entry.columns32.now lines }
{
    let n = functions.len();
    if !function_lengths(functions) {
        return false;
    }
    if n == 0 || 65536 < n {
        return false;
    }
    depths(functions) && line_count(functions) == lines
}

// Too deep: no function row lies deeper than 41, also of those that will be skipped.
fn shallow(functions: FunctionRows) -> bool
    ensures { let row = function_in_columns functions.entry.columns64.now functions.entry.columns32.now in
        result ≡ each (λ (i : ℕ). shallow_row? (row i)) (length functions.entry.columns64.now / 2) }
{
    (0..functions.len()).all(|i| functions.row(i).depth <= SYMCACHE_MAX_DEPTH)
}

// Invalid text: the part lies inside the text.
fn inside(text: &[u8], p: TextPart) -> bool
    ensures { result ≡ inside? text.now p }
{
    p.start as usize + p.len as usize <= text.len()
}

// Invalid text: the part lies inside the text and is UTF-8.
fn readable(text: &[u8], p: TextPart) -> bool
    ensures { result ≡ readable? text.now p }
{
    inside(text, p) && is_utf8(part(text, p))
}

// Invalid text: an absent text is not looked at. A symbol's name is tested by this too.
#[tactic(auto, using(crate::proofs::Laws::optional_cases))]
pub fn optional(text: &[u8], o: OptionalPart) -> bool
    ensures { result ≡ optional? text.now o }
{
    !o.present || readable(text, o.part)
}

// Invalid text: the texts of a function row. A compilation directory may be any bytes.
fn function_texts(text: &[u8], q: FunctionRow) -> bool
    ensures { result ≡ function_texts? text.now q }
{
    readable(text, q.name) && inside(text, q.comp_dir)
}

// Invalid text: the texts of a line row.
pub fn line_texts(text: &[u8], l: LineRow) -> bool
    ensures { result ≡ line_texts? text.now l }
{
    readable(text, l.name)
        && readable(text, l.directory)
        && optional(text, l.srcsrv_name)
        && optional(text, l.srcsrv_dir)
        && optional(text, l.revision)
}

// Invalid text: the texts of all function rows, also of those that will be skipped.
fn functions_texts(functions: FunctionRows, text: &[u8]) -> bool
    ensures { let row = function_in_columns functions.entry.columns64.now functions.entry.columns32.now in
        result ≡ each (λ (i : ℕ). function_texts? text.now (row i)) (length functions.entry.columns64.now / 2) }
{
    (0..functions.len()).all(|i| function_texts(text, functions.row(i)))
}

// Invalid text: the texts of all line rows.
fn lines_texts(lines: LineRows, text: &[u8]) -> bool
    ensures { let row = line_in_columns lines.entry.columns64.now lines.entry.columns32.now in
        result ≡ each (λ (j : ℕ). line_texts? text.now (row j)) (length lines.entry.columns64.now / 3) }
{
    (0..lines.len()).all(|j| line_texts(text, lines.row(j)))
}

// Address overflow: address plus size stays below 2^64.
fn ends_low(q: FunctionRow) -> bool
    ensures { result ≡ end? q }
{
    q.size <= u64::MAX - q.address
}

// Address overflow: the same of all function rows.
fn ends(functions: FunctionRows) -> bool
    ensures { let row = function_in_columns functions.entry.columns64.now functions.entry.columns32.now in
        result ≡ each (λ (i : ℕ). end? (row i)) (length functions.entry.columns64.now / 2) }
{
    (0..functions.len()).all(|i| ends_low(functions.row(i)))
}

// What a tree call refuses its rows with, where of its line rows their count is given and whether their texts are in order. The tests are made in this order.
pub fn refusal_with(
    functions: FunctionRows,
    lines: usize,
    line_texts: bool,
    text: &[u8],
    scratch: usize,
) -> Result<(), Refusal>
    ensures { let f64 = functions.entry.columns64.now in
        let f32 = functions.entry.columns32.now in
        code_of result ≡ refusal_with f64 f32 lines line_texts text.now scratch }
{
    if !shaped(functions, lines) {
        return Err(Refusal::InvalidRows);
    }
    if !shallow(functions) {
        return Err(Refusal::TooDeep);
    }
    if !functions_texts(functions, text) || !line_texts {
        return Err(Refusal::InvalidText);
    }
    if !ends(functions) {
        return Err(Refusal::AddressOverflow);
    }
    // four words of scratch memory for each function and line row
    if scratch / 4 < functions.len().saturating_add(lines) {
        return Err(Refusal::ScratchTooSmall);
    }
    Ok(())
}

// The same of rows in columns.
pub fn refusal(
    functions: FunctionRows,
    lines: LineRows,
    text: &[u8],
    scratch: usize,
) -> Result<(), Refusal>
    ensures { code_of result ≡ tree_refusal (columns_of functions.entry lines.entry text.now) scratch }
{
    if !line_lengths(lines) {
        return Err(Refusal::InvalidRows);
    }
    refusal_with(
        functions,
        lines.len(),
        lines_texts(lines, text),
        text,
        scratch,
    )
}
