// The public call with a tree. That with a symbol is crate symbol_call's, a beginning `memory::begin`.
ghost use Rattle.std.specs.Prelude.{◌≡◌};
ghost use Rattle.errors.specs.Numbers.{code_of};
ghost use Rattle.memory.specs.Memory.{SameTables, memory_of};
ghost use Rattle.rows.specs.Columns.{columns_of};
ghost use Rattle.symbol_call.specs.Calls.{called};
ghost use Rattle.writer.specs.Calls.{tree_of};

use crate::tree::process_rows;
use errors::Refusal;
use memory::{Converter, Tables, is_usable};
use rows::{FunctionRows, LineRows};
use slices::zero;
use symbol_call::finish;

// A tree: function rows in preorder, their line rows, and one lent text. What is in use of the tables is what the record says; `tables.state` counts
// the steps, and is put back as it was.
pub fn process_symbolic_function(
    converter: &mut Converter,
    tables: &mut Tables,
    scratch: &mut [u32],
    functions: FunctionRows,
    lines: LineRows,
    text: &[u8],
) -> Result<(), Refusal>
    ensures same { SameTables tables.old tables.new }
    ensures state { tables.new.state ≡ tables.old.state }
    ensures left { called (code_of result) converter.new (memory_of tables.new) scratch.new
        ≡ tree_of converter.old (memory_of tables.old) scratch.old (columns_of functions.entry lines.entry text.now) }
{
    if !is_usable(*converter, tables.lengths()) {
        return Err(Refusal::Closed);
    }
    refusals::refusal(functions, lines, text, scratch.len())?;
    let held = tables.state;
    tables.state = converter.state;
    process_rows(
        tables,
        converter.undecorate_functions,
        scratch,
        functions,
        lines,
        text,
    );
    zero(scratch);
    *converter = converter.with_clamped(lines.clamped());
    let answer = finish(converter, tables);
    tables.state = held;
    answer
}
