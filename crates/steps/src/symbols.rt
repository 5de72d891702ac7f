// A symbol: writer.rs, `process_symbolic_symbol`.
ghost use Rattle.std.specs.Prelude.{◌≡◌, Bool};
ghost use Rattle.model.specs.Rows.{Text, symbol_end};
ghost use Rattle.model.specs.Machine.{named_symbol_m, convert_symbol_m};
ghost use Rattle.model.specs.Converter.{Setup, input};
ghost use Rattle.memory.specs.Memory.{SameTables, words_of};
ghost use Rattle.steps.specs.Steps.{over_words};
ghost use Rattle.steps.specs.Symbols.{switches, symbol_row_lem, symbol_put, end_put, named_row};

use crate::{insert_end, insert_function, insert_range, insert_string, is_free_in, shown_name};
use memory::Tables;
use rows::OptionalPart;

// The highest address: `u32::MAX`.
const MAX: u64 = 4294967295;

// A symbol's location, where its start is vacant or holds the empty mapping.
fn insert_symbol(tables: &mut Tables, name_offset: u32, address: u32)
    ensures same { SameTables tables.old tables.new }
    ensures put { (X : Setup) → words_of tables.new ≡ symbol_put X name_offset address (words_of tables.old) }
{
    let count = tables.state.ranges;
    if is_free_in(tables, count, address) {
        let function_idx = insert_function(tables, name_offset, address, u32::MAX);
        let location = raw::SourceLocation {
            file_idx: u32::MAX,
            line: 0,
            function_idx,
            inlined_into_idx: u32::MAX,
        };
        insert_range(tables, address, location);
    }
}

// The empty mapping at a symbol's end, if it has a size and the end is representable.
#[tactic(auto, using(crate::proofs::SymbolLaws::symbol_end_cases))]
fn insert_symbol_end(tables: &mut Tables, address: u32, size: u64)
    ensures same { SameTables tables.old tables.new }
    ensures put { (X : Setup) (t : Text) →
        words_of tables.new ≡ end_put X (symbol_end (named_row address size t)) (words_of tables.old) }
{
    if 0 < size && size <= MAX {
        let end = address as u64 + size;
        if end <= MAX {
            insert_end(tables, end as u32);
        }
    }
}

// A symbol that is named, at an address of 32 bits.
fn process_named(tables: &mut Tables, undecorate: bool, name: &[u8], address: u32, size: u64)
    ensures same { SameTables tables.old tables.new }
    ensures converted { (b : Bool) →
        words_of tables.new
        ≡ named_symbol_m input (over_words (switches b undecorate)) (named_row address size name.now) (words_of tables.old) }
{
    let name_offset = insert_string(tables, shown_name(name, undecorate));
    insert_symbol(tables, name_offset, address);
    insert_symbol_end(tables, address, size);
}

// One that is unnamed, or at an address above 32 bits, changes nothing.
pub fn process_symbol(
    tables: &mut Tables,
    undecorate: bool,
    text: &[u8],
    address: u64,
    size: u64,
    name: OptionalPart,
)
    ensures same { SameTables tables.old tables.new }
    ensures converted { (b : Bool) →
        words_of tables.new
        ≡ convert_symbol_m input (over_words (switches b undecorate)) (symbol_row_lem text.now address size name) (words_of tables.old) }
{
    if name.present && address <= MAX {
        process_named(
            tables,
            undecorate,
            rows::part(text, name.part),
            address as u32,
            size,
        );
    }
}
