// A symbol call, and how every call ends.
#![tactic(auto)]

ghost use Rattle.std.specs.Prelude.{◌≡◌, List, [], ℕ};
ghost use Rattle.slices.specs.Slices.{zeros};
ghost use Rattle.errors.specs.Numbers.{code_of};
ghost use Rattle.memory.specs.Memory.{SameTables, memory_of, words_of};
ghost use Rattle.symbol_call.specs.Calls.{called, finished, symbol_of};

use errors::Refusal;
use memory::{Converter, State, Tables, fits, is_usable};
use rows::OptionalPart;
use steps::symbols::process_symbol;

// Accepted, or 17: all tables zero, and closed. `tables.state` says what is in use of the tables, and stays.
pub fn finish(converter: &mut Converter, tables: &mut Tables) -> Result<(), Refusal>
    ensures same { SameTables tables.old tables.new }
    ensures state { tables.new.state ≡ tables.old.state }
    ensures left { (s : List ℕ) →
        called (code_of result) converter.new (memory_of tables.new) (zeros s) ≡ finished converter.old s (words_of tables.old) }
{
    if fits(tables.state, tables.lengths()) {
        *converter = converter.with_state(true, tables.state);
        return Ok(());
    }
    tables.zero();
    *converter = converter.with_state(false, State::unused());
    Err(Refusal::TableFull)
}

// A symbol. What is in use of the tables is what the record says; `tables.state` counts the steps, and is put back as it was.
pub fn process_symbolic_symbol(
    converter: &mut Converter,
    tables: &mut Tables,
    text: &[u8],
    address: u64,
    size: u64,
    name: OptionalPart,
) -> Result<(), Refusal>
    ensures same { SameTables tables.old tables.new }
    ensures state { tables.new.state ≡ tables.old.state }
    ensures left { called (code_of result) converter.new (memory_of tables.new) []
        ≡ symbol_of converter.old (memory_of tables.old) text.now address size name }
{
    if !is_usable(*converter, tables.lengths()) {
        return Err(Refusal::Closed);
    }
    if !refusals::optional(text, name) {
        return Err(Refusal::InvalidText);
    }
    let held = tables.state;
    tables.state = converter.state;
    process_symbol(
        tables,
        converter.undecorate_symbols,
        text,
        address,
        size,
        name,
    );
    let answer = finish(converter, tables);
    tables.state = held;
    answer
}
