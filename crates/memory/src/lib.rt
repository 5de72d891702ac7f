// What the converter keeps between calls: its record, and the lent tables with how much of each is in use.
// Which tables there are stands here: `State`, `Tables`, `Lent`, `Lengths`, `Lent::lengths`, `Tables::lengths`, `Tables::zero`, and `Memory` of specs/.
#![tactic(auto)]

ghost use Rattle.std.specs.Prelude.{◌≡◌, leb};
ghost use Rattle.tables.specs.Table.{capacity_of};
ghost use Rattle.strings.specs.Strings.{text_capacity_of};
ghost use Rattle.memory.specs.Memory.{SameTables, memory_of, memory_in, lent, zeroed};
ghost use Rattle.memory.specs.Record.{
  fits_in_lem,
  usable_in,
  unused,
  begun,
  while_open,
  with_state,
  capped,
  with_clamped,
  clamped_lines_lem,
  begin_of,
};

use slices::zero;

// How much of each lent table is in use.
#[derive(Clone, Copy, PartialEq, Eq)]
pub struct State {
    pub string_bytes: u32,
    pub strings: u32,
    pub files: u32,
    pub functions: u32,
    pub call_locations: u32,
    pub ranges: u32,
}

// The converter's record: what it was begun with, whether it is open, how much of the lent tables is in use, and how many line rows of accepted trees
// had addresses that were cut back.
#[derive(Clone, Copy, PartialEq, Eq)]
pub struct Converter {
    pub debug_id: [u8; 32],
    pub arch: u32,
    pub undecorate_functions: bool,
    pub undecorate_symbols: bool,
    pub open: bool,
    pub state: State,
    pub clamped_lines: u64,
}

// The lent tables during a call, and how much of each is in use.
#[derive(Drop)]
pub struct Tables<'a> {
    pub state: State,
    pub string_bytes: &'a mut [u8],
    pub strings: &'a mut [u32],
    pub files: &'a mut [u32],
    pub functions: &'a mut [u32],
    pub call_locations: &'a mut [u32],
    pub ranges: &'a mut [u32],
}

// The lent tables, to be read alone.
#[derive(Clone, Copy)]
pub struct Lent<'a> {
    pub string_bytes: &'a [u8],
    pub strings: &'a [u32],
    pub files: &'a [u32],
    pub functions: &'a [u32],
    pub call_locations: &'a [u32],
    pub ranges: &'a [u32],
}

// The lengths of the lent tables: of the texts in bytes, of the others in words.
#[derive(Clone, Copy)]
pub struct Lengths {
    pub string_bytes: usize,
    pub strings: usize,
    pub files: usize,
    pub functions: usize,
    pub call_locations: usize,
    pub ranges: usize,
}

// Capacities

impl Lent<'_> {
    pub fn lengths(self) -> Lengths
        ensures { result ≡ lent (memory_in self.entry) }
    {
        Lengths {
            string_bytes: self.string_bytes.len(),
            strings: self.strings.len(),
            files: self.files.len(),
            functions: self.functions.len(),
            call_locations: self.call_locations.len(),
            ranges: self.ranges.len(),
        }
    }
}

impl Tables<'_> {
    // The same tables, to be read alone.
    pub fn lent(&self) -> Lent<'_>
        ensures { memory_in result ≡ memory_of self.now }
    {
        Lent {
            string_bytes: &*self.string_bytes,
            strings: &*self.strings,
            files: &*self.files,
            functions: &*self.functions,
            call_locations: &*self.call_locations,
            ranges: &*self.ranges,
        }
    }

    pub fn lengths(&self) -> Lengths
        ensures { result ≡ lent (memory_of self.now) }
    {
        self.lent().lengths()
    }

    // All lent memory becomes zero.
    pub fn zero(&mut self)
        ensures same { SameTables self.old self.new }
        ensures state { self.new.state ≡ self.old.state }
        ensures zeroed { memory_of self.new ≡ zeroed (memory_of self.old) }
    {
        zero(self.string_bytes);
        zero(self.strings);
        zero(self.files);
        zero(self.functions);
        zero(self.call_locations);
        zero(self.ranges);
    }
}

// Whether a count is at most the number of rows that a table of so many words has room for.
#[tactic(auto, using(crate::proofs::Laws::capacity_is))]
fn within(count: u32, words: usize) -> bool
    ensures { result ≡ leb count (capacity_of words) }
{
    let rows = (words / 8).min(16777216);
    count as usize <= rows
}

// The same of text bytes.
#[tactic(auto, using(crate::proofs::Laws::text_capacity_is))]
fn text_within(count: u32, bytes: usize) -> bool
    ensures { result ≡ leb count (text_capacity_of bytes) }
{
    let room = bytes.min(268435456);
    count as usize <= room
}

// Whether no count is above the capacity of its table.
#[tactic(auto, unfolding(crate::specs::Record::fits_in_lem))]
pub fn fits(state: State, lent: Lengths) -> bool
    ensures { result ≡ fits_in_lem state lent }
{
    text_within(state.string_bytes, lent.string_bytes)
        && within(state.strings, lent.strings)
        && within(state.files, lent.files)
        && within(state.functions, lent.functions)
        && within(state.call_locations, lent.call_locations)
        && within(state.ranges, lent.ranges)
}

// 19: whether the converter is open and no count is above the capacity of its table.
#[tactic(auto, unfolding(crate::specs::Record::usable_in))]
pub fn is_usable(c: Converter, lent: Lengths) -> bool
    ensures { result ≡ usable_in c lent }
{
    c.open && fits(c.state, lent)
}

// The record

impl State {
    // Nothing is in use.
    pub fn unused() -> State
        ensures { result ≡ unused }
    {
        State {
            string_bytes: 0,
            strings: 0,
            files: 0,
            functions: 0,
            call_locations: 0,
            ranges: 0,
        }
    }
}

impl Converter {
    // The record of a new converter.
    fn opened(
        debug_id: [u8; 32],
        arch: u32,
        undecorate_functions: bool,
        undecorate_symbols: bool,
    ) -> Converter
        ensures { result ≡ begun debug_id arch undecorate_functions undecorate_symbols }
    {
        Converter {
            debug_id,
            arch,
            undecorate_functions,
            undecorate_symbols,
            open: true,
            state: State::unused(),
            clamped_lines: 0,
        }
    }

    // The record after a call; while it is closed no line row counts.
    pub fn with_state(self, open: bool, state: State) -> Converter
        ensures { result ≡ with_state self «open» state }
    {
        let clamped_lines = if open { self.clamped_lines } else { 0 };
        Converter {
            open,
            state,
            clamped_lines,
            ..self
        }
    }

    // The record with so many more line rows counted as clamped; the count stays at 2^64 - 1.
    pub fn with_clamped(self, lines: u64) -> Converter
        ensures { result ≡ with_clamped self lines }
    {
        Converter {
            clamped_lines: self.clamped_lines.saturating_add(lines),
            ..self
        }
    }

    // How many line rows of the accepted trees had addresses that were cut back to u32::MAX; 0 while the converter is closed.
    #[tactic(auto, unfolding(crate::specs::Record::clamped_lines_lem))]
    pub fn clamped_lines(self) -> u64
        ensures { result ≡ clamped_lines_lem self }
    {
        if self.open { self.clamped_lines } else { 0 }
    }
}

// A new converter: its record has nothing in use, and the lent tables are zero. `tables.state` stays.
#[tactic(auto, unfolding(crate::specs::Record::begin_of))]
pub fn begin(
    debug_id: [u8; 32],
    arch: u32,
    undecorate_functions: bool,
    undecorate_symbols: bool,
    tables: &mut Tables,
) -> Converter
    ensures same { SameTables tables.old tables.new }
    ensures state { tables.new.state ≡ tables.old.state }
    ensures begun { (result, memory_of tables.new) ≡ begin_of debug_id arch undecorate_functions undecorate_symbols (memory_of tables.old) }
{
    tables.zero();
    Converter::opened(debug_id, arch, undecorate_functions, undecorate_symbols)
}
