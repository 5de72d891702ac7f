// A new converter over words: its record is twenty words between calls, and the six tables are lent at each call. The exported function passes on what
// this answers.
#![tactic(auto)]

ghost use Rattle.std.specs.Prelude.{◌≡◌, []};
ghost use Rattle.slices.specs.Bytes.{bytes_at};
ghost use Rattle.errors.specs.Numbers.{code_of};
ghost use Rattle.memory.specs.Memory.{SameTables, memory_of};
ghost use Rattle.c_words.specs.Writing.{call_left, begin_call};

use c_words::record::store;
use errors::Refusal;
use memory::Tables;
use raw::{Header, Stored};
use slices::is_set;

// The first 32 bytes, zeros past the end: a header row begins with its debug id.
fn debug_id_of(bytes: &[u8]) -> [u8; 32]
    ensures { result ≡ bytes_at 32 bytes.now 0 }
{
    let header = Header::read(bytes, 0);
    header.debug_id
}

// A new converter; closed where the record has fewer than twenty words.
#[tactic(auto, using(crate::proofs::BeginLaws::begin_cases))]
pub fn begin(
    record: &mut [u32],
    debug_id: &[u8],
    arch: u32,
    undecorate_functions: u32,
    undecorate_symbols: u32,
    tables: &mut Tables,
) -> Result<(), Refusal>
    ensures same { SameTables tables.old tables.new }
    ensures state { tables.new.state ≡ tables.old.state }
    ensures left { call_left (code_of result) «record».new (memory_of tables.new) []
        ≡ begin_call «record».old debug_id.now arch undecorate_functions undecorate_symbols (memory_of tables.old) }
{
    if record.len() < 20 {
        return Err(Refusal::Closed);
    }
    let converter = memory::begin(
        debug_id_of(debug_id),
        arch,
        is_set(undecorate_functions),
        is_set(undecorate_symbols),
        tables,
    );
    store(record, converter);
    Ok(())
}
