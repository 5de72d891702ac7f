// The written file, and its length as a word.
ghost use Rattle.std.specs.Prelude.{◌≡◌};
ghost use Rattle.errors.specs.Numbers.{code_of};
ghost use Rattle.memory.specs.Memory.{memory_in};
ghost use Rattle.c_words.specs.Record.{len_words};
ghost use Rattle.c_words.specs.Writing.{left_file, serialize_call};

use crate::record::load;
use errors::{Refusal, code_of};
use memory::Lent;
use slices::put;

// The length of a file that was written.
#[tactic(auto, unfolding(crate::specs::Record::len_words))]
pub fn put_len(len: &mut [u64], code: u32, n: usize)
    ensures { len.new ≡ len_words code n len.old }
{
    if code == 0 {
        put(len, 0, n as u64);
    }
}

// The file, and its length.
pub fn serialize(
    record: &[u32],
    lent: Lent,
    out: &mut [u8],
    len: &mut [u64],
) -> Result<usize, Refusal>
    ensures { left_file (code_of result) out.new len.new ≡ serialize_call «record».now (memory_in lent.entry) out.old len.old }
{
    let written = serialize::serialize(load(record), lent, out);
    let code = code_of(written);
    let n = written.unwrap_or(0);
    put_len(len, code, n);
    written
}
