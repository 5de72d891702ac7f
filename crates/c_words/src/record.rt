// The converter's record as twenty words: the debug id in eight, four bytes a word, little-endian; arch; the two switches; what is in use of the
// six tables; the count of clamped line rows, low word and high; whether it is open.
ghost use Rattle.std.specs.Prelude.{◌≡◌, ◌*◌, get_or, set};
ghost use Rattle.std.proofs.lemmas.List.Edits.{sets};
ghost use Rattle.slices.specs.Bytes.{le, le_at};
ghost use Rattle.c_reading.specs.Stored.{stored};
ghost use Rattle.c_words.specs.Record.{
  id_of,
  state_of,
  clamped_of,
  converter_of,
  id_words,
  count_words,
  switch_words,
  clamped_words,
  words_of,
  kept,
};
ghost use Rattle.c_words.specs.Writing.{clamped_call};

use memory::{Converter, State};
use slices::{flag, is_set, load_u32, put, store_u32, word};

// Reading it

// Four bytes a word.
fn debug_id(record: &[u32]) -> [u8; 32]
    ensures { result ≡ id_of «record».now }
{
    let mut id = [0u8; 32];
    put_word(&mut id, record, 0);
    put_word(&mut id, record, 1);
    put_word(&mut id, record, 2);
    put_word(&mut id, record, 3);
    put_word(&mut id, record, 4);
    put_word(&mut id, record, 5);
    put_word(&mut id, record, 6);
    put_word(&mut id, record, 7);
    id
}

// Word k of the record, as four bytes.
fn put_word(id: &mut [u8], record: &[u32], k: u32)
    ensures { id.new ≡ sets id.old (4 * k) (le 4 (get_or «record».now k 0)) }
{
    let j = k as usize;
    store_u32(id, 4 * j, word(record, j));
}

fn state(record: &[u32]) -> State
    ensures { result ≡ state_of «record».now }
{
    State {
        string_bytes: word(record, 11),
        strings: word(record, 12),
        files: word(record, 13),
        functions: word(record, 14),
        call_locations: word(record, 15),
        ranges: word(record, 16),
    }
}

// The count of clamped line rows.
fn clamped(record: &[u32]) -> u64
    ensures { result ≡ clamped_of «record».now }
{
    let low = word(record, 17) as u64;
    let high = word(record, 18) as u64;
    high * 4294967296 + low
}

// A record of fewer than twenty words is closed: its last word is read as 0.
pub fn load(record: &[u32]) -> Converter
    ensures { result ≡ converter_of «record».now }
{
    let debug_id = debug_id(record);
    let state = state(record);
    let clamped_lines = clamped(record);
    Converter {
        debug_id,
        arch: word(record, 8),
        undecorate_functions: is_set(word(record, 9)),
        undecorate_symbols: is_set(word(record, 10)),
        open: is_set(word(record, 19)),
        state,
        clamped_lines,
    }
}

// The count that is handed out: that of an open record, and 0 of a closed one, whatever its words say.
pub fn clamped_lines(record: &[u32]) -> u64
    ensures { result ≡ clamped_call «record».now }
{
    load(record).clamped_lines()
}

// Storing it

// Word k of the debug id.
fn put_id_word(record: &mut [u32], id: &[u8], k: u32)
    ensures { «record».new ≡ set «record».old k (le_at 4 id.now (4 * k)) }
{
    let j = k as usize;
    let w = load_u32(id, 4 * j);
    put(record, j, w);
}

fn put_id(record: &mut [u32], id: &[u8])
    ensures { «record».new ≡ stored (id_words id.now) «record».old }
{
    put_id_word(record, id, 0);
    put_id_word(record, id, 1);
    put_id_word(record, id, 2);
    put_id_word(record, id, 3);
    put_id_word(record, id, 4);
    put_id_word(record, id, 5);
    put_id_word(record, id, 6);
    put_id_word(record, id, 7);
}

fn put_counts(record: &mut [u32], s: State)
    ensures { «record».new ≡ sets «record».old 11 (count_words s) }
{
    put(record, 11, s.string_bytes);
    put(record, 12, s.strings);
    put(record, 13, s.files);
    put(record, 14, s.functions);
    put(record, 15, s.call_locations);
    put(record, 16, s.ranges);
}

fn put_switches(record: &mut [u32], c: Converter)
    ensures { «record».new ≡ sets «record».old 8 (switch_words c) }
{
    put(record, 8, c.arch);
    put(record, 9, flag(c.undecorate_functions));
    put(record, 10, flag(c.undecorate_symbols));
}

fn put_clamped(record: &mut [u32], n: u64)
    ensures { «record».new ≡ sets «record».old 17 (clamped_words n) }
{
    put(record, 17, (n % 4294967296) as u32);
    put(record, 18, (n / 4294967296) as u32);
}

pub fn store(record: &mut [u32], c: Converter)
    ensures { «record».new ≡ stored (words_of c) «record».old }
{
    let id = c.debug_id;
    let state = c.state;
    put_id(record, &id);
    put_switches(record, c);
    put_counts(record, state);
    put_clamped(record, c.clamped_lines);
    put(record, 19, flag(c.open));
}

// Accepted calls and 17, a full table, store it; no other refusal does.
#[tactic(auto, unfolding(crate::specs::Record::kept))]
pub fn store_answer(record: &mut [u32], code: u32, c: Converter)
    ensures { «record».new ≡ kept code c «record».old }
{
    if code == 0 {
        store(record, c);
        return;
    }
    if code == 17 {
        store(record, c);
    }
}
