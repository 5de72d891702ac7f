// The reader over words: a file read to the words of a cache. The exported functions of these names pass on what these answer.
#![tactic(auto)]

ghost use Rattle.std.specs.Prelude.{◌≡◌, [], ◌∷◌};
ghost use Rattle.std.proofs.lemmas.List.Edits.{sets};
ghost use Rattle.symcache.specs.Answers.{refusal_of, parse_answer};
ghost use Rattle.c_reading.specs.Stored.{stored};
ghost use Rattle.c_reading.specs.Reading.{filled, cache_words, refused, cached, parse_call, open_call};

use slices::put;
use symcache::{ErrorKind, SymCache};

// Where a table lies and how many rows it has: words k and k + 1.
fn put_table(cache: &mut [u64], k: u32, at: usize, n: u32)
    ensures { cache.new ≡ sets cache.old k (at ∷ n ∷ []) }
{
    let k = k as usize;
    put(cache, k, at as u64);
    put(cache, k + 1, u64::from(n));
}

// The words of a cache: offset and count of the files, functions, source locations and ranges, then where the texts lie and how many bytes they have.
fn put_cache(cache: &mut [u64], c: SymCache)
    ensures { cache.new ≡ stored (cache_words c) cache.old }
{
    put_table(cache, 0, c.files, c.num_files);
    put_table(cache, 2, c.functions, c.num_functions);
    put_table(cache, 4, c.source_locations, c.num_source_locations);
    put_table(cache, 6, c.ranges, c.num_ranges);
    put_table(cache, 8, c.strings, c.string_bytes);
}

// The number of a refusal; 10 stores its expected and its found count.
#[tactic(auto, unfolding(c_reading::specs::Reading::refused))]
fn put_refusal(cache: &mut [u64], kind: ErrorKind) -> u32
    ensures { filled result cache.new ≡ refused (refusal_of kind) cache.old }
{
    match kind {
        ErrorKind::UnexpectedStringBytes { expected, found } => {
            put(cache, 0, expected as u64);
            put(cache, 1, found as u64);
            10
        }
        _ => kind.number(),
    }
}

#[tactic(auto, unfolding(c_reading::specs::Reading::cached))]
fn put_parsed(cache: &mut [u64], parsed: Result<SymCache, ErrorKind>) -> u32
    ensures { filled result cache.new ≡ cached (parse_answer parsed) cache.old }
{
    match parsed {
        Ok(c) => {
            put_cache(cache, c);
            0
        }
        Err(kind) => put_refusal(cache, kind),
    }
}

// Reads a file: 1 to 11, or 0 and the words of the cache. 10 stores the expected and the found count.
#[tactic(auto, unfolding(c_reading::specs::Reading::parse_call))]
pub fn parse(bytes: &[u8], cache: &mut [u64]) -> u32
    ensures { filled result cache.new ≡ parse_call bytes.now cache.old }
{
    put_parsed(cache, symcache::parse(bytes))
}

// Reads a file to look addresses up in it: the same, and 12.
#[tactic(auto, unfolding(c_reading::specs::Reading::open_call))]
pub fn open(bytes: &[u8], cache: &mut [u64]) -> u32
    ensures { filled result cache.new ≡ open_call bytes.now cache.old }
{
    put_parsed(cache, symcache::open(bytes))
}
