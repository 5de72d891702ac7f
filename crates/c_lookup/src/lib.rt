// The lookup over words: an address found by the words of a cache, a walk between whose steps there are the words of a cursor. The exported functions of
// these names pass on what these answer.
#![tactic(auto)]

ghost use Rattle.std.specs.Prelude.{◌≡◌, get_or};
ghost use Rattle.lookup.specs.Answers.{lookup_answer, step_answer};
ghost use Rattle.c_reading.specs.Stored.{stored};
ghost use Rattle.c_reading.specs.Reading.{filled, moved, answered, steps_to, count_at, cache_of};
ghost use Rattle.c_reading.specs.Reading.{find_call, walk_words, walk_of, walk_call, lookup_call};
ghost use Rattle.c_reading.specs.Reading.{head_words, frame_words, framed_words, framed_next, next_call};

use c_reading::put_file;
use lookup::{Frame, SourceLocations, Step};
use slices::{put, word};
use symcache::{ErrorKind, SymCache};

// A count: its word cut to 32 bits.
fn count(cache: &[u64], j: usize) -> u32
    ensures { result ≡ count_at cache.now j }
{
    (word(cache, j) % 4294967296) as u32
}

fn offset(cache: &[u64], j: usize) -> usize
    ensures { result ≡ get_or cache.now j 0 }
{
    word(cache, j) as usize
}

#[tactic(auto, unfolding(c_reading::specs::Reading::cache_of))]
fn cache_of(cache: &[u64]) -> SymCache
    ensures { result ≡ cache_of cache.now }
{
    SymCache {
        files: offset(cache, 0),
        num_files: count(cache, 1),
        functions: offset(cache, 2),
        num_functions: count(cache, 3),
        source_locations: offset(cache, 4),
        num_source_locations: count(cache, 5),
        ranges: offset(cache, 6),
        num_ranges: count(cache, 7),
        strings: offset(cache, 8),
        string_bytes: count(cache, 9),
    }
}

// The index of the source location that an address belongs to, or MAX.
#[tactic(auto, unfolding(c_reading::specs::Reading::find_call))]
pub fn find(bytes: &[u8], cache: &[u64], addr: u64) -> u32
    ensures { result ≡ find_call bytes.now cache.now addr }
{
    lookup::find(bytes, cache_of(cache), addr).unwrap_or(u32::MAX)
}

// The words of a walk.
fn put_walk(cursor: &mut [u32], walk: SourceLocations)
    ensures { cursor.new ≡ stored (walk_words walk) cursor.old }
{
    put(cursor, 0, walk.first);
    put(cursor, 1, walk.current);
    put(cursor, 2, walk.steps);
}

// A cursor of fewer than three words is a walk that has ended.
#[tactic(auto, unfolding(c_reading::specs::Reading::walk_of))]
fn walk_of(cursor: &[u32]) -> SourceLocations
    ensures { result ≡ walk_of cursor.now }
{
    if cursor.len() < 3 {
        return SourceLocations {
            first: u32::MAX,
            current: u32::MAX,
            steps: 0,
        };
    }
    SourceLocations {
        first: word(cursor, 0),
        current: word(cursor, 1),
        steps: word(cursor, 2),
    }
}

// The walk of the frames of an address, in a file that was opened: the index at which it begins, or MAX.
#[tactic(auto, unfolding(c_reading::specs::Reading::walk_call))]
pub fn walk(bytes: &[u8], cache: &[u64], addr: u64, cursor: &mut [u32]) -> u32
    ensures { filled result cursor.new ≡ walk_call bytes.now cache.now addr cursor.old }
{
    let walk = lookup::walk(bytes, cache_of(cache), addr);
    put_walk(cursor, walk);
    walk.current
}

#[tactic(auto, unfolding(c_reading::specs::Reading::answered))]
fn put_looked_up(cursor: &mut [u32], found: Result<SourceLocations, ErrorKind>) -> u32
    ensures { filled result cursor.new ≡ answered walk_words (lookup_answer found) cursor.old }
{
    match found {
        Ok(walk) => {
            put_walk(cursor, walk);
            0
        }
        Err(kind) => kind.number(),
    }
}

// Looks an address up: 1 to 12, or 0 and the walk of its frames.
#[tactic(auto, unfolding(c_reading::specs::Reading::lookup_call))]
pub fn lookup(bytes: &[u8], addr: u64, cursor: &mut [u32]) -> u32
    ensures { filled result cursor.new ≡ lookup_call bytes.now addr cursor.old }
{
    put_looked_up(cursor, lookup::lookup(bytes, addr))
}

// Words 0 to 6 of a frame.
fn put_head(frame: &mut [u32], kind: u32, f: Frame)
    ensures { frame.new ≡ stored (head_words kind f) frame.old }
{
    put(frame, 0, kind);
    put(frame, 1, f.location_idx);
    put(frame, 2, f.function_idx);
    put(frame, 3, f.line);
    put(frame, 4, f.file_idx);
    put(frame, 5, f.entry_pc);
    put(frame, 6, f.language);
}

// A frame, with the words of its file, if it has one.
fn put_frame(frame: &mut [u32], f: Frame)
    ensures { frame.new ≡ stored (frame_words f) frame.old }
{
    match f.file {
        None => put_head(frame, 1, f),
        Some(file) => {
            put_head(frame, 2, f);
            put_file(frame, 7, file);
        }
    }
}

#[tactic(auto, unfolding(c_reading::specs::Reading::steps_to))]
fn put_step(cursor: &mut [u32], frame: &mut [u32], step: Result<Option<Step>, ErrorKind>) -> u32
    ensures { moved result cursor.new frame.new
        ≡ steps_to framed_next framed_words (step_answer step) cursor.old frame.old }
{
    match step {
        Ok(Some(Step { frame: f, next })) => {
            put_walk(cursor, next);
            put_frame(frame, f);
            0
        }
        Ok(None) => {
            put(frame, 0, 0);
            0
        }
        Err(kind) => kind.number(),
    }
}

// The next frame of a walk, and the walk after it; or its end.
#[tactic(auto, unfolding(c_reading::specs::Reading::next_call))]
pub fn next(bytes: &[u8], cursor: &mut [u32], frame: &mut [u32]) -> u32
    ensures { moved result cursor.new frame.new ≡ next_call bytes.now cursor.old frame.old }
{
    let walk = walk_of(cursor);
    put_step(cursor, frame, walk.next(bytes))
}
