// Looking addresses up: v9/lookup.rs.
#![tactic(auto)]

ghost use Rattle.std.specs.Prelude.{◌≡◌, ◌+◌, ◌*◌, ◌-◌, ◌≤◌, ◌<◌, ◌^◌, cond, length, unwrap_or, IfSome};
ghost use Rattle.std.specs.Prelude.{ltb};
ghost use Rattle.std.proofs.Math.Option as maybe;
ghost use Rattle.raw.specs.Rows.{max32};
ghost use Rattle.symcache.specs.Answers.{maybe_of};
ghost use Rattle.symcache.specs.Reader.{Within, location_in_lem, function_in_lem, file_in_lem};
ghost use Rattle.lookup.specs.Answers.{lookup_answer, step_answer, file_answer, function_answer, functions_answer, files_answer};
ghost use Rattle.lookup.specs.Lookup.{found_at, walk_from_lem, walk_at_lem, looked_up_lem, met, entry_of, language_of};
ghost use Rattle.lookup.specs.Lookup.{frame_in_lem, ended, step_in_lem, stepped, got_file, got_function, next_function, functions_next, next_file, files_next};

use raw::{File, Function, SourceLocation, Stored};
use symcache::{ErrorKind, SymCache};

// A walk from a source location to the one into which it was inlined, and so on: where it began, where it is, and how many steps it made.
#[derive(Clone, Copy)]
pub struct SourceLocations {
    pub first: u32,
    pub current: u32,
    pub steps: u32,
}

// A frame: what a source location says, with its function's entry and language, and its file, if there is one.
#[derive(Clone, Copy)]
pub struct Frame {
    pub location_idx: u32,
    pub function_idx: u32,
    pub line: u32,
    pub file_idx: u32,
    pub entry_pc: u32,
    pub language: u32,
    pub file: Option<File>,
}

// A frame of a walk, and the walk after it.
#[derive(Clone, Copy)]
pub struct Step {
    pub frame: Frame,
    pub next: SourceLocations,
}

// The functions of a file that have an entry, in the order of the file.
#[derive(Clone, Copy)]
pub struct Functions {
    pub function_idx: u32,
}

// A function, its index, and the functions after it. (Not one struct with `NextFile`: generic in the row and what comes after, it would share no method.)
#[derive(Clone, Copy)]
pub struct NextFunction {
    pub index: u32,
    pub function: Function,
    pub next: Functions,
}

// The files of a file, in its order.
#[derive(Clone, Copy)]
pub struct Files {
    pub file_idx: u32,
}

// A file, its index, and the files after it.
#[derive(Clone, Copy)]
pub struct NextFile {
    pub index: u32,
    pub file: File,
    pub next: Files,
}

// What the search reads of a cache.
fn tables_of(cache: SymCache) -> search::Tables
    ensures { result ≡ record {
      source_locations = cache.source_locations;
      num_source_locations = cache.num_source_locations;
      ranges = cache.ranges;
      num_ranges = cache.num_ranges;
    } }
{
    search::Tables {
        source_locations: cache.source_locations,
        num_source_locations: cache.num_source_locations,
        ranges: cache.ranges,
        num_ranges: cache.num_ranges,
    }
}

// The index of the source location that an address belongs to. `cache` is what `open` gave for these bytes.
pub fn find(s: &[u8], cache: SymCache, addr: u64) -> Option<u32>
    ensures found { unwrap_or result max32 ≡ found_at s.now cache addr }
    ensures inside { IfSome result (λ i. (i < cache.num_source_locations) × (cache.source_locations + 16 * cache.num_source_locations ≤ length s.now)) }
{
    tables_of(cache).find(s, addr)
}

// The rows of a file that was read

#[tactic(auto, unfolding(symcache::specs::Reader::location_in_lem))]
fn location_in(s: &[u8], c: SymCache, i: u32) -> SourceLocation
    requires { c.source_locations + 16 * i < 2 ^ 64 }
    ensures { result ≡ location_in_lem s.now c i }
{
    SourceLocation::read(s, c.source_locations + 16 * (i as usize))
}

// Row `i` of the `n` that stand from `at` on.
fn row_in<T: Stored>(s: &[u8], at: usize, n: u32, i: u32) -> Option<T>
    requires { at + T.SIZE * n < 2 ^ 64 }
    ensures { maybe_of result ≡ cond (ltb i n) (maybe.some (T.stands s.now (at + T.SIZE * i))) maybe.none }
{
    if n <= i {
        return None;
    }
    Some(T::read(s, at + T::SIZE * (i as usize)))
}

#[tactic(auto, unfolding(symcache::specs::Reader::file_in_lem))]
fn file_in(s: &[u8], c: SymCache, i: u32) -> Option<File>
    requires { c.files + 24 * c.num_files < 2 ^ 64 }
    ensures { maybe_of result ≡ file_in_lem s.now c i }
{
    row_in(s, c.files, c.num_files, i)
}

#[tactic(auto, unfolding(symcache::specs::Reader::function_in_lem))]
fn function_in(s: &[u8], c: SymCache, i: u32) -> Option<Function>
    requires { c.functions + 16 * c.num_functions < 2 ^ 64 }
    ensures { maybe_of result ≡ function_in_lem s.now c i }
{
    row_in(s, c.functions, c.num_functions, i)
}

// Looking up

fn walk_from(i: u32) -> SourceLocations
    ensures { result ≡ walk_from_lem i }
{
    SourceLocations {
        first: i,
        current: i,
        steps: 0,
    }
}

// MAX where there is no location, else its index.
fn unless(i: u32, none: bool) -> u32
    ensures { result ≡ cond none max32 i }
{
    if none {
        return u32::MAX;
    }
    i
}

// The walk of the frames of an address, in a file that was opened. `cache` is what `open` gave for these bytes.
#[tactic(auto, using(crate::proofs::LookupLaws::walk_cases), unfolding(crate::specs::Lookup::walk_at_lem))]
pub fn walk(s: &[u8], cache: SymCache, addr: u64) -> SourceLocations
    ensures { result ≡ walk_at_lem s.now cache addr }
{
    // not by `find`, which is to stay so small that a caller with a cache of words reads four of them
    let Some(i) = tables_of(cache).find(s, addr) else {
        return walk_from(u32::MAX);
    };
    let location = location_in(s, cache, i);
    walk_from(unless(i, location.is_no_source_location()))
}

// Looks an address up: 1 to 12, or the walk of its frames.
#[tactic(auto, unfolding(crate::specs::Lookup::looked_up_lem, symcache::specs::Answers::and_then))]
pub fn lookup(s: &[u8], addr: u64) -> Result<SourceLocations, ErrorKind>
    ensures { lookup_answer result ≡ looked_up_lem s.now addr }
{
    let cache = symcache::open(s)?;
    Ok(walk(s, cache, addr))
}

// Frames

// Whether `i` is among the first `steps` indexes of the walk from `first`.
#[tactic(auto, using(crate::proofs::LookupLaws::met_cases))]
fn is_met(s: &[u8], c: SymCache, i: u32, first: u32, steps: u32) -> bool
    requires { c.source_locations + 16 * c.num_source_locations < 2 ^ 64 }
    ensures { result ≡ met s.now c i first steps }
{
    let mut at = first;
    for _ in 0..steps {
        if at == i {
            return true;
        }
        if c.num_source_locations <= at {
            return false;
        }
        let location = location_in(s, c, at);
        at = location.inlined_into_idx;
    }
    false
}

// The function at an index; where there is none, one that says so: MAX in all its fields.
fn function_or_missing(s: &[u8], c: SymCache, i: u32) -> Function
    requires { c.functions + 16 * c.num_functions < 2 ^ 64 }
    ensures { (result.entry_pc ≡ entry_of (function_in_lem s.now c i)) × (result.lang ≡ language_of (function_in_lem s.now c i)) }
{
    function_in(s, c, i).unwrap_or(Function {
        name_offset: u32::MAX,
        comp_dir_offset: u32::MAX,
        entry_pc: u32::MAX,
        lang: u32::MAX,
    })
}

#[tactic(auto, unfolding(crate::specs::Lookup::frame_in_lem))]
fn frame_in(s: &[u8], c: SymCache, i: u32) -> Frame
    requires { Within (length s.now) c × (i < c.num_source_locations) }
    ensures { result ≡ frame_in_lem s.now c i }
{
    let location = location_in(s, c, i);
    let function = function_or_missing(s, c, location.function_idx);
    Frame {
        location_idx: i,
        function_idx: location.function_idx,
        line: location.line,
        file_idx: location.file_idx,
        entry_pc: function.entry_pc,
        language: function.lang,
        file: file_in(s, c, location.file_idx),
    }
}

// Whether the walk has ended.
#[tactic(auto, unfolding(crate::specs::Lookup::ended))]
fn is_ended(s: &[u8], c: SymCache, walk: SourceLocations) -> bool
    requires { c.source_locations + 16 * c.num_source_locations < 2 ^ 64 }
    ensures { result ≡ ended s.now c walk }
{
    walk.current == u32::MAX
        || c.num_source_locations <= walk.current
        || c.num_source_locations <= walk.steps
        || is_met(s, c, walk.current, walk.first, walk.steps)
}

#[tactic(auto, using(crate::proofs::LookupLaws::step_cases), unfolding(crate::specs::Lookup::step_in_lem))]
fn step_in(s: &[u8], c: SymCache, walk: SourceLocations) -> Option<Step>
    requires { Within (length s.now) c }
    ensures { maybe_of result ≡ step_in_lem s.now c walk }
{
    if is_ended(s, c, walk) {
        return None;
    }
    let location = location_in(s, c, walk.current);
    Some(Step {
        frame: frame_in(s, c, walk.current),
        next: SourceLocations {
            first: walk.first,
            current: location.inlined_into_idx,
            steps: walk.steps + 1,
        },
    })
}

impl SourceLocations {
    // The next frame of a walk, and the walk after it; or its end.
    #[tactic(auto, using(crate::proofs::LookupLaws::read_cases), unfolding(crate::specs::Lookup::stepped, symcache::specs::Answers::and_then))]
    pub fn next(self, s: &[u8]) -> Result<Option<Step>, ErrorKind>
        ensures { step_answer result ≡ stepped s.now self }
    {
        let c = symcache::parse(s)?;
        Ok(step_in(s, c, self))
    }
}

// Files and functions. Each has its own functions, as in the original: with `?` these are two lines, and one over both would need a trait of the tables.

#[tactic(auto, using(crate::proofs::LookupLaws::read_cases), unfolding(crate::specs::Lookup::got_file, symcache::specs::Answers::and_then))]
pub fn get_file(s: &[u8], file_idx: u32) -> Result<Option<File>, ErrorKind>
    ensures { file_answer result ≡ got_file s.now file_idx }
{
    let c = symcache::parse(s)?;
    Ok(file_in(s, c, file_idx))
}

#[tactic(auto, using(crate::proofs::LookupLaws::read_cases), unfolding(crate::specs::Lookup::got_function, symcache::specs::Answers::and_then))]
pub fn get_function(s: &[u8], function_idx: u32) -> Result<Option<Function>, ErrorKind>
    ensures { function_answer result ≡ got_function s.now function_idx }
{
    let c = symcache::parse(s)?;
    Ok(function_in(s, c, function_idx))
}

// The first function from index `from` on whose entry is not MAX.
#[tactic(auto, using(crate::proofs::LookupLaws::function_cases))]
fn next_function(s: &[u8], c: SymCache, from: u32) -> Option<NextFunction>
    requires { c.functions + 16 * c.num_functions < 2 ^ 64 }
    ensures { maybe_of result ≡ next_function s.now c from (c.num_functions - from) }
{
    for index in from..c.num_functions {
        let function = Function::read(s, c.functions + 16 * (index as usize));
        if function.entry_pc != u32::MAX {
            return Some(NextFunction {
                index,
                function,
                next: Functions {
                    function_idx: index + 1,
                },
            });
        }
    }
    None
}

impl Functions {
    #[tactic(auto, using(crate::proofs::LookupLaws::read_cases), unfolding(crate::specs::Lookup::functions_next, symcache::specs::Answers::and_then))]
    pub fn next(self, s: &[u8]) -> Result<Option<NextFunction>, ErrorKind>
        ensures { functions_answer result ≡ functions_next s.now self }
    {
        let c = symcache::parse(s)?;
        Ok(next_function(s, c, self.function_idx))
    }
}

#[tactic(auto, unfolding(crate::specs::Lookup::next_file, symcache::specs::Reader::file_in_lem))]
fn next_file(s: &[u8], c: SymCache, index: u32) -> Option<NextFile>
    requires { c.files + 24 * c.num_files < 2 ^ 64 }
    ensures { maybe_of result ≡ next_file s.now c index }
{
    let file = file_in(s, c, index)?;
    Some(NextFile {
        index,
        file,
        next: Files {
            file_idx: index + 1,
        },
    })
}

impl Files {
    #[tactic(auto, using(crate::proofs::LookupLaws::read_cases), unfolding(crate::specs::Lookup::files_next, symcache::specs::Answers::and_then))]
    pub fn next(self, s: &[u8]) -> Result<Option<NextFile>, ErrorKind>
        ensures { files_answer result ≡ files_next s.now self }
    {
        let c = symcache::parse(s)?;
        Ok(next_file(s, c, self.file_idx))
    }
}
