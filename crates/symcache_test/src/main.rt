// Replays what the original answered on written, damaged and random files: oracle/FORMAT.md, "Reader". A line is printed for each case, its checksum.
#![tactic(auto)]

use lookup::{Files, Frame, Functions, NextFile, NextFunction, SourceLocations, Step};
use raw::{File, Function, Header, SourceLocation, Stored};
use replay::{Visit, add, add_bytes, low, number, place, word};
use std::fs;
use symcache::{ErrorKind, SymCache};

// Words

fn add_two(sum: u32, a: u32, b: u32) -> u32 {
    let sum = add(sum, a);
    add(sum, b)
}

fn add_four(sum: u32, a: u32, b: u32, c: u32, d: u32) -> u32 {
    let sum = add_two(sum, a, b);
    add_two(sum, c, d)
}

// A text: its length and 1, then its bytes.
fn add_text(sum: u32, text: &[u8]) -> u32 {
    let sum = add(sum, low(text.len()).wrapping_add(1));
    add_bytes(sum, text)
}

// A text that may be absent.
fn add_optional(sum: u32, s: &[u8], offset: u32) -> u32 {
    match file_texts::read_string(s, offset) {
        Ok(Some(_)) => add_text(sum, file_texts::get_string(s, offset)),
        _ => add(sum, 0),
    }
}

// What `parse` says, and every row

fn add_error(sum: u32, kind: ErrorKind) -> u32 {
    let sum = add(sum, kind.number());
    match kind {
        ErrorKind::UnexpectedStringBytes { expected, found } => {
            add_two(sum, low(expected), low(found))
        }
        _ => sum,
    }
}

fn add_header(sum: u32, h: Header) -> u32 {
    let sum = add_bytes(sum, &h.debug_id);
    let sum = add_two(sum, h.arch, u32::from(h.variable_header));
    add_bytes(sum, &h.reserved)
}

fn add_file_row(sum: u32, f: File) -> u32 {
    let sum = add_four(
        sum,
        f.comp_dir_offset,
        f.directory_offset,
        f.name_offset,
        f.srcsrv_name_offset,
    );
    add_two(sum, f.srcsrv_dir_offset, f.srcsrv_revision_offset)
}

fn add_file_rows(sum: u32, s: &[u8], n: u32) -> u32 {
    let mut now = sum;
    for i in 0..n {
        if let Ok(Some(file)) = lookup::get_file(s, i) {
            now = add_file_row(now, file);
        }
    }
    now
}

fn add_function_row(sum: u32, f: Function) -> u32 {
    add_four(sum, f.name_offset, f.comp_dir_offset, f.entry_pc, f.lang)
}

fn add_function_rows(sum: u32, s: &[u8], n: u32) -> u32 {
    let mut now = sum;
    for i in 0..n {
        if let Ok(Some(function)) = lookup::get_function(s, i) {
            now = add_function_row(now, function);
        }
    }
    now
}

fn add_location(sum: u32, l: SourceLocation) -> u32 {
    add_four(sum, l.file_idx, l.line, l.function_idx, l.inlined_into_idx)
}

fn add_location_rows(sum: u32, s: &[u8], at: usize, n: u32) -> u32 {
    let mut now = sum;
    for i in 0..n {
        now = add_location(now, SourceLocation::read(s, place(at, 16 * (i as usize))));
    }
    now
}

fn add_range_rows(sum: u32, s: &[u8], at: usize, n: u32) -> u32 {
    let mut now = sum;
    for i in 0..n {
        now = add(now, word(s, place(at, 4 * (i as usize))));
    }
    now
}

fn add_rows(sum: u32, s: &[u8], c: SymCache) -> u32 {
    let sum = add_file_rows(sum, s, c.num_files);
    let sum = add_function_rows(sum, s, c.num_functions);
    let sum = add_location_rows(sum, s, c.source_locations, c.num_source_locations);
    add_range_rows(sum, s, c.ranges, c.num_ranges)
}

fn add_counts(sum: u32, c: SymCache) -> u32 {
    let sum = add_four(
        sum,
        c.num_files,
        c.num_functions,
        c.num_source_locations,
        c.num_ranges,
    );
    add(sum, c.string_bytes)
}

fn add_cache(sum: u32, s: &[u8], c: SymCache) -> u32 {
    let sum = add(sum, 0);
    let sum = add_counts(sum, c);
    let sum = add_header(sum, Header::read(s, 8));
    add_rows(sum, s, c)
}

fn add_parsed(sum: u32, s: &[u8]) -> u32 {
    match symcache::parse(s) {
        Ok(c) => add_cache(sum, s, c),
        Err(kind) => add_error(sum, kind),
    }
}

// Functions and files

fn add_name(sum: u32, s: &[u8], function_idx: u32) -> u32 {
    add_text(sum, file_texts::function_name(s, b"?", function_idx))
}

fn add_function(sum: u32, s: &[u8], function_idx: u32, f: Function) -> u32 {
    let sum = add(sum, 1);
    let sum = add_name(sum, s, function_idx);
    add_two(sum, f.entry_pc, f.lang)
}

fn add_each_function(sum: u32, s: &[u8]) -> u32 {
    let mut now = sum;
    let mut functions = Functions { function_idx: 0 };
    for _ in 0..u32::MAX {
        let Ok(
            Some(
                NextFunction {
                    index,
                    function,
                    next,
                },
            ),
        ) = functions.next(s)
        else {
            break;
        };
        now = add_function(now, s, index, function);
        functions = next;
    }
    now
}

fn add_functions(sum: u32, s: &[u8]) -> u32 {
    match (Functions { function_idx: 0 }).next(s) {
        Ok(_) => add(add_each_function(add(sum, 0), s), 0),
        Err(kind) => add(sum, kind.number()),
    }
}

// The texts of a file; an absent name is empty.
fn add_file_texts(sum: u32, s: &[u8], f: File) -> u32 {
    let sum = add_text(sum, file_texts::get_string(s, f.name_offset));
    let sum = add_optional(sum, s, f.directory_offset);
    let sum = add_optional(sum, s, f.comp_dir_offset);
    let sum = add_optional(sum, s, f.srcsrv_name_offset);
    let sum = add_optional(sum, s, f.srcsrv_dir_offset);
    add_optional(sum, s, f.srcsrv_revision_offset)
}

fn add_file(sum: u32, s: &[u8], f: File) -> u32 {
    let sum = add(sum, 1);
    add_file_texts(sum, s, f)
}

fn add_each_file(sum: u32, s: &[u8]) -> u32 {
    let mut now = sum;
    let mut files = Files { file_idx: 0 };
    for _ in 0..u32::MAX {
        let Ok(Some(NextFile { file, next, .. })) = files.next(s) else {
            break;
        };
        now = add_file(now, s, file);
        files = next;
    }
    now
}

fn add_files(sum: u32, s: &[u8]) -> u32 {
    match (Files { file_idx: 0 }).next(s) {
        Ok(_) => add(add_each_file(add(sum, 0), s), 0),
        Err(kind) => add(sum, kind.number()),
    }
}

// Lookups

fn add_frame_file(sum: u32, s: &[u8], file: Option<File>) -> u32 {
    match file {
        Some(f) => add_file(sum, s, f),
        None => add(sum, 0),
    }
}

fn add_frame(sum: u32, s: &[u8], frame: Frame) -> u32 {
    let sum = add(sum, 1);
    let sum = add_four(
        sum,
        frame.location_idx,
        frame.function_idx,
        frame.line,
        frame.file_idx,
    );
    let sum = add_two(sum, frame.entry_pc, frame.language);
    let sum = add_name(sum, s, frame.function_idx);
    add_frame_file(sum, s, frame.file)
}

fn add_frames(sum: u32, s: &[u8], walk: SourceLocations) -> u32 {
    let mut total = sum;
    let mut now = walk;
    for _ in 0..u32::MAX {
        let Ok(Some(Step { frame, next })) = now.next(s) else {
            break;
        };
        total = add_frame(total, s, frame);
        now = next;
    }
    total
}

fn add_walk(sum: u32, s: &[u8], walk: SourceLocations) -> u32 {
    let sum = add(sum, 0);
    let sum = add_frames(sum, s, walk);
    add(sum, 0)
}

fn add_lookup(sum: u32, s: &[u8], address: u64) -> u32 {
    match lookup::lookup(s, address) {
        Ok(walk) => add_walk(sum, s, walk),
        Err(kind) => add(sum, kind.number()),
    }
}

// Address `i` of a case, after their count.
fn address_at(addresses: &[u8], i: u32) -> u64 {
    number(addresses, 4 + 8 * (i as usize))
}

fn add_lookups(sum: u32, s: &[u8], addresses: &[u8]) -> u32 {
    let n = word(addresses, 0);
    let mut now = sum;
    for i in 0..n {
        now = add_lookup(now, s, address_at(addresses, i));
    }
    now
}

// Cases

fn case_sum(s: &[u8], addresses: &[u8]) -> u32 {
    let sum = add_parsed(replay::START, s);
    let sum = add_functions(sum, s);
    let sum = add_files(sum, s);
    add_lookups(sum, s, addresses)
}

// A case: the length of a file, the file, and what follows it.
fn replay_case(rt: &impl Print, record: &[u8]) {
    let to = 4 + (word(record, 0) as usize);
    if record.len() < to {
        return;
    }
    let line = replay::sum_line(case_sum(&record[4..to], &record[to..]));
    let _ = rt.write_all(&line);
}

// The cases of the data file, a line for each.
#[derive(Drop)]
struct Cases<'a, R> {
    rt: &'a R,
}

impl<R: Print> Visit for Cases<'_, R> {
    ghost visits = { λ _ _ _. Unit {0} };

    fn visit(&mut self, record: &[u8]) {
        replay_case(self.rt, record);
    }
}

fn main(rt: HostRuntime) {
    let Ok(mut from) = fs::open(&rt, "reader.cases") else {
        return;
    };
    let mut record = [0u8; 16384];
    replay::visit_records(&mut from, &mut record, &mut Cases { rt: &rt });
}
