// Replays lists of calls whose written files the original made: oracle/FORMAT.md, "Converter". A line is printed for each list, the checksum of its words.
#![tactic(auto)]

use errors::{Refusal, code_of};
use memory::{Converter, State, Tables};
use raw::{Header, Stored};
use replay::{Visit, add, add_bytes, low, number, place, word};
use rows::{FunctionRows, LineRows, OptionalPart, TextPart};
use std::fs;

// What a record says.
#[derive(Clone, Copy)]
enum Kind {
    Begin,
    Tree,
    Symbol,
    Write,
    End,
}

impl From<u32> for Kind {
    fn from(n: u32) -> Kind {
        match n {
            0 => Kind::Begin,
            1 => Kind::Tree,
            2 => Kind::Symbol,
            3 => Kind::Write,
            _ => Kind::End,
        }
    }
}

// The first n, or all if there are fewer.
fn front<T>(t: &[T], n: usize) -> &[T] {
    &t[..n.min(t.len())]
}

// The bytes from `at` on.
fn rest(t: &[u8], at: usize) -> &[u8] {
    &t[at.min(t.len())..]
}

// A column of n numbers of so many bytes each, which begins at `at`.
fn read_column<'a, T: Copy, F: Fn(&[u8], usize) -> T>(
    t: &'a mut [T],
    n: usize,
    s: &[u8],
    at: usize,
    size: usize,
    read: F,
) -> &'a [T]
    requires { F.IsAlwaysCallable read }
{
    let mut from = at;
    for i in 0..t.len().min(n) {
        t[i] = read(s, from);
        from = place(from, size);
    }
    front(t, n)
}

// The converter with its tables, and the checksum of the list so far.
#[derive(Drop)]
struct Replay<'a> {
    converter: Converter,
    tables: Tables<'a>,
    sum: u32,
}

impl Replay<'_> {
    fn add_answer(&mut self, answer: Result<(), Refusal>) {
        self.sum = add(self.sum, code_of(answer));
    }

    // A list begins.
    fn begin(&mut self, record: &[u8]) {
        let header = Header::read(record, 4);
        self.converter = memory::begin(
            header.debug_id,
            word(record, 36),
            word(record, 40) != 0,
            word(record, 44) != 0,
            &mut self.tables,
        );
        self.sum = replay::START;
    }

    // The columns of a tree, after its three counts.
    fn tree(&mut self, record: &[u8]) {
        let f = word(record, 4) as usize;
        let l = word(record, 8) as usize;
        let at_functions32 = 16 + f * 16;
        let at_lines64 = at_functions32 + f * 32;
        let at_lines32 = at_lines64 + l * 24;
        let at_text = at_lines32 + l * 56;
        let mut functions64 = [0u64; 256];
        let mut functions32 = [0u32; 1024];
        let mut lines64 = [0u64; 768];
        let mut lines32 = [0u32; 3584];
        let mut scratch = [0u32; 1536];
        let functions = FunctionRows {
            columns64: read_column(&mut functions64, f * 2, record, 16, 8, number),
            columns32: read_column(&mut functions32, f * 8, record, at_functions32, 4, word),
        };
        let lines = LineRows {
            columns64: read_column(&mut lines64, l * 3, record, at_lines64, 8, number),
            columns32: read_column(&mut lines32, l * 14, record, at_lines32, 4, word),
        };
        let answer = writer::calls::process_symbolic_function(
            &mut self.converter,
            &mut self.tables,
            &mut scratch,
            functions,
            lines,
            rest(record, at_text),
        );
        self.add_answer(answer);
    }

    fn symbol(&mut self, record: &[u8]) {
        let text = rest(record, 24);
        let name = OptionalPart {
            present: word(record, 4) != 0,
            part: TextPart {
                start: 0,
                len: low(text.len()),
            },
        };
        let answer = symbol_call::process_symbolic_symbol(
            &mut self.converter,
            &mut self.tables,
            text,
            number(record, 8),
            number(record, 16),
            name,
        );
        self.add_answer(answer);
    }

    // The file, as it is now.
    fn write(&mut self) {
        let mut out = [0u8; 16384];
        let written = serialize::serialize(self.converter, self.tables.lent(), &mut out);
        let len = written.unwrap_or(0);
        let sum = add(self.sum, code_of(written));
        let sum = add(sum, low(len));
        self.sum = add_bytes(sum, front(&out, len));
    }

    fn step(&mut self, rt: &impl Print, record: &[u8]) {
        match Kind::from(word(record, 0)) {
            Kind::Begin => self.begin(record),
            Kind::Tree => self.tree(record),
            Kind::Symbol => self.symbol(record),
            Kind::Write => self.write(),
            Kind::End => {
                let _ = rt.write_all(&replay::sum_line(self.sum));
            }
        }
    }
}

// The records of the data file, and where the lines are printed.
#[derive(Drop)]
struct Records<'a, R> {
    rt: &'a R,
    replay: Replay<'a>,
}

impl<R: Print> Visit for Records<'_, R> {
    ghost visits = { λ _ _ _. Unit {0} };

    fn visit(&mut self, record: &[u8]) {
        self.replay.step(self.rt, record);
    }
}

fn main(rt: HostRuntime) {
    let Ok(mut from) = fs::open(&rt, "converter.cases") else {
        return;
    };
    let mut string_bytes = [0u8; 16384];
    let mut strings = [0u32; 4096];
    let mut files = [0u32; 4096];
    let mut functions = [0u32; 4096];
    let mut call_locations = [0u32; 4096];
    let mut ranges = [0u32; 4096];
    let mut tables = Tables {
        state: State::unused(),
        string_bytes: &mut string_bytes,
        strings: &mut strings,
        files: &mut files,
        functions: &mut functions,
        call_locations: &mut call_locations,
        ranges: &mut ranges,
    };
    let converter = memory::begin([0; 32], 0, false, false, &mut tables);
    let replay = Replay {
        converter,
        tables,
        sum: replay::START,
    };
    let mut record = [0u8; 16384];
    replay::visit_records(&mut from, &mut record, &mut Records { rt: &rt, replay });
}
