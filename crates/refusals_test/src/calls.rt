// The calls of a case, with the slices lent as it says.

use crate::case::{Call, Case, Slice};
use crate::left::{OTHER, OTHER_BYTE, is_scratch_left, is_written};
use errors::Refusal;
use memory::{Converter, Lent, State, Tables};
use rows::{FunctionRows, LineRows, OptionalPart, TextPart};

// The arrays that the tables are lent from.
#[derive(Clone, Copy)]
pub(crate) struct Arrays {
    pub string_bytes: [u8; 96],
    pub strings: [u32; 96],
    pub files: [u32; 96],
    pub functions: [u32; 96],
    pub call_locations: [u32; 96],
    pub ranges: [u32; 96],
}

// What a call answered, the record and the tables after it, and whether all else that was lent is left as it should be.
#[derive(Clone, Copy)]
pub(crate) struct Done {
    pub answer: Result<(), Refusal>,
    pub converter: Converter,
    pub arrays: Arrays,
    pub same: bool,
}

// What is lent of an array: its first n, or all of it. (Its length is a parameter, so that no proof counts to it.)

fn front<T, const N: usize>(t: &[T; N], n: usize) -> &[T] {
    &t[..n.min(N)]
}

fn front_mut<T, const N: usize>(t: &mut [T; N], n: usize) -> &mut [T] {
    &mut t[..n.min(N)]
}

impl Arrays {
    fn lend(&mut self, c: &Case) -> Tables<'_> {
        let Arrays {
            string_bytes,
            strings,
            files,
            functions,
            call_locations,
            ranges,
        } = self;
        Tables {
            state: State::unused(),
            string_bytes: front_mut(string_bytes, c.lent(Slice::StringBytes)),
            strings: front_mut(strings, c.lent(Slice::Strings)),
            files: front_mut(files, c.lent(Slice::Files)),
            functions: front_mut(functions, c.lent(Slice::Functions)),
            call_locations: front_mut(call_locations, c.lent(Slice::CallLocations)),
            ranges: front_mut(ranges, c.lent(Slice::Ranges)),
        }
    }

    fn lend_to_read(&self, c: &Case) -> Lent<'_> {
        Lent {
            string_bytes: front(&self.string_bytes, c.lent(Slice::StringBytes)),
            strings: front(&self.strings, c.lent(Slice::Strings)),
            files: front(&self.files, c.lent(Slice::Files)),
            functions: front(&self.functions, c.lent(Slice::Functions)),
            call_locations: front(&self.call_locations, c.lent(Slice::CallLocations)),
            ranges: front(&self.ranges, c.lent(Slice::Ranges)),
        }
    }
}

// What a call is given

// Sets as much of an array as is lent to what `value` says by index.
fn set<T: Copy, const N: usize, F: Fn(usize) -> T>(t: &mut [T; N], n: usize, value: F)
    requires { F.IsAlwaysCallable value }
{
    for i in 0..n.min(N) {
        t[i] = value(i);
    }
}

// Whether a slice holds that.
fn is_set<T: Copy + PartialEq, F: Fn(usize) -> T>(t: &[T], value: F) -> bool
    requires { F.IsAlwaysCallable value }
{
    t.iter().enumerate().all(|(i, x)| *x == value(i))
}

// The calls

fn begin(c: &Case, mut now: Done) -> Done {
    let mut tables = now.arrays.lend(c);
    now.converter = memory::begin([0; 32], 0, false, false, &mut tables);
    now.answer = Ok(());
    now.same = true;
    now
}

fn tree(c: &Case, mut now: Done, functions: FunctionRows, lines: LineRows, text: &[u8]) -> Done {
    let mut scratch = [OTHER; 262144];
    let n = c.lent(Slice::Scratch);
    let mut tables = now.arrays.lend(c);
    now.answer = writer::calls::process_symbolic_function(
        &mut now.converter,
        &mut tables,
        front_mut(&mut scratch, n),
        functions,
        lines,
        text,
    );
    now.same = is_scratch_left(&scratch, n, now.answer);
    now
}

// A tree of the case's line rows, which are compared after it.
fn tree_with_lines(c: &Case, now: Done, functions: FunctionRows, text: &[u8]) -> Done {
    let number64 = |i| c.number(Slice::Lines64, i);
    let number32 = |i| c.number32(Slice::Lines32, i);
    let mut lines64 = [0u64; 12];
    let mut lines32 = [0u32; 56];
    set(&mut lines64, c.lent(Slice::Lines64), number64);
    set(&mut lines32, c.lent(Slice::Lines32), number32);
    let lines = LineRows {
        columns64: front(&lines64, c.lent(Slice::Lines64)),
        columns32: front(&lines32, c.lent(Slice::Lines32)),
    };
    let mut done = tree(c, now, functions, lines, text);
    done.same = done.same && is_set(lines.columns64, number64) && is_set(lines.columns32, number32);
    done
}

// A tree of the case's function rows, which are compared after it.
fn tree_with_rows(c: &Case, now: Done, text: &[u8]) -> Done {
    let number64 = |i| c.number(Slice::Functions64, i);
    let number32 = |i| c.number32(Slice::Functions32, i);
    let mut functions64 = [0u64; 131074];
    let mut functions32 = [0u32; 524296];
    set(&mut functions64, c.lent(Slice::Functions64), number64);
    set(&mut functions32, c.lent(Slice::Functions32), number32);
    let functions = FunctionRows {
        columns64: front(&functions64, c.lent(Slice::Functions64)),
        columns32: front(&functions32, c.lent(Slice::Functions32)),
    };
    let mut done = tree_with_lines(c, now, functions, text);
    done.same = done.same
        && is_set(functions.columns64, number64)
        && is_set(functions.columns32, number32);
    done
}

fn symbol(c: &Case, mut now: Done, text: &[u8]) -> Done {
    let name = OptionalPart {
        present: c.number(Slice::Named, 2) != 0,
        part: TextPart {
            start: c.number32(Slice::Named, 3),
            len: c.number32(Slice::Named, 4),
        },
    };
    let mut tables = now.arrays.lend(c);
    now.answer = symbol_call::process_symbolic_symbol(
        &mut now.converter,
        &mut tables,
        text,
        c.number(Slice::Named, 0),
        c.number(Slice::Named, 1),
        name,
    );
    now.same = true;
    now
}

fn write(c: &Case, mut now: Done, file: &[u8]) -> Done {
    let mut out = [OTHER_BYTE; 400];
    let written = serialize::serialize(
        now.converter,
        now.arrays.lend_to_read(c),
        front_mut(&mut out, c.lent(Slice::Out)),
    );
    now.answer = written.map(|_| ());
    now.same = is_written(&out, file, written);
    now
}

// A tree or a symbol of the case's text, which is compared after it.
fn call_with_text(c: &Case, now: Done) -> Done {
    let byte = |i| c.byte(Slice::Text, i);
    let mut text = [0u8; 20];
    set(&mut text, c.lent(Slice::Text), byte);
    let text = front(&text, c.lent(Slice::Text));
    let mut done = match c.call {
        Call::Symbol => symbol(c, now, text),
        _ => tree_with_rows(c, now, text),
    };
    done.same = done.same && is_set(text, byte);
    done
}

// The call of a case.
pub(crate) fn call(c: &Case, now: Done, file: &[u8]) -> Done {
    match c.call {
        Call::Begin => begin(c, now),
        Call::Write => write(c, now, file),
        Call::Tree | Call::Symbol => call_with_text(c, now),
    }
}
