// What a call leaves in the tables and in the record, held against what was there before it.
use crate::calls::{Arrays, Done};
use crate::case::{Call, Case, Slice};
use errors::Refusal;
use memory::{Converter, State};

// What lent memory holds at first.

pub(crate) const OTHER: u32 = 2779096485;

pub(crate) const OTHER_BYTE: u8 = 165;

// What is left where memory was lent: what was there; zeros; anything.
#[derive(Clone, Copy)]
enum Left {
    Same,
    Zeros,
    Any,
}

// A refused call and a write change nothing; a beginning, and a call that finds a table full, leave zeros.
fn left_by(call: Call, answer: Result<(), Refusal>) -> Left {
    match answer {
        _ if call == Call::Begin => Left::Zeros,
        Err(Refusal::TableFull) => Left::Zeros,
        Ok(()) if call != Call::Write => Left::Any,
        _ => Left::Same,
    }
}

// Whether the first n words or bytes are left so, and the others as before.
fn is_left<T: Copy + PartialEq + Default>(before: &[T], after: &[T], n: usize, left: Left) -> bool {
    before.iter().zip(after).enumerate().all(|(i, (b, a))| match left {
        Left::Zeros if i < n => *a == T::default(),
        Left::Any if i < n => true,
        _ => a == b,
    })
}

fn are_tables_left(before: &Arrays, after: &Arrays, c: &Case, left: Left) -> bool {
    is_left(
        &before.string_bytes,
        &after.string_bytes,
        c.lent(Slice::StringBytes),
        left,
    ) && is_left(
        &before.strings,
        &after.strings,
        c.lent(Slice::Strings),
        left,
    ) && is_left(&before.files, &after.files, c.lent(Slice::Files), left)
        && is_left(
            &before.functions,
            &after.functions,
            c.lent(Slice::Functions),
            left,
        )
        && is_left(
            &before.call_locations,
            &after.call_locations,
            c.lent(Slice::CallLocations),
            left,
        )
        && is_left(&before.ranges, &after.ranges, c.lent(Slice::Ranges), left)
}

// Scratch and the output

// Scratch after a tree: zero where it was lent if the tree was accepted or found a table full, and what it was if it was refused.
pub(crate) fn is_scratch_left(scratch: &[u32], n: usize, answer: Result<(), Refusal>) -> bool {
    let zeros = match answer {
        Ok(()) | Err(Refusal::TableFull) => n.min(scratch.len()),
        Err(_) => 0,
    };
    scratch[..zeros].iter().all(|w| *w == 0) && scratch[zeros..].iter().all(|w| *w == OTHER)
}

// The output after a write: the file, and then what it was.
pub(crate) fn is_written(out: &[u8], file: &[u8], written: Result<usize, Refusal>) -> bool {
    let rest = match written {
        Ok(len) if len == file.len() => out.strip_prefix(file),
        Ok(_) => None,
        Err(_) => Some(out),
    };
    rest.is_some_and(|rest| rest.iter().all(|b| *b == OTHER_BYTE))
}

// The record

// A record of nothing in use.
pub(crate) fn unused(open: bool) -> Converter {
    Converter {
        debug_id: [0; 32],
        arch: 0,
        undecorate_functions: false,
        undecorate_symbols: false,
        open,
        state: State::unused(),
        clamped_lines: 0,
    }
}

// A beginning opens the converter; one that finds a table full closes it, with nothing in use. What it was begun with stays.
fn is_record_left(before: Converter, after: Converter, call: Call, left: Left) -> bool {
    match left {
        Left::Same => after == before,
        Left::Zeros => after == unused(call == Call::Begin),
        Left::Any => {
            after
                == Converter {
                    open: true,
                    state: after.state,
                    clamped_lines: after.clamped_lines,
                    ..before
                }
        }
    }
}

// Whether a call left all as document 01 says.
pub(crate) fn is_as_said(c: &Case, before: &Done, after: &Done) -> bool {
    let left = left_by(c.call, after.answer);
    after.same
        && is_record_left(before.converter, after.converter, c.call, left)
        && are_tables_left(&before.arrays, &after.arrays, c, left)
}
