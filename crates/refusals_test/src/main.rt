// Shows document 01's numbers 13 to 19, and document 02's 25, at their boundaries: the least that is refused, and the most that is accepted. The cases are
// the lines of data/refusals.cases. A line is printed for each: the number answered, the case's title, and ok, or DIFFERS where some lent memory or the
// record is not left as document 01 says. All lent memory is compared with what it was before the call.
// Each case begins a converter on lent tables that hold other content, gives it the worked tree of document 01 (unless the case says `first`), and then
// makes one call, with what the line changes. After 17 the printed line goes on with the numbers of a tree, a symbol and a write, and of a write after
// a new beginning and the worked tree.
// Not here: a table of more than 16,777,216 rows, a text of more than 268,435,456 bytes (too much for a program's memory).
#![tactic(auto)]

mod calls;
mod case;
mod left;

use crate::calls::{Arrays, Done, call};
use crate::case::{Call, Case};
use crate::left::{OTHER, OTHER_BYTE, is_as_said, unused};
use errors::{Refusal, code_of};

// Makes a call; `same` is whether it left all as it should.
fn make(now: Done, c: Case, file: &[u8]) -> Done {
    let mut done = call(&c, now, file);
    done.same = is_as_said(&c, &now, &done);
    done
}

// Tables that hold other content, and no converter yet.
fn nothing_begun() -> Done {
    let arrays = Arrays {
        string_bytes: [OTHER_BYTE; 96],
        strings: [OTHER; 96],
        files: [OTHER; 96],
        functions: [OTHER; 96],
        call_locations: [OTHER; 96],
        ranges: [OTHER; 96],
    };
    Done {
        answer: Ok(()),
        converter: unused(false),
        arrays,
        same: true,
    }
}

// The calls before the one under test

// The worked tree, unless the call under test is the first.
fn first_tree(now: Done, c: Case, usual: Case, file: &[u8]) -> Done {
    if c.first {
        return now;
    }
    let mut done = make(now, usual, file);
    done.same = done.same && now.same && done.answer.is_ok();
    done
}

// Printed lines

fn print_ok(rt: &impl Print, ok: bool) {
    let how = if ok { "ok" } else { "DIFFERS" };
    let _ = print!(rt; " {how}");
}

fn print_case(rt: &impl Print, title: &[u8], done: Done) {
    let code = code_of(done.answer);
    let _ = print!(rt; "{code} ");
    let _ = rt.write_all(title);
    let _ = print!(rt; ":");
    print_ok(rt, done.same);
}

fn print_next(rt: &impl Print, how: &str, done: Done) {
    let code = code_of(done.answer);
    let _ = print!(rt; "{how} {code}");
    print_ok(rt, done.same);
}

// The calls after the one under test

// Each is made on what the call under test left, since it should be refused and change nothing.
fn next(rt: &impl Print, how: &str, now: Done, c: Case, file: &[u8]) {
    print_next(rt, how, make(now, c, file));
}

// A new beginning, the worked tree, and a write.
fn begun_anew(rt: &impl Print, now: Done, base: Case, file: &[u8]) {
    let now = make(now, base.with_call(Call::Begin), file);
    let now = make(now, base, file);
    next(rt, ", begun anew", now, base.with_call(Call::Write), file);
}

// After 17, a tree, a symbol and a write; then anew. `usual` is the base with the tables of the case.
fn afterwards(rt: &impl Print, now: Done, c: Case, usual: Case, base: Case, file: &[u8]) {
    if now.answer == Err(Refusal::TableFull) {
        next(rt, ", then", now, usual, file);
        next(rt, ",", now, usual.with_call(Call::Symbol), file);
        next(rt, ",", now, usual.with_call(Call::Write), file);
        begun_anew(rt, now, base, file);
        return;
    }
    if c.whole {
        next(rt, ", written", now, usual.with_call(Call::Write), file);
    }
}

// A case: the beginning, the tree before the call under test, the call, and what comes after it.
fn run(rt: &impl Print, file: &[u8], title: &[u8], c: Case, base: Case) {
    let usual = base.with_tables_of(c).with_call(Call::Tree);
    let now = make(nothing_begun(), usual.with_call(Call::Begin), file);
    let mut now = first_tree(now, c, usual, file);
    now.converter.open = !c.closed;
    let mut done = make(now, c, file);
    done.same = done.same && now.same;
    print_case(rt, title, done);
    afterwards(rt, done, c, usual, base, file);
    let _ = println!(rt);
}

// The lines of the data file

// A line without a colon, or of a comment, says nothing. The line of the title `base` changes what all cases begin with; any other is a case.
fn run_line(rt: &impl Print, file: &[u8], base: Case, line: &[u8]) -> Case {
    if line.starts_with(b"#") {
        return base;
    }
    let Some(end) = line.iter().position(|b| *b == b':') else {
        return base;
    };
    let title = &line[..end];
    let c = base.with_words(rt, &line[end + 1..]);
    if title == b"base".as_slice() {
        return c;
    }
    run(rt, file, title, c, base);
    base
}

// Each line ends with 0A. What comes after the last 0A is no line.
fn run_lines(rt: &impl Print, file: &[u8], s: &[u8]) {
    let mut base = Case::BLANK;
    for line in s.split_inclusive(|b| *b == b'\n') {
        if let Some(line) = line.strip_suffix(b"\n") {
            base = run_line(rt, file, base, line);
        }
    }
}

fn main(rt: HostRuntime) {
    let mut file = [0u8; 512];
    let n = replay::read_file(&rt, "worked.sym", &mut file);
    let mut cases = [0u8; 32768];
    let m = replay::read_file(&rt, "refusals.cases", &mut cases);
    run_lines(&rt, &file[..n], &cases[..m]);
}
