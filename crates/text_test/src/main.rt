// Runs vectors of LEB128, UTF-8 and texts: DWARF 5's examples, RFC 3629's, the boundaries of its nine alternatives, and what must be refused.
// Standard input has a vector a line, as lower-case hexadecimal bytes; what follows a # is a comment. A line is printed for each: the bytes; u and whether
// they are UTF-8; n, the LEB128 number that they begin with and its length, = and its shortest form; t, where the text at offset 0 starts, its length
// and its bytes. A - stands for absent.
#![tactic(auto)]

ghost use Rattle.std.specs.Option.{ForSome};
ghost use Rattle.std.specs.Prelude.{◌<◌, IfSome};

use text::leb128::{Leb, read_leb128, write_leb128};
use text::strings::{Text, read_text, text_part};
use text::utf8::is_utf8;

// The line that is being read: how many bytes it has, and the digit that waits for its second.
#[derive(Clone, Copy)]
struct Line {
    used: usize,
    high: Option<u8>,
    comment: bool,
    ghost half: { ForSome high (λ d. d < 16) },
}

impl Line {
    const START: Line = Line {
        used: 0,
        high: None,
        comment: false,
    };
}

// A digit's value; none for any other byte.
fn digit(b: u8) -> Option<u8>
    ensures { IfSome result (λ d. d < 16) }
{
    match b {
        b'0'..=b'9' => Some(b - b'0'),
        b'a'..=b'f' => Some(b - b'a' + 10),
        _ => None,
    }
}

fn hexes(rt: &impl Print, s: &[u8]) {
    for b in s {
        let _ = print!(rt; "{b:02x} ");
    }
}

// The shortest form of v.
fn print_shortest(rt: &impl Print, v: u64) {
    let mut out = [0u8; 10];
    if let Some(n) = write_leb128(&mut out, 0, v) {
        hexes(rt, &out[..n.min(10)]);
    }
}

fn print_number(rt: &impl Print, s: &[u8]) {
    let Some(Leb { value, len }) = read_leb128(s, 0) else {
        let _ = print!(rt; "n- ");
        return;
    };
    let _ = print!(rt; "n{value:016x} {len} = ");
    print_shortest(rt, value);
}

fn print_text(rt: &impl Print, s: &[u8]) {
    let Some(Text { start, len }) = read_text(s, 0) else {
        let _ = print!(rt; "t- ");
        return;
    };
    let _ = print!(rt; "t{start} {len} ");
}

fn print_utf8(rt: &impl Print, s: &[u8]) {
    let n = u8::from(is_utf8(s));
    let _ = print!(rt; "u{n} ");
}

fn report(rt: &impl Print, s: &[u8]) {
    hexes(rt, s);
    print_utf8(rt, s);
    print_number(rt, s);
    print_text(rt, s);
    hexes(rt, text_part(s, 0));
    let _ = println!(rt);
}

// One byte of the input.
fn feed(rt: &impl Print, line: &mut [u8], now: Line, b: u8) -> Line {
    if b == b'\n' {
        if now.used > 0 || !now.comment {
            if let Some(read) = line.get(..now.used) {
                report(rt, read);
            }
        }
        return Line::START;
    }
    if now.comment {
        return now;
    }
    if b == b'#' {
        return Line {
            used: now.used,
            high: None,
            comment: true,
        };
    }
    let Some(low) = digit(b) else {
        return now;
    };
    let Some(high) = now.high else {
        return Line {
            used: now.used,
            high: Some(low),
            comment: false,
        };
    };
    if let Some(place) = line.get_mut(now.used) {
        *place = high * 16 + low;
    }
    Line {
        used: now.used.wrapping_add(1),
        high: None,
        comment: false,
    }
}

fn feed_all(rt: &impl Print, line: &mut [u8], input: &[u8]) {
    let mut now = Line::START;
    for b in input {
        now = feed(rt, line, now, *b);
    }
}

fn main(rt: HostRuntime) {
    let mut input = [0u8; 16384];
    let n = replay::read_full(&mut rt.stdin(), &mut input);
    let mut line = [0u8; 64];
    feed_all(&rt, &mut line, &input[..n]);
}
