// Document 01, "Lister": reads cache.sym, and lists what standard input asks for. What is printed is crate listing's; this program opens, reads, hands
// pieces over and writes.
#![tactic(auto)]

ghost use Rattle.std.specs.Prelude.{◌+◌, ◌≤◌, length, IfOk};

use listing::Listing;
use std::io::{ErrorKind, Read};
use std::{fs, io};

// Output was lost, which is said on standard error.
#[derive(Clone, Copy)]
struct Lost;

// A listing, and the place in a piece from which on to list.
#[derive(Clone, Copy)]
struct Place {
    listing: Listing,
    from: usize,
}

// What is said on standard error

// The text of an error without its number, which stands after it in parentheses.
fn reason(text: &str) -> &str {
    match text.split_once(" (os error ") {
        Some((reason, _)) => reason,
        None => text,
    }
}

// Says on standard error what failed, and why.
fn fail<R: Eprint + Alloc>(rt: &R, what: &str, error: io::Error) {
    let said = match format!(in rt.alloc(); "{error}") {
        Ok(text) => rt.eprintln(format_args!("lister: {what}: {}", reason(text.as_str()))),
        Err(_) => eprintln!(rt; "lister: {what}: {error}"),
    };
    let _ = said;
}

// Output

// Writes the bytes. If some are lost, that is said on standard error.
fn send<R: Print + Eprint + Alloc>(rt: &R, bytes: &[u8]) -> Result<(), Lost> {
    match rt.write_all(bytes) {
        Ok(()) => Ok(()),
        Err(error) => {
            fail(rt, "standard output", error);
            Err(Lost)
        }
    }
}

fn print_refused<R: Print + Eprint + Alloc>(rt: &R, number: u32) {
    let mut out = [0u8; 11];
    printed_lines::refused_line(&mut out, 0, number);
    let _ = send(rt, &out);
}

// Input

// One call of the library, and one write.
fn list_some<R: Print + Eprint + Alloc>(
    rt: &R,
    file: &[u8],
    listing: Listing,
    piece: &[u8],
    from: usize,
) -> Result<Place, Lost>
    requires { from ≤ length piece.now }
    ensures { IfOk result (λ p. p.from ≤ length piece.now) }
{
    let mut out = [0u8; 65536];
    let listed = listing::list(file, listing, &piece[from..], &mut out);
    send(rt, &out[..listed.written])?;
    Ok(Place {
        listing: listed.listing,
        from: from + listed.used,
    })
}

// Lists a piece of the input until it is used up and nothing waits. The calls are counted.
fn list_piece<R: Print + Eprint + Alloc>(
    rt: &R,
    file: &[u8],
    listing: Listing,
    piece: &[u8],
) -> Result<Listing, Lost> {
    let mut place = Place { listing, from: 0 };
    for _ in 0..u64::MAX {
        place = list_some(rt, file, place.listing, piece, place.from)?;
        if piece.len() <= place.from && !place.listing.is_waiting() {
            break;
        }
    }
    Ok(place.listing)
}

// Reads once, and lists what was read; none at the end of the input. A read that a signal interrupted is tried again; any other failure is said on
// standard error, and ends the input.
fn read_some<R: Print + Eprint + Alloc, I: Read>(
    rt: &R,
    input: &mut I,
    file: &[u8],
    listing: Listing,
) -> Result<Option<Listing>, Lost> {
    let mut piece = [0u8; 65536];
    match input.read(&mut piece) {
        Ok(0) => Ok(None),
        Ok(n) => Ok(Some(list_piece(rt, file, listing, &piece[..n])?)),
        Err(error) => {
            if error.kind() == ErrorKind::Interrupted {
                return Ok(Some(listing));
            }
            fail(rt, "standard input", error);
            Ok(None)
        }
    }
}

// To the end of the input. Nothing says that it ends, so the reads are counted.
fn read_all<R: Print + Eprint + Alloc, I: Read>(
    rt: &R,
    input: &mut I,
    file: &[u8],
    listing: Listing,
) -> Result<Listing, Lost> {
    let mut listing = listing;
    for _ in 0..u64::MAX {
        match read_some(rt, input, file, listing)? {
            Some(next) => listing = next,
            None => break,
        }
    }
    Ok(listing)
}

// The whole input.
fn list_input<R: Input + Print + Eprint + Alloc>(
    rt: &R,
    file: &[u8],
    listing: Listing,
) -> Result<(), Lost> {
    let last = read_all(rt, &mut rt.reader(), file, listing)?;
    list_piece(rt, file, last.end(file), &file[..0])?;
    Ok(())
}

// All of the work, over the bytes that were read.
fn list<R: Input + Print + Eprint + Alloc>(rt: &R, file: &[u8], too_long: bool) {
    match listing::begin(file, too_long) {
        Ok(listing) => {
            let _ = list_input(rt, file, listing);
        }
        Err(refused) => print_refused(rt, refused.number()),
    }
}

// The file

// Reads until `to` is full, the input ends or a read fails, and answers how many bytes stand at the front of `to`.
fn read_full<F: Read>(from: &mut F, to: &mut [u8]) -> usize
    ensures { result ≤ length to.new }
{
    let mut done: usize = 0;
    // no `for`: each turn goes on by as many bytes as a read gave
    while done < to.len() {
        match from.read(&mut to[done..]) {
            Ok(0) | Err(_) => break,
            Ok(n) => done += n,
        }
    }
    done
}

// A file that can't be opened, or not read, counts as empty. One byte more than there is room for is asked for.
fn main(rt: HostRuntime) {
    let mut file = [0u8; 65536];
    let Ok(mut from) = fs::open(&rt, "cache.sym") else {
        list(&rt, &file[..0], false);
        return;
    };
    let used = read_full(&mut from, &mut file);
    let mut extra = [0u8; 1];
    let over = read_full(&mut from, &mut extra);
    drop(from);
    list(&rt, &file[..used], 0 < over);
}
