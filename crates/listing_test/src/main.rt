// Lists stored cases by crate listing, with input and output cut at every place, and compares what is printed with what the case expects. A line for each
// case: how many runs, and how many of them printed something else. stdout.txt says how the cases were made.
#![tactic(auto)]

ghost use Rattle.std.specs.Prelude.{◌≤◌, length};

use input_lines::Input;
use listing::Listing;
use replay::{Visit, place, word};
use std::fs;

// A file, an input, and what is to be printed of it.
#[derive(Clone, Copy)]
struct Case<'a> {
    file: &'a [u8],
    input: &'a [u8],
    expected: &'a [u8],
}

// A listing under way, how many of the expected bytes were printed, and whether all that was printed was expected.
#[derive(Clone, Copy)]
struct Run {
    listing: Listing,
    at: usize,
    same: bool,
}

// How many runs were made, and how many of them printed something else.
#[derive(Clone, Copy, Default)]
struct Tally {
    runs: u32,
    differ: u32,
}

// Listing

impl Run {
    // One call, and how many bytes of the piece it used.
    fn call(&mut self, case: Case, piece: &[u8], out: &mut [u8]) -> usize
        ensures { result ≤ length piece.now }
    {
        let listed = listing::list(case.file, self.listing, piece, out);
        let printed = &out[..listed.written];
        let as_expected = match case.expected.get(self.at..) {
            Some(rest) => rest.starts_with(printed),
            None => false,
        };
        self.listing = listed.listing;
        self.at = place(self.at, listed.written);
        self.same = self.same && as_expected;
        listed.used
    }

    // The whole input, in pieces of `step` bytes at most, the first of `first`. Nothing says that calls get on, so they are counted.
    fn read(&mut self, case: Case, first: usize, step: usize, out: &mut [u8]) {
        let mut rest = case.input;
        let mut most = first;
        for _ in 0..1000000 {
            if rest.is_empty() {
                break;
            }
            let used = self.call(case, &rest[..most.min(rest.len())], out);
            rest = &rest[used..];
            most = step;
        }
    }

    // Calls without input, until nothing waits.
    fn drain(&mut self, case: Case, out: &mut [u8]) {
        for _ in 0..1000000 {
            if !self.listing.is_waiting() {
                break;
            }
            self.call(case, &[], out);
        }
    }
}

// Whether a listing to outputs of `room` bytes prints just what is expected.
fn is_listed(case: Case, listing: Listing, first: usize, step: usize, room: usize) -> bool {
    let mut space = [0u8; 65536];
    let out = &mut space[..room.min(65536)];
    let mut run = Run {
        listing,
        at: 0,
        same: true,
    };
    run.read(case, first, step, out);
    run.drain(case, out);
    run.listing = run.listing.end(case.file);
    run.drain(case, out);
    run.same && run.at == case.expected.len()
}

// Cases

impl Tally {
    fn add(&mut self, same: bool) {
        self.runs = self.runs.wrapping_add(1);
        self.differ = self.differ.wrapping_add(u32::from(!same));
    }

    fn print(self, rt: &impl Print) {
        let runs = self.runs;
        let differ = self.differ;
        let _ = println!(rt; "{runs} runs, {differ} differ");
    }
}

fn list_case(case: Case, listing: Listing) -> Tally {
    let mut tally = Tally::default();
    // The input in two pieces, cut at each place; into one output.
    for cut in 0..case.input.len() {
        tally.add(is_listed(case, listing, cut, 65536, 65536));
    }
    // The input in pieces of each length, from one byte on; into outputs that one line fits into.
    for step in 1..=case.input.len() {
        tally.add(is_listed(case, listing, step, step, 62));
    }
    // The whole input; into outputs of 62 to 186 bytes, which three lines fit into.
    for room in 62..=186 {
        tally.add(is_listed(case, listing, 65536, 65536, room));
    }
    tally
}

// A refused file prints its line, and nothing else.
fn refuse_case(case: Case, number: u32) -> Tally {
    let mut out = [0u8; 11];
    printed_lines::refused_line(&mut out, 0, number);
    let mut tally = Tally::default();
    tally.add(case.expected == out.as_slice());
    tally
}

// The listing, at a line of that number.
fn at_number(listing: Listing, number: u32) -> Listing {
    let input = Input {
        number,
        ..listing.input
    };
    Listing { input, ..listing }
}

// A record: whether the file is too long, the number of the first line, how many bytes the file has, and the input; then these, and what is expected.
fn replay_case(rt: &impl Print, s: &[u8]) {
    let too_long = word(s, 0) != 0;
    let number = word(s, 4);
    let (_, rest) = s.split_at(s.len().min(16));
    let (file, rest) = rest.split_at(rest.len().min(word(s, 8) as usize));
    let (input, expected) = rest.split_at(rest.len().min(word(s, 12) as usize));
    let case = Case {
        file,
        input,
        expected,
    };
    let tally = match listing::begin(file, too_long) {
        Ok(listing) => list_case(case, at_number(listing, number)),
        Err(refused) => refuse_case(case, refused.number()),
    };
    tally.print(rt);
}

// The cases of the data file, a line for each.
#[derive(Drop)]
struct Cases<'a, R> {
    rt: &'a R,
}

impl<R: Print> Visit for Cases<'_, R> {
    ghost visits = { λ _ _ _. Unit {0} };

    fn visit(&mut self, record: &[u8]) {
        replay_case(self.rt, record);
    }
}

fn main(rt: HostRuntime) {
    let Ok(mut from) = fs::open(&rt, "listing.cases") else {
        return;
    };
    let mut record = [0u8; 65536];
    replay::visit_records(&mut from, &mut record, &mut Cases { rt: &rt });
}
