// Document 01, "Lister": the listing of a file, from pieces of the input to pieces of the output.
#![tactic(auto)]

ghost use Rattle.std.specs.Prelude.{◌≡◌, ◌+◌, leb};
ghost use Rattle.printed_lines.specs.Printed.{wrote_line, put_line};
ghost use Rattle.listing.specs.declared.Waiting.TheVariants as waiting;
ghost use Rattle.listing.specs.declared.Refused.TheVariants as refused;
ghost use Rattle.symcache.specs.Answers.{maybe_of};
ghost use Rattle.lookup.specs.Lookup.{stepped};
ghost use Rattle.listing.specs.Pieces.{frame_in, listing_start, refused_of, begin_answer, begun_of, waits?, waiting_for};
ghost use Rattle.listing.specs.Pieces.{frame_line, printed_out, print_of, bad_printed, no_more};
ghost use Rattle.listing.specs.Pieces.{listed_out, list_of, end_of};

use input_lines::{BadLine, Input};
use lookup::{Frame, SourceLocations, Step};
use symcache::{ErrorKind, SymCache};

// What is waiting to be printed: nothing; a bad line, with its number; the frames of an address from here on, or that it has none.
#[derive(Clone, Copy)]
pub enum Waiting {
    Nothing,
    Bad(u32),
    Frames { address: u64, walk: SourceLocations },
}

impl Waiting {
    // Whether something waits.
    fn waits(self) -> bool
        ensures { result ≡ waits? self }
    {
        match self {
            Waiting::Nothing => false,
            Waiting::Bad(_) => true,
            Waiting::Frames { .. } => true,
        }
    }
}

// A listing under way: where the file's tables lie, the input at hand, and what is waiting.
#[derive(Clone, Copy)]
pub struct Listing {
    pub cache: SymCache,
    pub input: Input,
    pub waiting: Waiting,
}

// Why a file is not listed.
#[derive(Debug, Clone, Copy, PartialEq, Eq)]
pub enum Refused {
    // It has more than 65,536 bytes.
    TooLong,
    File(ErrorKind),
}

impl Refused {
    // The number that document 01 gives it.
    pub fn number(self) -> u32
        ensures { result ≡ (refused_of self).number }
    {
        match self {
            Refused::TooLong => 20,
            Refused::File(kind) => kind.number(),
        }
    }
}

impl From<ErrorKind> for Refused {
    ghost from_gives = { λ kind r. r ≡ refused.File kind };

    fn from(kind: ErrorKind) -> Refused {
        Refused::File(kind)
    }
}

// What a call gives: the listing after it, how many bytes of the input it used, and how many of the output it wrote.
#[derive(Clone, Copy)]
pub struct Listed {
    pub listing: Listing,
    pub used: usize,
    pub written: usize,
}

// What is still waiting, and the place in the output after what was printed.
#[derive(Clone, Copy)]
struct Printed {
    waiting: Waiting,
    at: usize,
}

#[tactic(auto, unfolding(crate::specs::Pieces::listing_start))]
fn start(cache: SymCache) -> Listing
    ensures { result ≡ listing_start cache }
{
    Listing {
        cache,
        input: Input::start(),
        waiting: Waiting::Nothing,
    }
}

// Begins to list a file, or what fits of one that is too long: "20 file above 65,536 bytes, before 1". The starts are tested here, so 12 comes
// without input too.
#[tactic(auto, unfolding(crate::specs::Pieces::begun_of, crate::specs::Pieces::begun_by))]
pub fn begin(file: &[u8], too_long: bool) -> Result<Listing, Refused>
    ensures { begin_answer result ≡ begun_of file.now too_long }
{
    if too_long {
        return Err(Refused::TooLong);
    }
    let cache = symcache::open(file)?;
    Ok(start(cache))
}

// Printing. Each of the following prints to `out` from `at` on, line by line, as long as there is room.

// Whether the longest line has room.
fn has_room(len: usize, at: usize) -> bool
    ensures { result ≡ leb (at + 62) len }
{
    62 <= len && at <= len - 62
}

fn print_bad(number: u32, out: &mut [u8], at: usize) -> Printed
    ensures { printed_out result.waiting result.at out.new ≡ bad_printed number out.old at }
{
    if !has_room(out.len(), at) {
        return Printed {
            waiting: Waiting::Bad(number),
            at,
        };
    }
    Printed {
        waiting: Waiting::Nothing,
        at: printed_lines::bad_line(out, at, number),
    }
}

// The walk has ended, after so many frames.
fn no_more_frames(address: u64, frames: u32, out: &mut [u8], at: usize) -> Printed
    ensures { printed_out result.waiting result.at out.new ≡ no_more address frames out.old at }
{
    if 0 < frames {
        return Printed {
            waiting: Waiting::Nothing,
            at,
        };
    }
    Printed {
        waiting: Waiting::Nothing,
        at: printed_lines::no_frame_line(out, at, address),
    }
}

fn print_frame(out: &mut [u8], at: usize, address: u64, number: u32, frame: Frame) -> usize
    ensures { wrote_line result out.new ≡ put_line out.old at (frame_line address number frame) }
{
    printed_lines::frame_line(
        out,
        at,
        address,
        number,
        frame.location_idx,
        frame.function_idx,
        frame.line,
        frame.file_idx,
    )
}

// The next step of a walk; none where it has ended, and where the file is refused.
#[tactic(auto, unfolding(crate::specs::Pieces::frame_in))]
fn next_step(file: &[u8], walk: SourceLocations) -> Option<Step>
    ensures { maybe_of result ≡ frame_in (stepped file.now walk) }
{
    walk.next(file).ok().flatten()
}

fn print_frames(
    file: &[u8],
    address: u64,
    walk: SourceLocations,
    out: &mut [u8],
    at: usize,
) -> Printed
    ensures { printed_out result.waiting result.at out.new ≡ print_of file.now (waiting.Frames address walk) out.old at }
{
    let mut walk = walk;
    let mut at = at;
    // no `for`: it goes on by what a step of the walk gives, as long as there is room
    'frames: while has_room(out.len(), at) {
        let Some(Step { frame, next }) = next_step(file, walk) else {
            return no_more_frames(address, walk.steps, out, at);
        };
        at = print_frame(out, at, address, walk.steps, frame);
        walk = next;
    }
    Printed {
        waiting: Waiting::Frames { address, walk },
        at,
    }
}

fn print(file: &[u8], waiting: Waiting, out: &mut [u8], at: usize) -> Printed
    ensures { printed_out result.waiting result.at out.new ≡ print_of file.now waiting out.old at }
{
    match waiting {
        Waiting::Nothing => Printed { waiting, at },
        Waiting::Bad(number) => print_bad(number, out, at),
        Waiting::Frames { address, walk } => print_frames(file, address, walk, out, at),
    }
}

// Listing

// What a line of the input leaves to print.
#[tactic(auto, unfolding(crate::specs::Pieces::waiting_for))]
fn waiting_for(file: &[u8], cache: SymCache, got: Option<Result<u64, BadLine>>) -> Waiting
    ensures { result ≡ waiting_for file.now cache got }
{
    match got {
        Some(Ok(address)) => Waiting::Frames {
            address,
            walk: lookup::walk(file, cache, address),
        },
        Some(Err(bad)) => Waiting::Bad(bad.0),
        None => Waiting::Nothing,
    }
}

// Lists a piece of the input to `out`, as far as there is room for what it prints. The next call takes what this one left of the piece, or the
// next piece; a piece of no bytes prints what is waiting.
pub fn list(file: &[u8], listing: Listing, piece: &[u8], out: &mut [u8]) -> Listed
    ensures { let after = listed_out result.listing result.used result.written out.new in
        after ≡ list_of file.now listing piece.now out.old }
{
    let cache = listing.cache;
    let mut input = listing.input;
    let mut used: usize = 0;
    let waiting = listing.waiting;
    let mut printed = print(file, waiting, out, 0);
    // no `for`: it goes on by as many bytes as a line took
    while used < piece.len() {
        if printed.waiting.waits() {
            break;
        }
        let read = input.read(piece, used);
        let got = read.got;
        let rest = read.input;
        input = rest;
        used = read.next;
        printed = print(file, waiting_for(file, cache, got), out, printed.at);
    }
    let waiting = printed.waiting;
    Listed {
        listing: Listing {
            cache,
            input,
            waiting,
        },
        used,
        written: printed.at,
    }
}

impl Listing {
    // Whether something waits to be printed.
    pub fn is_waiting(self) -> bool
        ensures { result ≡ waits? self.waiting }
    {
        self.waiting.waits()
    }

    // The input has ended. Its last line may have no 0A; it is taken where nothing waits any more.
    pub fn end(self, file: &[u8]) -> Listing
        ensures { result ≡ end_of file.now self }
    {
        if self.is_waiting() {
            return self;
        }
        let cache = self.cache;
        let input = self.input;
        let last = input.end();
        let input = last.input;
        let got = last.got;
        Listing {
            cache,
            input,
            waiting: waiting_for(file, cache, got),
        }
    }
}
