// A case: what is lent, and what is called. A line of data/refusals.cases says it in words.
ghost use Rattle.std.specs.Prelude.{◌<◌, IfSome};

#[derive(Clone, Copy, PartialEq, Eq)]
pub(crate) enum Call {
    Begin,
    Tree,
    Symbol,
    Write,
}

// The slices that are lent: the tables, scratch, the output, and what a call is given. `Named` are the numbers that a symbol is given.
#[derive(Clone, Copy, PartialEq, Eq)]
pub(crate) enum Slice {
    StringBytes,
    Strings,
    Files,
    Functions,
    CallLocations,
    Ranges,
    Scratch,
    Out,
    Functions64,
    Functions32,
    Lines64,
    Lines32,
    Text,
    Named,
}

impl Slice {
    // Where its number i stands among the words of a case: there are 64 for what a call is given, and none for the others.
    fn place(self, i: usize) -> Option<usize>
        ensures { IfSome result (λ at. at < 384) }
    {
        let from = match self {
            Slice::Functions64 => 0,
            Slice::Functions32 => 64,
            Slice::Lines64 => 128,
            Slice::Lines32 => 192,
            Slice::Text => 256,
            Slice::Named => 320,
            _ => return None,
        };
        if i < 64 { Some(from + i) } else { None }
    }
}

// What a number of a line stands for: how much of a slice is lent, to all calls or to the one under test alone, or where the next value stands, or the value.
#[derive(Clone, Copy)]
enum Mode {
    Of,
    Only,
    At,
    Is,
}

// A word of a line.
#[derive(Clone, Copy)]
enum Word {
    Number(u64),
    Slice(Slice),
    Mode(Mode),
    Call(Call),
    First,
    Whole,
    Closed,
    Nested,
}

// A word of a line that says nothing.
#[derive(Debug, Clone, Copy)]
struct UnknownWord;

impl TryFrom<&[u8]> for Word {
    type Error = UnknownWord;

    fn try_from(w: &[u8]) -> Result<Word, UnknownWord> {
        match w {
            b"string_bytes" => Ok(Word::Slice(Slice::StringBytes)),
            b"strings" => Ok(Word::Slice(Slice::Strings)),
            b"files" => Ok(Word::Slice(Slice::Files)),
            b"functions" => Ok(Word::Slice(Slice::Functions)),
            b"call_locations" => Ok(Word::Slice(Slice::CallLocations)),
            b"ranges" => Ok(Word::Slice(Slice::Ranges)),
            b"scratch" => Ok(Word::Slice(Slice::Scratch)),
            b"out" => Ok(Word::Slice(Slice::Out)),
            b"functions64" => Ok(Word::Slice(Slice::Functions64)),
            b"functions32" => Ok(Word::Slice(Slice::Functions32)),
            b"lines64" => Ok(Word::Slice(Slice::Lines64)),
            b"lines32" => Ok(Word::Slice(Slice::Lines32)),
            b"text" => Ok(Word::Slice(Slice::Text)),
            b"named" => Ok(Word::Slice(Slice::Named)),
            b"of" => Ok(Word::Mode(Mode::Of)),
            b"only" => Ok(Word::Mode(Mode::Only)),
            b"at" => Ok(Word::Mode(Mode::At)),
            b"is" => Ok(Word::Mode(Mode::Is)),
            b"begin" => Ok(Word::Call(Call::Begin)),
            b"tree" => Ok(Word::Call(Call::Tree)),
            b"symbol" => Ok(Word::Call(Call::Symbol)),
            b"write" => Ok(Word::Call(Call::Write)),
            b"first" => Ok(Word::First),
            b"whole" => Ok(Word::Whole),
            b"closed" => Ok(Word::Closed),
            b"nested" => Ok(Word::Nested),
            _ => number(w).map(Word::Number).ok_or(UnknownWord),
        }
    }
}

// A number with one digit more. Beyond 64 bits it stays, and so it does at a byte below a digit.
fn with_digit(v: u64, d: u8) -> u64 {
    if v > u64::MAX / 10 || d < b'0' {
        return v;
    }
    (v * 10).wrapping_add(u64::from(d - b'0'))
}

// A word that begins with a digit is a number.
fn number(w: &[u8]) -> Option<u64> {
    if !w.first()?.is_ascii_digit() {
        return None;
    }
    let mut v = 0;
    for d in w {
        v = with_digit(v, *d);
    }
    Some(v)
}

// The last word of a case, the one of `named` at 63: it isn't 0 for a case that is `nested`.
const NESTED: usize = 383;

// `begun` is how much of each slice is lent to the calls before the one under test, `lent` how much to that one. `words` are what a call is given.
// `slice`, `mode` and `index` say what the next number of the line stands for.
#[derive(Clone, Copy)]
pub(crate) struct Case {
    pub call: Call,
    pub first: bool,
    pub whole: bool,
    pub closed: bool,
    begun: [usize; 14],
    lent: [usize; 14],
    words: [u64; 384],
    slice: Slice,
    mode: Mode,
    index: usize,
}

impl Case {
    pub(crate) const BLANK: Case = Case {
        call: Call::Tree,
        first: false,
        whole: false,
        closed: false,
        begun: [0; 14],
        lent: [0; 14],
        words: [0; 384],
        slice: Slice::StringBytes,
        mode: Mode::Of,
        index: 0,
    };

    // The case of another call.
    pub(crate) fn with_call(self, call: Call) -> Case {
        Case { call, ..self }
    }

    // With as much of the tables lent as another case begins with.
    pub(crate) fn with_tables_of(mut self, other: Case) -> Case {
        self.lent[..6].copy_from_slice(&other.begun[..6]);
        self
    }

    // How much of a slice is lent.
    pub(crate) fn lent(&self, slice: Slice) -> usize {
        self.lent[slice as usize]
    }

    // Number i of a slice. After the first 64 every function row is an inlinee of depth 1 and zeros; where the case is `nested`, it lies inside the row
    // before it, so its depth is how many rows come before it.
    pub(crate) fn number(&self, slice: Slice, i: usize) -> u64 {
        match slice.place(i) {
            Some(at) => self.words[at],
            None if slice == Slice::Functions32 && i % 8 == 0 => {
                if self.words[NESTED] != 0 {
                    (i / 8) as u64
                } else {
                    1
                }
            }
            None => 0,
        }
    }

    // The same as the other numbers that a call is given.

    pub(crate) fn number32(&self, slice: Slice, i: usize) -> u32 {
        (self.number(slice, i) % 4294967296) as u32
    }

    pub(crate) fn byte(&self, slice: Slice, i: usize) -> u8 {
        (self.number(slice, i) % 256) as u8
    }

    // A number of a line.
    fn with_number(mut self, v: u64) -> Case {
        match self.mode {
            Mode::Of => {
                self.lent[self.slice as usize] = v as usize;
                self.begun[self.slice as usize] = v as usize;
            }
            Mode::Only => self.lent[self.slice as usize] = v as usize,
            Mode::At => self.index = v as usize,
            Mode::Is => {
                if let Some(at) = self.slice.place(self.index) {
                    self.words[at] = v;
                    self.index = self.index.wrapping_add(1);
                }
            }
        }
        self
    }

    fn with_word(mut self, word: Word) -> Case {
        match word {
            Word::Number(v) => return self.with_number(v),
            Word::Slice(slice) => {
                self.slice = slice;
                self.index = 0;
            }
            Word::Mode(mode) => self.mode = mode,
            Word::Call(call) => self.call = call,
            Word::First => self.first = true,
            Word::Whole => self.whole = true,
            Word::Closed => self.closed = true,
            Word::Nested => self.words[NESTED] = 1,
        }
        self
    }

    // The case changed by the words of a line, which are parted by spaces. An unknown word is printed, so that it is seen.
    pub(crate) fn with_words(self, rt: &impl Print, s: &[u8]) -> Case {
        let mut now = self;
        for w in s.split(|b| *b == b' ') {
            if w.is_empty() {
                continue;
            }
            match Word::try_from(w) {
                Ok(word) => now = now.with_word(word),
                Err(UnknownWord) => {
                    let _ = print!(rt; "unknown word ");
                    let _ = rt.write_all(w);
                    let _ = println!(rt);
                }
            }
        }
        now
    }
}
