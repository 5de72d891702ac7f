// Document 01, "Lister": the lines of an input, in pieces of any length, and the address that each line has.
#![tactic(auto)]

ghost use Rattle.std.specs.Prelude.{◌≡◌, drop, ◌==◌};
ghost use Rattle.input_lines.specs.Line.{line_start, feed_of, finish_of};
ghost use Rattle.input_lines.specs.Input.{input_start, after_line, whole_line, line_at_lem, fed, read_on, at_end};

// What is kept of the line that is being read: its bytes, counted up to 17, the number that its digits write,
// and whether a byte was no digit.
#[derive(Clone, Copy, Debug, PartialEq, Eq)]
pub struct LineState {
    pub digits: u32,
    pub value: u64,
    pub bad: bool,
}

impl LineState {
    // Before a line's first byte.
    fn start() -> LineState
        ensures { result ≡ line_start }
    {
        LineState {
            digits: 0,
            value: 0,
            bad: false,
        }
    }

    // After one byte more, which isn't the line's 0A.
    fn feed(self, byte: u8) -> LineState
        ensures { result ≡ feed_of self byte }
    {
        let digit = char::from(byte).to_digit(16);
        LineState {
            digits: self.digits.saturating_add(1).min(17),
            value: self.value % 0x1000_0000_0000_0000 * 16 + u64::from(digit.unwrap_or(0)),
            bad: self.bad || digit.is_none(),
        }
    }

    // Whether no byte has come yet.
    fn is_empty(self) -> bool
        ensures { result ≡ (self.digits == 0) }
    {
        self.digits == 0
    }

    // The address that the line has, now that it is whole; none where it is bad.
    #[tactic(auto, unfolding(crate::specs::Line::finish_of))]
    fn finish(self) -> Option<u64>
        ensures { result ≡ finish_of self }
    {
        if 1 <= self.digits && self.digits <= 16 && !self.bad {
            Some(self.value)
        } else {
            None
        }
    }
}

// An input that is being read: the line at hand, and its number from 1 modulo 2^32.
#[derive(Clone, Copy, Debug, PartialEq, Eq)]
pub struct Input {
    pub line: LineState,
    pub number: u32,
}

// A bad line, by its number.
#[derive(Clone, Copy, Debug, PartialEq, Eq)]
pub struct BadLine(pub u32);

// The input after reading on in a piece, the place in the piece from which on to read, and the whole line that was
// read, if any.
#[derive(Clone, Copy, Debug, PartialEq, Eq)]
pub struct ReadOn {
    pub input: Input,
    pub next: usize,
    pub got: Option<Result<u64, BadLine>>,
}

// The input after its end, and its last line, if any.
#[derive(Clone, Copy, Debug, PartialEq, Eq)]
pub struct AtEnd {
    pub input: Input,
    pub got: Option<Result<u64, BadLine>>,
}

impl Input {
    // Before the first byte.
    pub fn start() -> Input
        ensures { result ≡ input_start }
    {
        Input {
            line: LineState::start(),
            number: 1,
        }
    }

    // The line after the one at hand.
    fn after_line(self) -> Input
        ensures { result ≡ after_line self }
    {
        Input {
            line: LineState::start(),
            number: self.number.wrapping_add(1),
        }
    }

    // The line at hand is whole: what it says, and the line after it.
    fn end_line(self) -> AtEnd
        ensures { result ≡ whole_line self }
    {
        AtEnd {
            input: self.after_line(),
            got: Some(self.line.finish().ok_or(BadLine(self.number))),
        }
    }

    // The same, in a piece that goes on at `next`.
    fn end_at(self, next: usize) -> ReadOn
        ensures { result ≡ line_at_lem self next }
    {
        let AtEnd { input, got } = self.end_line();
        ReadOn { input, next, got }
    }

    // The line at hand with one byte more, which is not its 0A.
    fn feed(self, byte: u8) -> Input
        ensures { result ≡ fed self byte }
    {
        Input {
            line: self.line.feed(byte),
            number: self.number,
        }
    }

    // Reads on in a piece of the input from `from` on, up to the end of a line or of the piece.
    #[tactic(auto, using(crate::proofs::Pieces::read_cases))]
    pub fn read(self, bytes: &[u8], from: usize) -> ReadOn
        ensures { result ≡ read_on self from (drop from bytes.now) }
    {
        let mut input = self;
        for i in from..bytes.len() {
            if bytes[i] == b'\n' {
                return input.end_at(i + 1);
            }
            input = input.feed(bytes[i]);
        }
        ReadOn {
            input,
            next: from.max(bytes.len()),
            got: None,
        }
    }

    // The input has ended. "bytes after the last 0A, if any, are a line"
    pub fn end(self) -> AtEnd
        ensures { result ≡ at_end self }
    {
        if self.line.is_empty() {
            return AtEnd {
                input: self,
                got: None,
            };
        }
        self.end_line()
    }
}
