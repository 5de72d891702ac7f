// What a call is refused with, and the numbers that include/symcache.h gives these refusals.
#![tactic(auto)]

ghost use Rattle.std.specs.Prelude.{◌≡◌};
ghost use Rattle.errors.specs.Numbers.{number_lem, code_of};

// Why a call of the converter or the writer was refused.
#[derive(Debug, Clone, Copy, PartialEq, Eq)]
pub enum Refusal {
    // The slices of the rows are no whole rows, or the rows are no tree.
    InvalidRows,
    // A text lies outside the lent text, or is not UTF-8.
    InvalidText,
    // An address plus size is above 2^64 - 1.
    AddressOverflow,
    // Scratch memory holds fewer rows than there are.
    ScratchTooSmall,
    // A table would need more rows or bytes than it has room for.
    TableFull,
    // The output is shorter than the file.
    OutputTooShort,
    // The converter is closed, or one of its counts is above the table's capacity.
    Closed,
    // A function row lies deeper than 41.
    TooDeep,
}

impl Refusal {
    // The number of the C interface: SYMCACHE_INVALID_ROWS, and so on.
    pub fn number(self) -> u32
        ensures { result ≡ number_lem self }
    {
        match self {
            Refusal::InvalidRows => 13,
            Refusal::InvalidText => 14,
            Refusal::AddressOverflow => 15,
            Refusal::ScratchTooSmall => 16,
            Refusal::TableFull => 17,
            Refusal::OutputTooShort => 18,
            Refusal::Closed => 19,
            Refusal::TooDeep => 25,
        }
    }
}

// What a C function answers: 0 for an accepted call, else the number of what it was refused with.
pub fn code_of<T: Copy>(answer: Result<T, Refusal>) -> u32
    ensures { result ≡ code_of answer }
{
    match answer {
        Ok(_) => 0,
        Err(refusal) => refusal.number(),
    }
}
