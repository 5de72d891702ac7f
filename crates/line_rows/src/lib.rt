// A tree call whose line rows are one lent list: their texts, the words that they are unpacked to, and the number that the call is refused with before
// a word is unpacked. What the whole call leaves is said in crate line_calls.
#![tactic(auto)]

ghost use Rattle.std.specs.Prelude.{◌≡◌};
ghost use Rattle.errors.specs.Numbers.{code_of};
ghost use Rattle.line_rows.specs.Lines.{words64, words32, lines_texts?, put_row, unpacked_to};
ghost use Rattle.line_rows.specs.Numbers.{number_of};

use errors::Refusal;
use refusals::line_texts;
use rows::{FunctionRows, LineRow};
use slices::flag;

// Invalid text: the texts of all line rows, up to the first row whose texts aren't in order.
pub fn lines_texts(lines: &[LineRow], text: &[u8]) -> bool
    ensures { result ≡ lines_texts? text.now lines.now }
{
    lines.iter().all(|row| line_texts(text, *row))
}

// The three 64-bit words of row j, where there is room.
fn put_words64(unpacked64: &mut [u64], j: usize, row: LineRow)
    ensures { unpacked64.new ≡ put_row 3 unpacked64.old j (words64 row) }
{
    if j < unpacked64.len() / 3 {
        let k = j * 3;
        unpacked64[k] = row.address;
        unpacked64[k + 1] = row.size;
        unpacked64[k + 2] = row.number;
    }
}

// Its fourteen 32-bit words.
fn put_words32(unpacked32: &mut [u32], j: usize, row: LineRow)
    ensures { unpacked32.new ≡ put_row 14 unpacked32.old j (words32 row) }
{
    if j < unpacked32.len() / 14 {
        let has_size = flag(row.has_size);
        let srcsrv_name = flag(row.srcsrv_name.present);
        let srcsrv_dir = flag(row.srcsrv_dir.present);
        let revision = flag(row.revision.present);
        let k = j * 14;
        unpacked32[k] = has_size;
        unpacked32[k + 1] = row.name.start;
        unpacked32[k + 2] = row.name.len;
        unpacked32[k + 3] = row.directory.start;
        unpacked32[k + 4] = row.directory.len;
        unpacked32[k + 5] = srcsrv_name;
        unpacked32[k + 6] = row.srcsrv_name.part.start;
        unpacked32[k + 7] = row.srcsrv_name.part.len;
        unpacked32[k + 8] = srcsrv_dir;
        unpacked32[k + 9] = row.srcsrv_dir.part.start;
        unpacked32[k + 10] = row.srcsrv_dir.part.len;
        unpacked32[k + 11] = revision;
        unpacked32[k + 12] = row.revision.part.start;
        unpacked32[k + 13] = row.revision.part.len;
    }
}

// Row j into both columns.
fn put_line(unpacked64: &mut [u64], unpacked32: &mut [u32], j: usize, row: LineRow)
    ensures { (unpacked64.new ≡ put_row 3 unpacked64.old j (words64 row))
        × (unpacked32.new ≡ put_row 14 unpacked32.old j (words32 row)) }
{
    put_words64(unpacked64, j, row);
    put_words32(unpacked32, j, row);
}

// All rows into the memory that is lent for them; nothing where the call is refused.
pub fn unpack(refused: u32, lines: &[LineRow], unpacked64: &mut [u64], unpacked32: &mut [u32])
    ensures { (unpacked64.new ≡ unpacked_to refused 3 words64 lines.now unpacked64.old)
        × (unpacked32.new ≡ unpacked_to refused 14 words32 lines.now unpacked32.old) }
{
    if refused != 0 {
        return;
    }
    for j in 0..lines.len() {
        put_line(&mut *unpacked64, &mut *unpacked32, j, lines[j]);
    }
}

// What the call is refused with before a word is unpacked: closed, else what its rows are refused with, else too little memory to unpack them into.
#[tactic(auto, unfolding(crate::specs::Numbers::number_of))]
pub fn refusal(
    usable: bool,
    scratch: usize,
    unpacked64: usize,
    unpacked32: usize,
    functions: FunctionRows,
    lines: usize,
    texts: bool,
    text: &[u8],
) -> Result<(), Refusal>
    ensures { let f64 = functions.entry.columns64.now in
        let f32 = functions.entry.columns32.now in
        code_of result ≡ number_of usable scratch unpacked64 unpacked32 f64 f32 lines texts text.now }
{
    if !usable {
        return Err(Refusal::Closed);
    }
    refusals::refusal_with(functions, lines, texts, text, scratch)?;
    if unpacked64 / 3 < lines || unpacked32 / 14 < lines {
        return Err(Refusal::ScratchTooSmall);
    }
    Ok(())
}
