// Texts and names of the reader over words. The exported functions of these names pass on what these answer.
#![tactic(auto)]

ghost use Rattle.std.specs.Prelude.{◌≡◌};
ghost use Rattle.file_texts.specs.Strings.{string_answer};
ghost use Rattle.c_reading.specs.Reading.{filled, answered, part_words, string_call, got_name, name_call};

use file_texts::Part;
use slices::put;
use symcache::ErrorKind;

#[tactic(auto, unfolding(c_reading::specs::Reading::answered))]
fn put_string(part: &mut [u64], string: Result<Option<Part>, ErrorKind>) -> u32
    ensures { filled result part.new ≡ answered part_words (string_answer string) part.old }
{
    match string {
        Ok(Some(Part { start, len })) => {
            put(part, 0, 1);
            put(part, 1, start as u64);
            put(part, 2, len as u64);
            0
        }
        Ok(None) => {
            put(part, 0, 0);
            0
        }
        Err(kind) => kind.number(),
    }
}

// Resolves a string reference: 1 to 11, or 0 and where the text lies.
#[tactic(auto, unfolding(c_reading::specs::Reading::string_call))]
pub fn read_string(bytes: &[u8], offset: u32, part: &mut [u64]) -> u32
    ensures { filled result part.new ≡ string_call bytes.now offset part.old }
{
    put_string(part, file_texts::read_string(bytes, offset))
}

#[tactic(auto, unfolding(c_reading::specs::Reading::got_name, c_reading::specs::Reading::name_after, symcache::specs::Answers::and_then))]
fn name_of(bytes: &[u8], function_idx: u32) -> Result<Option<Part>, ErrorKind>
    ensures { string_answer result ≡ got_name bytes.now function_idx }
{
    match lookup::get_function(bytes, function_idx)? {
        Some(function) => file_texts::read_string(bytes, function.name_offset),
        None => Ok(None),
    }
}

// The name of a function: 1 to 11, or 0 and where it lies. Absent means the stand-in.
#[tactic(auto, unfolding(c_reading::specs::Reading::name_call))]
pub fn function_name(bytes: &[u8], function_idx: u32, part: &mut [u64]) -> u32
    ensures { filled result part.new ≡ name_call bytes.now function_idx part.old }
{
    put_string(part, name_of(bytes, function_idx))
}
