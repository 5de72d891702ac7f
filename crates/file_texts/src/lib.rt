// Texts of a file: `get_string` of v9/mod.rs, and the names of functions.
#![tactic(auto)]

ghost use Rattle.std.specs.Prelude.{◌≡◌, length};
ghost use Rattle.text.specs.Texts.{read_text};
ghost use Rattle.symcache.specs.Reader.{Within};
ghost use Rattle.file_texts.specs.Strings.{section_of, string_answer, got_string, string_of, text_or, name_of};

use raw::{Function, Stored};
use symcache::{ErrorKind, SymCache};

// Where a text lies in the file.
#[derive(Clone, Copy)]
pub struct Part {
    pub start: usize,
    pub len: usize,
}

// The texts of a file.
#[tactic(auto, unfolding(crate::specs::Strings::section_of))]
fn section_of<'a>(s: &'a [u8], c: SymCache) -> &'a [u8]
    requires { Within (length s.now) c }
    ensures texts { result.now ≡ section_of s.now c }
    ensures len { length result.now ≡ c.string_bytes }
{
    let end = c.strings + (c.string_bytes as usize);
    &s[c.strings..end]
}

// Resolves a string reference: where the text lies, or that there is none.
#[tactic(auto, using(crate::proofs::StringLaws::read_cases), unfolding(crate::specs::Strings::got_string, crate::specs::Strings::placed))]
pub fn read_string(s: &[u8], offset: u32) -> Result<Option<Part>, ErrorKind>
    ensures { string_answer result ≡ got_string s.now offset }
{
    let c = symcache::parse(s)?;
    match text::strings::read_text(section_of(s, c), offset) {
        Some(text) => Ok(Some(Part {
            start: c.strings + text.start,
            len: text.len,
        })),
        None => Ok(None),
    }
}

// Resolves a string reference to the bytes of the text. They are none where it is absent, and where the file is refused.
#[tactic(auto, using(crate::proofs::StringLaws::read_cases), unfolding(crate::specs::Strings::string_of, crate::specs::Strings::or_else))]
pub fn get_string<'a>(s: &'a [u8], offset: u32) -> &'a [u8]
    ensures { result.now ≡ string_of s.now offset }
{
    let Ok(c) = symcache::parse(s) else {
        return &s[..0];
    };
    text::strings::text_part(section_of(s, c), offset)
}

// The text at an offset of the section, or the stand-in.
#[tactic(auto, using(crate::proofs::StringLaws::read_cases), unfolding(crate::specs::Strings::text_or))]
fn text_or<'a>(section: &'a [u8], stand_in: &'a [u8], offset: u32) -> &'a [u8]
    ensures { result.now ≡ text_or stand_in.now section.now (read_text section.now offset) }
{
    match text::strings::read_text(section, offset) {
        Some(text) => &section[text.start..text.start + text.len],
        None => stand_in,
    }
}

// The name of a function: a part of the file's texts, or the stand-in where the function or its name is absent, and where the file is refused.
#[tactic(auto, using(crate::proofs::StringLaws::name_cases), unfolding(crate::specs::Strings::name_of, crate::specs::Strings::or_else))]
pub fn function_name<'a>(s: &'a [u8], stand_in: &'a [u8], function_idx: u32) -> &'a [u8]
    ensures { result.now ≡ name_of s.now stand_in.now function_idx }
{
    let Ok(c) = symcache::parse(s) else {
        return stand_in;
    };
    if c.num_functions <= function_idx {
        return stand_in;
    }
    let function = Function::read(s, c.functions + 16 * (function_idx as usize));
    text_or(section_of(s, c), stand_in, function.name_offset)
}
