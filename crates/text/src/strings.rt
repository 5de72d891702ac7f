// A text of the string section, as watto's StringTable::read gives it: an unsigned LEB128 length, then the bytes.
ghost use Rattle.std.specs.Prelude.{◌≡◌};
ghost use Rattle.text.specs.Texts.{read_text, text_part};

use super::leb128::read_leb128;
use super::utf8::is_utf8;

// The part of a section that a text takes.
#[derive(Debug, Clone, Copy, PartialEq, Eq)]
pub struct Text {
    pub start: usize,
    pub len: usize,
}

// The text at an offset: none where the offset lies past the section, the length is cut, above ten bytes or above 64 bits,
// the text is cut, or it is not UTF-8.
#[tactic(auto, using(crate::proofs::TextLaws::texts))]
pub fn read_text(section: &[u8], offset: u32) -> Option<Text>
    ensures { result ≡ read_text section.now offset }
{
    let at = offset as usize;
    let prefix = read_leb128(section, at)?;
    let start = at + prefix.len;
    let len = prefix.value as usize;
    if section.len() - start < len {
        return None;
    }
    if !is_utf8(&section[start..start + len]) {
        return None;
    }
    Some(Text { start, len })
}

// The bytes of the text at an offset; none where it is absent.
#[tactic(auto, using(crate::proofs::TextLaws::texts))]
pub fn text_part<'a>(section: &'a [u8], offset: u32) -> &'a [u8]
    ensures { result.now ≡ text_part section.now offset }
{
    match read_text(section, offset) {
        Some(text) => &section[text.start..text.start + text.len],
        None => &[],
    }
}
