// The string table: each text once, its length as LEB128 and then its bytes, one after the other in the string section.
// A table indexes the texts, with a row for each.
#![tactic(auto)]

ghost use Rattle.std.specs.Prelude.{◌≡◌, ◌&&◌, ◌+◌, ◌≤◌, leb, ltb, length, take, drop};
ghost use Rattle.std.proofs.lemmas.List.Edits.{sets};
ghost use Rattle.text.specs.Leb128.{encoded};
ghost use Rattle.tables.specs.Table.{capacity_of, found_of, same_words};
ghost use Rattle.strings.specs.Strings.{text_capacity_of, stored_text, text_at_lem, newest_text, find_text, full_of, store_of, insert_text_of, strings_left};
ghost use Rattle.strings.specs.Strings.{max_bytes, mixed, text_hash};

use slices::copy;
use tables::kinds::IndexedText;
use tables::{Probe, Row};
use text::leb128::{leb128_len, write_leb128};

// A string section has room for so many bytes at most.
const MAX_BYTES: u32 = 268435456;

// What storing a text answers.
#[derive(Debug, Clone, Copy, PartialEq, Eq)]
pub struct Stored {
    // Where the prefix of the text begins.
    pub offset: u32,
    // How many bytes the section has now, and how many texts.
    pub bytes: u32,
    pub count: u32,
}

// How many bytes of texts there is room for.
#[tactic(auto, unfolding(crate::specs::Strings::text_capacity_of))]
pub fn text_capacity(text: &[u8]) -> u32
    ensures { result ≡ text_capacity_of (length text.now) }
{
    text.len().min(MAX_BYTES as usize) as u32
}

// The offset of t, which is stored where it is not in the section yet; MAX for an empty text, which is not stored. With no room for the bytes or for the row
// nothing is written, and the count that has none is capacity + 1.
pub fn insert(text: &mut [u8], strings: &mut [u32], bytes: u32, count: u32, t: &[u8]) -> Stored
    ensures { let after = strings_left result text.new strings.new in
        after ≡ insert_text_of text.old strings.old bytes count t.now }
{
    if t.is_empty() {
        return Stored {
            offset: u32::MAX,
            bytes,
            count,
        };
    }
    let hash = hash(t);
    if let Some(i) = find(text, strings, count, t, hash) {
        let found = IndexedText::from(tables::row_at(strings, i));
        return Stored {
            offset: found.offset,
            bytes,
            count,
        };
    }
    store(text, strings, bytes, count, t, hash)
}

// A new text at the end of the section and of the index.
fn store(
    text: &mut [u8],
    strings: &mut [u32],
    bytes: u32,
    count: u32,
    t: &[u8],
    hash: u32,
) -> Stored
    requires { hash ≡ text_hash t.now }
    ensures { let after = strings_left result text.new strings.new in
        after ≡ store_of text.old strings.old bytes count t.now }
{
    let cap = tables::capacity(strings);
    let limit = text_capacity(text);
    let prefix = leb128_len(t.len() as u64);
    let size = prefix + t.len();
    if fits(bytes, count, size, limit, cap) {
        let at = bytes as usize;
        let start = at + prefix;
        write(text, at, start, t);
        let row = Row::from(IndexedText {
            offset: bytes,
            start: start as u32,
            len: t.len() as u32,
            hash,
        });
        let count = tables::push(strings, count, row, hash);
        return Stored {
            offset: bytes,
            bytes: (start + t.len()) as u32,
            count,
        };
    }
    full(strings, bytes, count, size, limit)
}

// Whether there is room for so many bytes, and for a row.
fn fits(bytes: u32, count: u32, size: usize, limit: u32, cap: u32) -> bool
    ensures { result ≡ leb (bytes + size) limit && ltb count cap }
{
    room(bytes, size, limit) && count < cap
}

// Whether there is room for so many bytes.
fn room(bytes: u32, size: usize, limit: u32) -> bool
    ensures { result ≡ leb (bytes + size) limit }
{
    limit
        .checked_sub(bytes)
        .is_some_and(|left| size <= left as usize)
}

// The answer where there is no room: the count of bytes is above its capacity if the text had none, else the count of texts.
#[tactic(auto, unfolding(crate::specs::Strings::full_of, tables::specs::Table::over_of))]
fn full(strings: &[u32], bytes: u32, count: u32, size: usize, limit: u32) -> Stored
    requires { limit ≤ max_bytes }
    ensures { result ≡ full_of bytes count size limit (capacity_of (length strings.now)) }
{
    if room(bytes, size, limit) {
        return Stored {
            offset: bytes,
            bytes,
            count: tables::over(strings, count),
        };
    }
    Stored {
        offset: bytes,
        bytes: bytes.max(limit + 1),
        count,
    }
}

// The length prefix at `at`, and the bytes from start on.
fn write(text: &mut [u8], at: usize, start: usize, t: &[u8])
    requires { (start ≡ at + length (encoded (length t.now))) × (start + length t.now ≤ length text.old) }
    ensures { text.new ≡ sets text.old at (stored_text t.now) }
{
    write_leb128(text, at, t.len() as u64);
    copy(text, start, t);
}

// The number + 1 of the newest row in the bucket of t, which may be t's; 0 where there is none.
#[tactic(auto, unfolding(crate::specs::Strings::newest_text))]
pub fn newest(strings: &[u32], t: &[u8]) -> u32
    ensures { result ≡ newest_text strings.now t.now }
{
    tables::head_of(strings, hash(t))
}

// A text that is looked for among those of the section, and its hash.
#[derive(Clone, Copy)]
struct Wanted<'a> {
    section: &'a [u8],
    t: &'a [u8],
    hash: u32,
    ghost hashed: { hash ≡ text_hash t.now },
}

impl<'a> Probe for Wanted<'a> {
    ghost hits = { λ w strings i. text_at_lem w.section.now strings w.t.now i };

    // The hash and the length are looked at first.
    #[tactic(auto, unfolding(crate::specs::Strings::text_at_lem, crate::specs::Strings::is_text))]
    fn hits(&self, strings: &[u32], i: u32) -> bool {
        let found = IndexedText::from(tables::row_at(strings, i));
        found.hash == self.hash
            && found.len as usize == self.t.len()
            && same_at(self.section, found.start as usize, self.t)
    }
}

// The number of the row whose text is t among the first n.
fn find(section: &[u8], strings: &[u32], n: u32, t: &[u8], hash: u32) -> Option<u32>
    requires { hash ≡ text_hash t.now }
    ensures { result ≡ found_of n (find_text section.now strings.now n t.now) }
{
    let wanted = Wanted { section, t, hash };
    tables::follow(strings, n, tables::head_of(strings, hash), &wanted)
}

// Whether the bytes from start on begin with t.
fn same_at(text: &[u8], start: usize, t: &[u8]) -> bool
    ensures { result ≡ same_words (take (length t.now) (drop start text.now)) t.now }
{
    text.get(start..).unwrap_or(&[]).starts_with(t)
}

// The hash of a text: every byte counts, four at a time, and the last ones one by one.
fn hash(t: &[u8]) -> u32
    ensures { result ≡ text_hash t.now }
{
    let (fours, rest) = t.as_chunks::<4>();
    let x = fours.iter().fold(t.len() as u64, |x, four| mix(x, u32::from_le_bytes(*four)));
    let x = rest.iter().fold(x, |x, b| mix(x, u32::from(*b)));
    (x % 4294967291) as u32
}

// x carried on by w.
fn mix(x: u64, w: u32) -> u64
    ensures { result ≡ mixed x w }
{
    (x % 4294967296 + u64::from(w)) * 1791398085 + x / 4294967296
}
