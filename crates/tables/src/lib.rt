// The lent tables of the converter, in place of IndexSet, BTreeMap and StringTable.
//
// A table is one lent slice of 32-bit words, eight for each row that there is room for. Row i has six words at 7 i and its link at 7 i + 6. After the last
// row stand the heads of the buckets, as many as rows. A head is the number + 1 of the newest row in its bucket, and a row's link that of the next older
// one; 0 is none. A new row goes to the head of its chain and nothing else moves, so the newest rows can be taken back in reverse order.
// The caller keeps the count of rows. Any content and any count is taken. A row that there is no room for makes the count capacity + 1, and there it stays.
#![tactic(auto)]

ghost use Rattle.std.specs.Prelude.{◌≡◌, ◌<◌, ℕ, Bool, List, length};
ghost use Rattle.std.proofs.lemmas.List.Edits.{sets};
ghost use Rattle.tables.specs.Table.{max_rows, capacity_of, words_at, row_words, row_of, row_at, set_row, link_at, head_at, head_of, append_of};
ghost use Rattle.tables.specs.Table.{over_of, push_of, bucket_of, walk, width_of, key_of, hash_of, hit_at, found_of, newest_of, lookup_of, insert_of, left};

use keys::Key;
use slices::{put, word};

pub mod index_set;
pub mod keys;
pub mod kinds;
pub mod ranges;

// A table has room for so many rows at most, with eight words for each: seven of the row and one of the heads.
const MAX_ROWS: u32 = 16777216;

const WORDS: usize = 8;

// The words of a row with its link, and the link's place among them.
pub const ROW: usize = 7;

pub const LINK: usize = 6;

// The width at which the first word of a row alone is compared; at any other all of it is.
pub const FIRST: u32 = 1;

// The six words of a row.
#[derive(Clone, Copy, Default, PartialEq, Eq)]
pub struct Row {
    pub a: u32,
    pub b: u32,
    pub c: u32,
    pub d: u32,
    pub e: u32,
    pub f: u32,
}

// The number of an item, and how many items there are now.
#[derive(Clone, Copy)]
pub struct Inserted {
    pub index: u32,
    pub count: u32,
}

// How many rows there is room for.
#[tactic(auto, unfolding(crate::specs::Table::capacity_of))]
pub fn capacity(t: &[u32]) -> u32
    ensures { result ≡ capacity_of (length t.now) }
{
    let rows = t.len() / WORDS;
    rows.min(MAX_ROWS as usize) as u32
}

// Row i; words past the end are 0.
#[tactic(auto, unfolding(crate::specs::Table::row_at))]
pub fn row_at(t: &[u32], i: u32) -> Row
    ensures { result ≡ row_at t.now i }
{
    six(t, (i as usize) * ROW)
}

// The six words from k0 on; words past the end are 0.
pub fn six(t: &[u32], k0: usize) -> Row
    ensures { result ≡ row_of (words_at t.now k0 6) }
{
    let words = t.get(k0..).unwrap_or_default();
    match *words {
        [a, b, c, d, e, f, ..] => Row { a, b, c, d, e, f },
        _ => Row {
            a: word(words, 0),
            b: word(words, 1),
            c: word(words, 2),
            d: word(words, 3),
            e: word(words, 4),
            f: 0,
        },
    }
}

// Row i becomes r; words past the end are not stored.
#[tactic(auto, unfolding(crate::specs::Table::set_row))]
pub fn set_row(t: &mut [u32], i: u32, r: Row)
    ensures { t.new ≡ set_row t.old i r }
{
    set_six(t, (i as usize) * ROW, r);
}

// The six words from k0 on become r; words past the end are not stored.
pub fn set_six(t: &mut [u32], k0: usize, r: Row)
    ensures { t.new ≡ sets t.old k0 (row_words r) }
{
    let words = [r.a, r.b, r.c, r.d, r.e, r.f];
    let room = t.len().saturating_sub(k0);
    if words.len() <= room {
        t[k0..k0 + words.len()].copy_from_slice(&words);
    } else {
        for i in 0..room {
            t[k0 + i] = words[i];
        }
    }
}

// The link of row i.
#[tactic(auto, unfolding(crate::specs::Table::link_at))]
pub fn link_at(t: &[u32], i: u32) -> u32
    ensures { result ≡ link_at t.now i }
{
    word(t, (i as usize) * ROW + LINK)
}

// The head of bucket h, in a table of cap rows.
#[tactic(auto, unfolding(crate::specs::Table::head_at))]
fn head_at(t: &[u32], cap: u32, h: u32) -> u32
    ensures { result ≡ head_at cap t.now h }
{
    word(t, (cap as usize) * ROW + (h as usize))
}

// The bucket of a hash among as many as cap; 0 where there is none. All but its last nine bits say where from 0 to cap, and those are added.
pub fn bucket(hash: u32, cap: u32) -> u32
    ensures { result ≡ bucket_of hash cap }
{
    if cap == 0 {
        return 0;
    }
    let all = u64::from(cap);
    let hash = u64::from(hash);
    let at = hash / 512 * all / 8388608 + hash % 512;
    // Most places are below cap, and need no division.
    if at < all {
        return at as u32;
    }
    (at % all) as u32
}

// Row n, with its link, at the head of bucket h.
#[tactic(auto, unfolding(crate::specs::Table::append_of))]
fn append(t: &mut [u32], cap: u32, n: u32, row: Row, link: u32, h: u32)
    requires { n < max_rows }
    ensures { t.new ≡ append_of cap t.old n row link h }
{
    set_row(t, n, row);
    put(t, (n as usize) * ROW + LINK, link);
    put(t, (cap as usize) * ROW + (h as usize), n + 1);
}

// The head of the bucket of a hash: the number + 1 of its newest row; 0 where there is none.
pub fn head_of(t: &[u32], hash: u32) -> u32
    ensures { result ≡ head_of t.now hash }
{
    let cap = capacity(t);
    let h = bucket(hash, cap);
    head_at(t, cap, h)
}

// The count of rows after one that there was no room for: capacity + 1, and above that as it was.
#[tactic(auto, using(crate::proofs::Room::cap_most), unfolding(crate::specs::Table::over_of))]
pub fn over(t: &[u32], n: u32) -> u32
    ensures { result ≡ over_of n (capacity_of (length t.now)) }
{
    let cap = capacity(t);
    n.max(cap + 1)
}

// Row n, at the head of the bucket of its hash, where there is room. The answer is the count of rows after it.
#[tactic(auto, using(crate::proofs::Room::cap_most), unfolding(crate::specs::Table::push_of))]
pub fn push(t: &mut [u32], n: u32, row: Row, hash: u32) -> u32
    ensures { left result t.new ≡ push_of t.old n row hash }
{
    let cap = capacity(t);
    if n < cap {
        let h = bucket(hash, cap);
        let link = head_at(t, cap, h);
        append(t, cap, n, row, link, h);
        return n + 1;
    }
    over(t, n)
}

// What of a row is compared: its first word alone where the width is that, else all of it.
pub fn key(row: Row, width: u32) -> Row
    ensures { result ≡ key_of width row }
{
    Key::by(width).of(row)
}

// The words by factors that no power of two divides, modulo a prime. Of the first word its block of 4,096 counts there, and its place in the block is added by
// sixteens, so that starts that are near each other have buckets that are. Blocks go by the golden section: those that follow each other lie apart, and hardly
// overlap.
#[tactic(auto, unfolding(crate::specs::Table::hash_of))]
pub fn hash(k: Row) -> u32
    ensures { result ≡ hash_of k }
{
    let s = (u64::from(k.a) / 4096) * 2654435443
        + u64::from(k.b) * 378551279
        + u64::from(k.c) * 511286833
        + u64::from(k.d) * 296414521
        + u64::from(k.e) * 347229887
        + u64::from(k.f) * 467201681;
    (s % 4294966769) as u32 / 512 * 512 + k.a % 4096 / 16
}

// What a row is looked for by, along a chain.
pub trait Probe {
    // Whether row i of a table is such a row.
    ghost hits: { Self → List ℕ → ℕ → Bool };

    fn hits(&self, t: &[u32], i: u32) -> bool
        ensures { result ≡ hits self.now t.now i };
}

// A row by the words of its key.
#[derive(Clone, Copy)]
struct Keyed {
    key: Key,
    words: Row,
}

impl Probe for Keyed {
    ghost hits = { λ k t i. hit_at t (width_of k.key) k.words i };

    // The first word is looked at first.
    fn hits(&self, t: &[u32], i: u32) -> bool {
        word(t, (i as usize) * ROW) == self.words.a && self.key.of(row_at(t, i)) == self.words
    }
}

// The newest row below n that is looked for, along the chain that starts at link l. Row numbers must fall on the way, so it ends on any content.
pub fn follow<P: Probe>(t: &[u32], n: u32, l: u32, probe: &P) -> Option<u32>
    ensures { result ≡ found_of n (walk (link_at t.now) (P.hits probe.now t.now) n n l) }
{
    let mut bound = n;
    let mut at = l;
    // No `for`: a chain of links is followed, which counts nothing.
    while 0 < at && at <= bound {
        let i = at - 1;
        if probe.hits(t, i) {
            return Some(i);
        }
        bound = i;
        at = link_at(t, i);
    }
    None
}

// The number + 1 of the newest row in the bucket of the key of `row`, which may have it; 0 where there is none.
#[tactic(auto, unfolding(crate::specs::Table::newest_of))]
fn newest(t: &[u32], row: Row, key: Key) -> u32
    ensures { result ≡ newest_of (width_of key) t.now row }
{
    head_of(t, hash(key.of(row)))
}

// The number of the row with the key of `row` among the first n.
#[tactic(auto, unfolding(crate::specs::Table::lookup_of))]
pub fn find(t: &[u32], n: u32, row: Row, key: Key) -> Option<u32>
    ensures { result ≡ found_of n (lookup_of (width_of key) t.now n row) }
{
    let words = key.of(row);
    follow(t, n, newest(t, row, key), &Keyed { key, words })
}

// The same by a width; n where there is none.
pub fn lookup(t: &[u32], n: u32, row: Row, width: u32) -> u32
    ensures { result ≡ lookup_of width t.now n row }
{
    find(t, n, row, Key::by(width)).unwrap_or(n)
}

// The number of the row with the key of `row`, which is appended where there is none. With no room nothing is written, and the count is capacity + 1.
#[tactic(auto, using(crate::proofs::Room::cap_most))]
fn insert(t: &mut [u32], n: u32, row: Row, key: Key) -> Inserted
    ensures { left result t.new ≡ insert_of (width_of key) t.old n row }
{
    let cap = capacity(t);
    let words = key.of(row);
    let h = bucket(hash(words), cap);
    let l = head_at(t, cap, h);
    if let Some(index) = follow(t, n, l, &Keyed { key, words }) {
        return Inserted { index, count: n };
    }
    if n < cap {
        append(t, cap, n, row, l, h);
        return Inserted {
            index: n,
            count: n + 1,
        };
    }
    let count = over(t, n);
    Inserted { index: n, count }
}
