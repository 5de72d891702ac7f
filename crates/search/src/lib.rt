// The search for an address among the starts of a file's ranges, read in place: the binary search of v9/lookup.rs.
// Where the tables are said to lie is not trusted.
#![tactic(auto)]

ghost use Rattle.std.specs.Prelude.{◌≡◌, ◌+◌, ◌*◌, ◌≤◌, ◌<◌, cond, leb, length, unwrap_or, IfSome};
ghost use Rattle.raw.specs.Rows.{max32};
ghost use Rattle.search.specs.Search.{start_at, ascending, ordered, count_in_lem, half_in, quarters_in, search_in, usable, found_in, Count, Index, Halved};

// The starts

// The starts of `n` ranges, which lie in the bytes from `at` on.
#[derive(Clone, Copy)]
struct Starts<'a> {
    bytes: &'a [u8],
    at: usize,
    n: usize,
    ghost inside: { at + 4 * n ≤ length bytes.now },
}

// Whether `n` bytes from `at` on lie in `len`.
fn lies_in(len: usize, at: usize, n: usize) -> bool
    ensures { result ≡ leb (at + n) len }
{
    n <= len && at <= len - n
}

// Whether the starts of the ranges lie in the bytes and ascend strictly.
#[tactic(auto, unfolding(crate::specs::Search::ordered))]
pub fn is_ascending(s: &[u8], ranges: usize, num_ranges: u32) -> bool
    ensures { result ≡ ordered s.now ranges num_ranges }
{
    let n = num_ranges as usize;
    if !lies_in(s.len(), ranges, 4 * n) {
        return false;
    }
    let starts = Starts {
        bytes: s,
        at: ranges,
        n,
    };
    starts.ascend()
}

// The search

// 1 where the start is at most the address, else 0.
fn at_most(start: u32, addr: u32) -> usize
    ensures { Count (cond (leb start addr) 1 0) 1 result }
{
    usize::from(start <= addr)
}

// The starts that are left of a search: `size` of them from index `base` on.
#[derive(Clone, Copy)]
struct Left {
    base: usize,
    size: usize,
}

impl<'a> Starts<'a> {
    // The start of range `i`: as `raw::Range` is read, with no test, for the search.
    fn get(self, i: usize) -> u32
        requires { i < self.n }
        ensures { result ≡ start_at self.entry.bytes.now self.entry.at i }
    {
        let s = self.bytes;
        let at = self.at + 4 * i;
        u32::from(s[at])
            + 256
                * (u32::from(s[at + 1]) + 256 * (u32::from(s[at + 2]) + 256 * u32::from(s[at + 3])))
    }

    // Whether they ascend strictly.
    #[tactic(auto, using(crate::proofs::SearchLaws::ascend_cases), unfolding(crate::specs::Search::ascending))]
    fn ascend(self) -> bool
        ensures { result ≡ ascending (start_at self.entry.bytes.now self.entry.at) self.entry.n }
    {
        if self.n == 0 {
            return true;
        }
        let mut last = self.get(0);
        for i in 1..self.n {
            let start = self.get(i);
            if start <= last {
                return false;
            }
            last = start;
        }
        true
    }

    // How many of the `n` starts from index `from` on are at most `addr`.
    #[tactic(auto, using(crate::proofs::SearchLaws::count_cases))]
    fn count(self, from: usize, n: usize, addr: u32) -> usize
        requires { from + n ≤ self.n }
        ensures { Count (count_in_lem (start_at self.entry.bytes.now self.entry.at) addr from n) n result }
    {
        let mut found: usize = 0;
        for i in 0..n {
            found += at_most(self.get(from + i), addr);
        }
        found
    }

    // How many of the three starts between the quarters, of `quarter` starts each, from index `base` on are at most `addr`.
    #[tactic(auto, unfolding(crate::specs::Search::quarters_in))]
    fn quarters(self, base: usize, quarter: usize, addr: u32) -> usize
        requires { base + 3 * quarter < self.n }
        ensures { Count (quarters_in (start_at self.entry.bytes.now self.entry.at) addr base quarter) 3 result }
    {
        at_most(self.get(base + quarter), addr)
            + at_most(self.get(base + 2 * quarter), addr)
            + at_most(self.get(base + 3 * quarter), addr)
    }

    // How many starts to pass over: `half` where the start that many after index `base` is at most `addr`, else none.
    #[tactic(auto, unfolding(crate::specs::Search::half_in))]
    fn half_of(self, base: usize, half: usize, addr: u32) -> usize
        requires { base + half < self.n }
        ensures { Count (half_in (start_at self.entry.bytes.now self.entry.at) addr base half) half result }
    {
        half * at_most(self.get(base + half), addr)
    }

    // Halves the starts until at most 1,024 are left. These are looked at again and again, so they are at hand.
    #[tactic(auto, using(crate::proofs::SearchLaws::turn_cases))]
    fn halves(self, addr: u32) -> Left
        requires { 0 < self.n }
        ensures { Halved (start_at self.entry.bytes.now self.entry.at) addr self.entry.n result.base result.size }
    {
        let mut base: usize = 0;
        let mut size = self.n;
        // no `for`: what is left is halved, and no index counted
        while 1024 < size {
            let half = size / 2;
            base += self.half_of(base, half, addr);
            size -= half;
        }
        Left { base, size }
    }

    // The index at which a search for `addr` ends: the last of those at most `addr`, or 0.
    // The last 1,024 are quartered: three starts are fetched at once, and no jump depends on them, which could not be foreseen. The last few are counted.
    #[tactic(auto, using(crate::proofs::SearchLaws::turn_cases))]
    fn search(self, addr: u32) -> usize
        requires { 0 < self.n }
        ensures { Index (search_in (start_at self.entry.bytes.now self.entry.at) addr self.entry.n 0 self.entry.n) self.entry.n result }
    {
        let Left { mut base, mut size } = self.halves(addr);
        // no `for`, for the same reason
        while 8 < size {
            let quarter = size / 4;
            let low = self.quarters(base, quarter, addr);
            base += quarter * low;
            size -= 3 * quarter;
        }
        base + self.count(base + 1, size - 1, addr)
    }
}

// Where the source locations and the ranges of a file are said to lie, and how many there are.
#[derive(Clone, Copy)]
pub struct Tables {
    pub source_locations: usize,
    pub num_source_locations: u32,
    pub ranges: usize,
    pub num_ranges: u32,
}

impl Tables {
    // Whether the ranges and the source locations lie in `len` bytes. So they do where `open` gave the cache.
    #[tactic(auto, unfolding(crate::specs::Search::usable))]
    fn is_usable(self, len: usize) -> bool
        ensures { result ≡ usable len self.source_locations self.num_source_locations self.ranges self.num_ranges }
    {
        self.num_ranges <= self.num_source_locations
            && lies_in(len, self.ranges, 4 * (self.num_ranges as usize))
            && lies_in(
                len,
                self.source_locations,
                16 * (self.num_source_locations as usize),
            )
    }

    // The index of the source location that an address belongs to: that of the last start at most the address.
    #[tactic(auto, using(crate::proofs::SearchLaws::find_cases), unfolding(crate::specs::Search::found_in, crate::specs::Search::found_among))]
    pub fn find(self, s: &[u8], addr: u64) -> Option<u32>
        ensures found { unwrap_or result max32 ≡ found_in s.now self.source_locations self.num_source_locations self.ranges self.num_ranges addr }
        ensures inside { IfSome result (λ i. (i < self.num_source_locations) × (self.source_locations + 16 * self.num_source_locations ≤ length s.now)) }
    {
        let Ok(addr) = u32::try_from(addr) else {
            return None;
        };
        if self.num_ranges == 0 || !self.is_usable(s.len()) {
            return None;
        }
        let starts = Starts {
            bytes: s,
            at: self.ranges,
            n: self.num_ranges as usize,
        };
        let i = starts.search(addr);
        if addr < starts.get(i) {
            return None;
        }
        Some((self.num_source_locations - self.num_ranges) + (i as u32))
    }
}
