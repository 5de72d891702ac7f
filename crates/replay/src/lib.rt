// What the programs share that replay stored cases: reading a data file, numbers in its bytes, and the checksum of a case (oracle/FORMAT.md).
#![tactic(auto)]

ghost use Rattle.std.specs.Prelude.{◌≡◌, ℕ, ◌+◌, ◌*◌, ◌%◌, ◌≤◌, List, length, IfSome};
ghost use Rattle.replay.specs.Counts.{IsPrefixLen, Visited};
ghost use Rattle.slices.specs.Bytes.{le_at};
ghost use Rattle.replay.specs.Sums.{sum_with, sum_with_all, sum_digit, sum_line};

use std::fs;
use std::io::Read;
use std::rt::Files;

// Files

// The bytes of a file at the front of `to`, as many as there are and as there is room for; none where it can't be opened.
pub fn read_file<R: Files>(rt: &R, path: &str, to: &mut [u8]) -> usize
    ensures { IsPrefixLen result to.new }
{
    match fs::open(rt, path) {
        Ok(mut file) => read_full(&mut file, to),
        Err(_) => 0,
    }
}

// One read into `to` from `at` on, and how many bytes it gave: none at the end, and where it failed.
fn read_at<F: Read>(from: &mut F, to: &mut [u8], at: usize) -> usize
    requires { at ≤ length to.old }
    ensures { at + result ≤ length to.new }
{
    from.read(&mut to[at..]).unwrap_or(0)
}

// Reads until `to` is full, the input ends or a read fails, and answers how many bytes stand at the front of `to`.
pub fn read_full<F: Read>(from: &mut F, to: &mut [u8]) -> usize
    ensures { IsPrefixLen result to.new }
{
    let mut done = 0;
    // no `for`: each turn goes on by as many bytes as a read gave
    while done < to.len() {
        let n = read_at(from, to, done);
        if n == 0 {
            break;
        }
        done += n;
    }
    done
}

fn read_body<F: Read>(from: &mut F, to: &mut [u8], n: u32) -> usize
    ensures { IsPrefixLen result to.new }
{
    let n = to.len().min(n as usize);
    read_full(from, &mut to[..n])
}

// The next record of a container: its length, then as many bytes. How many of them were read, if there was a record.
pub fn read_record<F: Read>(from: &mut F, to: &mut [u8]) -> Option<usize>
    ensures { IfSome result (λ n. IsPrefixLen n to.new) }
{
    let mut length = [0u8; 4];
    if read_full(from, &mut length) < 4 {
        return None;
    }
    let n = word(&length, 0);
    Some(read_body(from, to, n))
}

// What is done with each record of a container.
pub trait Visit {
    // from the state before a record to the state after it
    ghost visits: { Self → List ℕ → Self → Type 0 };

    fn visit(&mut self, record: &[u8])
        ensures { visits self.old record.now self.new };
}

// Gives the records of a container to `visitor`, one after the other, each in `to`, and answers how many there were. Nothing says that a container ends, so
// they are counted.
pub fn visit_records<R: Read, V: Visit>(from: &mut R, to: &mut [u8], visitor: &mut V) -> u32
    ensures { Visited V.visits visitor.old result visitor.new }
{
    for count in 0..u32::MAX {
        let Some(n) = read_record(from, to) else {
            return count;
        };
        visitor.visit(&to[..n]);
    }
    u32::MAX
}

// The same with a closure in place of a `Visit`. It is called as often as there are records, so the caller has to know that it may be called.
pub fn each_record<R: Read, F: FnMut(&[u8])>(from: &mut R, to: &mut [u8], mut visit: F) -> u32
    requires callable { F.IsAlwaysCallable visit }
    ensures { (last : F) × Visited (λ p x q. F.step p x tt q) visit result last }
{
    for calls in 0..u32::MAX {
        let Some(n) = read_record(from, to) else {
            return calls;
        };
        visit(&to[..n]);
    }
    u32::MAX
}

// Numbers

// The 32-bit number at `at`; where bytes are missing they count as 0.
pub fn word(s: &[u8], at: usize) -> u32
    ensures { result ≡ le_at 4 s.now at }
{
    slices::load_u32(s, at)
}

// The place `offset` bytes after `at`.
pub fn place(at: usize, offset: usize) -> usize
    ensures { result ≡ (at + offset) % 18446744073709551616 }
{
    at.wrapping_add(offset)
}

// The 64-bit number at `at`.
pub fn number(s: &[u8], at: usize) -> u64
    ensures { result ≡ le_at 4 s.now at + 4294967296 * le_at 4 s.now ((at + 4) % 18446744073709551616) }
{
    let low = word(s, at);
    let high = word(s, place(at, 4));
    u64::from(low) + 4294967296 * u64::from(high)
}

pub fn low(n: usize) -> u32
    ensures { result ≡ n % 4294967296 }
{
    (n % 4294967296) as u32
}

// The checksum

// That of no words.
pub const START: u32 = 2166136261;

// The checksum with one word more.
pub fn add(sum: u32, w: u32) -> u32
    ensures { result ≡ sum_with sum w }
{
    ((u64::from(sum) * 16777619 + u64::from(w) + 1) % 4294967296) as u32
}

// With a word for each byte.
pub fn add_bytes(sum: u32, s: &[u8]) -> u32
    ensures { result ≡ sum_with_all sum s.now }
{
    let mut now = sum;
    for &b in s {
        now = add(now, u32::from(b));
    }
    now
}

fn hex_digit(d: u32) -> u8
    ensures { result ≡ sum_digit (d % 16) }
{
    let d = (d % 16) as u8;
    if d < 10 { b'0' + d } else { b'A' + (d - 10) }
}

// The printed line of a checksum. (Digit by digit, as its definition says it: a loop is no plainer.)
pub fn sum_line(sum: u32) -> [u8; 9]
    ensures { result ≡ sum_line sum }
{
    [
        hex_digit(sum / 268435456),
        hex_digit(sum / 16777216),
        hex_digit(sum / 1048576),
        hex_digit(sum / 65536),
        hex_digit(sum / 4096),
        hex_digit(sum / 256),
        hex_digit(sum / 16),
        hex_digit(sum),
        10,
    ]
}

#[cfg(test)]
mod tests;
