// UTF-8 as RFC 3629, section 4, has it.
ghost use Rattle.std.specs.Prelude.{◌≡◌, map};
ghost use Rattle.text.specs.Utf8.{◌to◌, Utf8Char, fits, char_len, utf8};
ghost use Rattle.text.specs.Utf8Runs.{eights, run_len};

// UTF8-tail = %x80-BF
const TAIL: (u8, u8) = (0x80, 0xBF);

// s begins with an octet in each of the ranges, in order.
fn fits<const N: usize>(s: &[u8], ranges: [(u8, u8); N]) -> bool
    ensures { result ≡ fits (map (λ r. r.0 to r.1) ranges.entry) s.now }
{
    s.len() >= N
        && s.iter()
            .zip(&ranges)
            .all(|(b, (lo, hi))| lo <= b && b <= hi)
}

// The length of the UTF8-char that s begins with, by the nine alternatives; none where none fits.
// Nine tests and not a loop over a table of them, which was tried: short names took longer than with the tests by hand.
#[tactic(auto, unfolding(crate::specs::Utf8::char_len, crate::specs::Utf8::Utf8Char))]
fn char_len(s: &[u8]) -> Option<usize>
    ensures { result ≡ char_len Utf8Char s.now }
{
    // UTF8-1 = %x00-7F
    if fits(s, [(0x00, 0x7F)]) {
        return Some(1);
    }
    // UTF8-2 = %xC2-DF UTF8-tail
    if fits(s, [(0xC2, 0xDF), TAIL]) {
        return Some(2);
    }
    // UTF8-3 = %xE0 %xA0-BF UTF8-tail /
    if fits(s, [(0xE0, 0xE0), (0xA0, 0xBF), TAIL]) {
        return Some(3);
    }
    //          %xE1-EC 2( UTF8-tail ) /
    if fits(s, [(0xE1, 0xEC), TAIL, TAIL]) {
        return Some(3);
    }
    //          %xED %x80-9F UTF8-tail /
    if fits(s, [(0xED, 0xED), (0x80, 0x9F), TAIL]) {
        return Some(3);
    }
    //          %xEE-EF 2( UTF8-tail )
    if fits(s, [(0xEE, 0xEF), TAIL, TAIL]) {
        return Some(3);
    }
    // UTF8-4 = %xF0 %x90-BF 2( UTF8-tail ) /
    if fits(s, [(0xF0, 0xF0), (0x90, 0xBF), TAIL, TAIL]) {
        return Some(4);
    }
    //          %xF1-F3 3( UTF8-tail ) /
    if fits(s, [(0xF1, 0xF3), TAIL, TAIL, TAIL]) {
        return Some(4);
    }
    //          %xF4 %x80-8F 2( UTF8-tail )
    if fits(s, [(0xF4, 0xF4), (0x80, 0x8F), TAIL, TAIL]) {
        return Some(4);
    }
    None
}

// One case more, for names and long texts: 8( UTF8-1 ). All eight octets are below %x80 where their `|` is, which takes no jump.
fn eight(s: &[u8]) -> bool
    ensures { result ≡ fits eights s.now }
{
    match s.first_chunk::<8>() {
        Some(octets) => octets.iter().fold(0, |all, b| all | b) < 0x80,
        None => false,
    }
}

// The length of the chars that s begins with: eight times UTF8-1 at once, or one char; none where none fits.
#[tactic(auto, unfolding(crate::specs::Utf8Runs::run_len))]
fn run_len(s: &[u8]) -> Option<usize>
    ensures { result ≡ run_len s.now }
{
    if eight(s) { Some(8) } else { char_len(s) }
}

// UTF8-octets = *( UTF8-char )
pub fn is_utf8(s: &[u8]) -> bool
    ensures { result ≡ utf8 s.now }
{
    let mut rest = s;
    // no `for`: it goes on by as many bytes as a character or a run of eights took
    while !rest.is_empty() {
        let Some(n) = run_len(rest) else {
            return false;
        };
        rest = &rest[n..];
    }
    true
}
