// Names as Windows compilers decorate them: `undecorate_win_symbol` of writer.rs.
//
// The Rust works on a `str`. Every character that it tests for is ASCII, so on UTF-8 its tests are tests on bytes. Here they are
// made on any byte sequence.
#![tactic(auto)]

ghost use Rattle.std.specs.Prelude.{◌≡◌, length};
ghost use Rattle.names.specs.Names.{special, contains, rfind, number, parses, cut, prefixed, undecorated};

// Whether `b` is `:`, `(` or `<`.
fn special(b: u8) -> bool
    ensures { result ≡ special b }
{
    matches!(b, b':' | b'(' | b'<')
}

// `contains`: whether `:`, `(` or `<` stands in `s`.
fn contains(s: &[u8]) -> bool
    ensures { result ≡ contains s.now }
{
    s.iter().any(|b| special(*b))
}

// `rfind`: where `pat` stands last in `s`.
fn rfind(s: &[u8], pat: &[u8]) -> Option<usize>
    ensures { result ≡ rfind pat.now s.now (length s.now) }
{
    // not `(0..n).rev().find(..)`: no plainer, the same test in a closure
    for i in (0..s.len()).rev() {
        if s[i..].starts_with(pat) {
            return Some(i);
        }
    }
    None
}

// Whether `s` is one or more digits whose number fits 32 bits.
fn number(s: &[u8]) -> bool
    ensures { result ≡ number s.now }
{
    let mut value: u64 = 0;
    for &b in s {
        if !b.is_ascii_digit() {
            return false;
        }
        value = value * 10 + u64::from(b - b'0');
        if u64::from(u32::MAX) < value {
            return false;
        }
    }
    !s.is_empty()
}

// `parse::<u32>().is_ok()`: a number, before which a plus may stand.
fn parses(s: &[u8]) -> bool
    ensures { result ≡ parses s.now }
{
    if s.starts_with(b"+") {
        return number(&s[1..]);
    }
    number(s)
}

// `rsplit_once(pat)`, where a parameter size follows `pat`: the length of what stands before it.
fn cut(s: &[u8], pat: &[u8]) -> Option<usize>
    ensures { result ≡ cut pat.now s.now }
{
    let n = rfind(s, pat)?;
    if parses(&s[n + pat.len()..]) {
        return Some(n);
    }
    None
}

// Whether `name` starts with `@` or `_`.
fn prefixed(name: &[u8]) -> bool
    ensures { result ≡ prefixed name.now }
{
    name.starts_with(b"@") || name.starts_with(b"_")
}

// The name without the decoration of its calling convention.
pub fn undecorate_win_symbol(name: &[u8]) -> &[u8]
    ensures { result.now ≡ undecorated name.now }
{
    if name.starts_with(b"?") || contains(name) {
        return name;
    }

    // Parse __vectorcall.
    if let Some(n) = cut(name, b"@@") {
        return &name[..n];
    }

    // Parse the other three.
    if prefixed(name) {
        let rest = &name[1..];
        if let Some(n) = cut(rest, b"@") {
            // __stdcall or __fastcall
            return &rest[..n];
        }
        if name.starts_with(b"_") {
            // __cdecl
            return rest;
        }
    }
    name
}
