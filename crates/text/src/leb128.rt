// Unsigned LEB128 numbers (DWARF 5, section 7.6), of at most ten bytes and 64 bits.
ghost use Rattle.std.specs.Prelude.{◌≡◌, ◌+◌, ◌≤◌, length};
ghost use Rattle.std.proofs.lemmas.List.Edits.{sets};
ghost use Rattle.text.specs.Leb128.{encoded, decoded, wrote_leb, written};

// A number that was read, and how many bytes it takes.
#[derive(Debug, Clone, Copy, PartialEq, Eq)]
pub struct Leb {
    pub value: u64,
    pub len: usize,
}

// The number of bytes of the shortest form of v.
#[tactic(auto, using(crate::proofs::Leb128Laws::stored))]
pub fn leb128_len(v: u64) -> usize
    ensures { result ≡ length (encoded v) }
{
    let mut rest = v;
    let mut n = 1;
    // no `for`: how many there are only the division shows
    while 128 <= rest {
        rest /= 128;
        n += 1;
    }
    n
}

// The shortest form of v, from at on.
#[tactic(auto, using(crate::proofs::Leb128Laws::stored))]
fn put_leb128(out: &mut [u8], at: usize, v: u64)
    requires { at + length (encoded v) ≤ length out.old }
    ensures { out.new ≡ sets out.old at (encoded v) }
{
    let mut rest = v;
    let mut i = at;
    // how many bytes there are only the division shows: a `for` over them would count twice
    while rest >= 128 {
        out[i] = (rest % 128 + 128) as u8;
        rest /= 128;
        i += 1;
    }
    out[i] = rest as u8;
}

// Writes the shortest form of v from at on and answers its number of bytes; where it doesn't fit nothing is changed.
#[tactic(auto, unfolding(crate::specs::Leb128::wrote_leb))]
pub fn write_leb128(out: &mut [u8], at: usize, v: u64) -> Option<usize>
    ensures { written result out.new ≡ wrote_leb out.old at v }
{
    let n = leb128_len(v);
    if out.len() < at.checked_add(n)? {
        return None;
    }
    put_leb128(out, at, v);
    Some(n)
}

// The number at an offset: none where it is cut, or has more than ten bytes or 64 bits.
pub fn read_leb128(s: &[u8], at: usize) -> Option<Leb>
    ensures { result ≡ decoded s.now at }
{
    let rest = s.get(at..)?;
    let mut value = 0u64;
    // 128 to the power of i
    let mut unit = 1u64;
    for i in 0..9 {
        let byte = u64::from(*rest.get(i)?);
        if byte < 128 {
            return Some(Leb {
                value: value + unit * byte,
                len: i + 1,
            });
        }
        value += unit * (byte - 128);
        unit *= 128;
    }
    // a tenth byte has room for one bit
    let tenth = u64::from(*rest.get(9)?);
    if 1 < tenth {
        return None;
    }
    Some(Leb {
        value: value + unit * tenth,
        len: 10,
    })
}
