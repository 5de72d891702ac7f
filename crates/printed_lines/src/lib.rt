// Document 01, "Lister": the lines that it prints.
#![tactic(auto)]

ghost use Rattle.std.specs.Prelude.{◌≡◌, ◌+◌, ◌<◌, ◌≤◌, length};
ghost use Rattle.std.proofs.lemmas.List.Edits.{sets};
ghost use Rattle.printed_lines.specs.Printed.{hex_digit, hex_field, spaced, frame_line_lem, no_frame_line, bad_line, refused_line, wrote_line, put_line};

use slices::{copy, inside};

fn hex_digit(d: u8) -> u8
    requires { d < 16 }
    ensures { result ≡ hex_digit d }
{
    if d < 10 { b'0' + d } else { b'A' + (d - 10) }
}

// A number in `width` digits from `at` on, the last digit first.
fn put_hex(out: &mut [u8], at: usize, value: u64, width: usize)
    requires { at + width ≤ length out.old }
    ensures { out.new ≡ sets out.old at (hex_field width value) }
{
    let mut rest = value;
    for i in (0..width).rev() {
        out[at + i] = hex_digit((rest % 16) as u8);
        rest /= 16;
    }
}

// A space, then 8 digits.
fn put_spaced(out: &mut [u8], at: usize, value: u32)
    requires { at + 9 ≤ length out.old }
    ensures { out.new ≡ sets out.old at (spaced value) }
{
    out[at] = b' ';
    put_hex(out, at + 1, u64::from(value), 8);
}

// Each of the following prints a line to `out` from `at` on and answers the place after it. Where the line has no
// room, nothing changes and the answer is `at`; the four below test that before they make the line.

// A line of any bytes.
fn put_line(out: &mut [u8], at: usize, line: &[u8]) -> usize
    ensures { wrote_line result out.new ≡ put_line out.old at line.now }
{
    if inside(out, at, line.len()) {
        copy(out, at, line);
        return at + line.len();
    }
    at
}

// A frame: 62 bytes.
pub fn frame_line(
    out: &mut [u8],
    at: usize,
    address: u64,
    number: u32,
    location: u32,
    function: u32,
    line: u32,
    file: u32,
) -> usize
    ensures { wrote_line result out.new ≡ put_line out.old at (frame_line_lem address number location function line file) }
{
    if !inside(out, at, 62) {
        return at;
    }
    let mut bytes = [b'\n'; 62];
    put_hex(&mut bytes, 0, address, 16);
    put_spaced(&mut bytes, 16, number);
    put_spaced(&mut bytes, 25, location);
    put_spaced(&mut bytes, 34, function);
    put_spaced(&mut bytes, 43, line);
    put_spaced(&mut bytes, 52, file);
    put_line(out, at, &bytes)
}

// No frame: 26 bytes.
pub fn no_frame_line(out: &mut [u8], at: usize, address: u64) -> usize
    ensures { wrote_line result out.new ≡ put_line out.old at (no_frame_line address) }
{
    if !inside(out, at, 26) {
        return at;
    }
    let mut bytes = [b'\n'; 26];
    put_hex(&mut bytes, 0, address, 16);
    put_spaced(&mut bytes, 16, u32::MAX);
    put_line(out, at, &bytes)
}

// A bad line, with its number: 11 bytes.
pub fn bad_line(out: &mut [u8], at: usize, number: u32) -> usize
    ensures { wrote_line result out.new ≡ put_line out.old at (bad_line number) }
{
    if !inside(out, at, 11) {
        return at;
    }
    let mut bytes = [b'\n'; 11];
    bytes[0] = b'?';
    put_spaced(&mut bytes, 1, number);
    put_line(out, at, &bytes)
}

// A refused file, with the number of the refusal: 11 bytes.
pub fn refused_line(out: &mut [u8], at: usize, number: u32) -> usize
    ensures { wrote_line result out.new ≡ put_line out.old at (refused_line number) }
{
    if !inside(out, at, 11) {
        return at;
    }
    let mut bytes = *b"REFUSED 00\n";
    bytes[8] += (number / 10 % 10) as u8;
    bytes[9] += (number % 10) as u8;
    put_line(out, at, &bytes)
}
