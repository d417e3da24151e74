// Digits written to an area: hexadecimal for a nickname, decimal for a count.
#![tactic(auto)]

ghost use Rattle.std.specs.Prelude.{◌+◌, ◌^◌, ◌<◌, ◌≤◌, [], ◌∷◌, ◌≡◌, length};
ghost use Rattle.numbers.specs.Bytes.{bytes_of};
ghost use Rattle.frame_copy.specs.Areas.{pasted};
ghost use Rattle.report.specs.Text.{sign, digits_of, hexadecimal, width_of, decimal};

// What stands before the digit 0, and, ten less, before the letter A.
const DIGITS: u64 = 0x30;

const LETTERS: u64 = 0x37;

// The sign of a digit.
fn sign_of(d: u64) -> u8
    requires { d < 16 }
    ensures { result ≡ sign d }
{
    if d <= 9 {
        return (DIGITS + d) as u8;
    }
    (LETTERS + d) as u8
}

// Writes one byte.
pub fn put(b: u8, out: &mut [u8], at: usize)
    requires { at < length out.old }
    ensures { out.new ≡ pasted out.old at (b ∷ []) }
{
    out[at] = b;
}

// Writes the k low digits of a number in a base, the high one first.
fn put_digits<const BASE: u64>(n: u64, k: usize, out: &mut [u8], at: usize)
    requires { ((1 < BASE) × (BASE ≤ 16)) × (at + k ≤ length out.old) }
    ensures { out.new ≡ pasted out.old at (digits_of BASE k n) }
{
    let mut left = n;
    for i in (0..k).rev() {
        out[at + i] = sign_of(left % BASE);
        left /= BASE;
    }
}

// A nickname.
pub fn put_hexadecimal(n: u64, out: &mut [u8], at: usize)
    requires { at + 4 ≤ length out.old }
    ensures { out.new ≡ pasted out.old at (hexadecimal n) }
{
    put_digits::<16>(n, 4, out, at);
}

// The signs of a nickname as one number: a digit in each byte, then what stands before 0, and seven more for a letter. Its bytes are moved
// apart, and then the digits of both.
pub fn hexadecimal_word(n: u64) -> u64
    ensures { (bytes_of 4 result ≡ hexadecimal n) × (result < 2 ^ 32) }
{
    let bytes = n % 0x1_0000 + n / 0x100 % 0x100 * 0xff00;
    let high = bytes / 0x10_0000 % 16 * 0x1_0000 + bytes / 0x10 % 16;
    let digits = bytes + high * 0xf0;
    let up = digits + 0x606_0606;
    let letters = up / 0x1000_0000 % 2 * 0x100_0000
        + up / 0x10_0000 % 2 * 0x1_0000
        + up / 0x1000 % 2 * 0x100
        + up / 0x10 % 2;
    digits + 0x3030_3030 + letters * 7
}

// How many digits a count has.
pub fn width_of(n: u64) -> usize
    ensures { (result ≡ width_of n) × ((1 ≤ result) × (result ≤ 4)) }
{
    if n <= 9 {
        return 1;
    }
    if n <= 99 {
        return 2;
    }
    if n <= 999 {
        return 3;
    }
    4
}

// A count, and where it ends.
pub fn put_decimal(n: u64, out: &mut [u8], at: usize) -> usize
    requires { at + width_of n ≤ length out.old }
    ensures { (out.new ≡ pasted out.old at (decimal n)) × (result ≡ at + width_of n) }
{
    let k = width_of(n);
    put_digits::<10>(n, k, out, at);
    at + k
}
