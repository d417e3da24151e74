// One line of a report: a nickname and its two counts.
#![tactic(auto)]

ghost use Rattle.std.specs.Prelude.{ℕ, ◌+◌, ◌≤◌, ◌∷◌, ◌≡◌, length};
ghost use Rattle.numbers.specs.Bytes.{bytes_of};
ghost use Rattle.frame_copy.specs.Areas.{pasted};
ghost use Rattle.report.specs.Text.{width_of, decimal, line_text};
ghost use Rattle.report_rows.specs.Rows.{row_text};

const SPACE: u8 = 0x20;

const LINE_FEED: u8 = 0x0a;

// The end of a line with two counts of 0, a space before each.
const SHORT_COUNTS: u64 = 0x20_30_20_30;

// A byte and a count, and where they end.
fn put_after(b: u8, n: u64, out: &mut [u8], at: usize) -> usize
    requires { at + 1 + width_of n ≤ length out.old }
    ensures { (out.new ≡ pasted out.old at (b ∷ decimal n)) × (result ≡ at + 1 + width_of n) }
{
    report_digits::put(b, out, at);
    report_digits::put_decimal(n, out, at + 1)
}

// A line of which both counts have one digit.
fn put_short(x: u64, l: u64, c: u64, out: &mut [u8], at: usize) -> usize
    requires { ((l ≤ 9) × (c ≤ 9)) × (at + length (line_text x l c) ≤ length out.old) }
    ensures { (out.new ≡ pasted out.old at (line_text x l c)) × (result ≡ at + length (line_text x l c)) }
{
    let word = report_digits::hexadecimal_word(x) * 0x1_0000_0000 + SHORT_COUNTS + l * 0x1_0000 + c;
    put_word(word, out, at);
    report_digits::put(LINE_FEED, out, at + 8);
    at + 9
}

// The line of a nickname with one learned record.
pub fn put_single(x: u64, out: &mut [u8], at: usize) -> usize
    requires { at + length (row_text x 1 0) ≤ length out.old }
    ensures { (out.new ≡ pasted out.old at (row_text x 1 0)) × (result ≡ at + length (row_text x 1 0)) }
{
    put_short(x, 1, 0, out, at)
}

// Eight bytes, as one move.
fn put_word(v: u64, out: &mut [u8], at: usize)
    requires { at + 8 ≤ length out.old }
    ensures { out.new ≡ pasted out.old at (bytes_of 8 v) }
{
    let e = at + 8;
    numbers::fill8(&mut out[at..e], v);
}

// Any line.
fn put_long(x: u64, l: u64, c: u64, out: &mut [u8], at: usize) -> usize
    requires { at + length (line_text x l c) ≤ length out.old }
    ensures { (out.new ≡ pasted out.old at (line_text x l c)) × (result ≡ at + length (line_text x l c)) }
{
    report_digits::put_hexadecimal(x, out, at);
    let b = put_after(SPACE, l, out, at + 4);
    let e = put_after(SPACE, c, out, b);
    report_digits::put(LINE_FEED, out, e);
    e + 1
}

// The line of a nickname, if it has records, and where it ends.
pub fn put_line(x: u64, l: u64, c: u64, out: &mut [u8], at: usize) -> usize
    requires { at + length (row_text x l c) ≤ length out.old }
    ensures { (out.new ≡ pasted out.old at (row_text x l c)) × (result ≡ at + length (row_text x l c)) }
{
    if (l == 0) & (c == 0) {
        return at;
    }
    if 9 < l {
        return put_long(x, l, c, out, at);
    }
    if 9 < c {
        return put_long(x, l, c, out, at);
    }
    put_short(x, l, c, out, at)
}

// The length of a nickname's line.
pub fn line_length(l: u64, c: u64) -> usize
    ensures { ((x : ℕ) → result ≡ length (row_text x l c)) × (result ≤ 15) }
{
    if (l == 0) & (c == 0) {
        return 0;
    }
    7 + report_digits::width_of(l) + report_digits::width_of(c)
}
