// The text of a report: all lines, and the whole.
#![tactic(auto)]

ghost use Rattle.std.specs.Prelude.{◌+◌, ◌<◌, ◌≤◌, true, false, [], ◌∷◌, ◌++◌, ◌≡◌, length};
ghost use Rattle.numbers.specs.After.{on_area};
ghost use Rattle.numbers.specs.Bytes.{bytes_of};
ghost use Rattle.frame_copy.specs.Areas.{pasted};
ghost use Rattle.table.specs.Slots.{most_slots};
ghost use Rattle.report.specs.Text.{line_feed, width_of, decimal, free_text, spoilt_text, refused_text};
ghost use Rattle.report.specs.Report.{nickname_end, written};
ghost use Rattle.flush_sort.specs.Sorting.{Sorted};
ghost use Rattle.report_rows.specs.Rows.{lines_text};
ghost use Rattle.report_text.specs.Whole.{whole_text, longest};

use numbers::refusals::Refusal;
use table::MOST_SLOTS;

const LINE_FEED: u8 = 0x0a;

// A nickname has 16 bits.
const NICKNAME_END: u64 = 0x1_0000;

// The bytes of the longest report.
const LONGEST: usize = 9 * MOST_SLOTS + 16;

// "free ", "spoilt " and "refused " as numbers, and their bytes.
const FREE_WORD: u64 = 0x66_72_65_65_20;

const FREE_BYTES: usize = 5;

const SPOILT_WORD: u64 = 0x73_70_6f_69_6c_74_20;

const SPOILT_BYTES: usize = 7;

const REFUSED_WORD: u64 = 0x72_65_66_75_73_65_64_20;

const REFUSED_BYTES: usize = 8;

// The length of all lines.
fn lines_length(v: &[u32]) -> usize
    requires { (Sorted v.now × (length v.now ≤ most_slots)) × (length (lines_text nickname_end v.now) ≤ longest) }
    ensures { result ≡ length (lines_text nickname_end v.now) }
{
    let mut n = 0;
    let mut i = 0;
    // A `while`: the step is the length of the row.
    while i < v.len() {
        let r = report_rows::row_at(v, i);
        if NICKNAME_END <= r.nickname {
            return n;
        }
        n += report_lines::line_length(r.learned, r.configured);
        i = r.next;
    }
    n
}

// All lines from the start of an area, and where they end.
fn put_lines(v: &[u32], out: &mut [u8]) -> usize
    requires { (Sorted v.now × (length v.now ≤ most_slots)) × (length (lines_text nickname_end v.now) ≤ length out.old) }
    ensures { (out.new ≡ pasted out.old 0 (lines_text nickname_end v.now)) × (result ≡ length (lines_text nickname_end v.now)) }
{
    let mut at = 0;
    let mut i = 0;
    // A `while`: the step is the length of the row.
    while i < v.len() {
        if report_rows::single_at(v, i) {
            at = report_lines::put_single(report_rows::nickname_of(v[i]), out, at);
            i += 1;
        } else {
            let r = report_rows::row_at(v, i);
            if NICKNAME_END <= r.nickname {
                return at;
            }
            at = report_lines::put_line(r.nickname, r.learned, r.configured, out, at);
            i = r.next;
        }
    }
    at
}

// A word of k bytes, a count and a line feed, and where they end.
fn put_last(word: u64, k: usize, n: u64, out: &mut [u8], at: usize) -> usize
    requires { at + k + width_of n + 1 ≤ length out.old }
    ensures { (out.new ≡ pasted out.old at (bytes_of k word ++ (decimal n ++ line_feed ∷ []))) × (result ≡ at + k + width_of n + 1) }
{
    frame_copy::put_number(word, k, out, at);
    let e = report_digits::put_decimal(n, out, at + k);
    report_digits::put(LINE_FEED, out, e);
    e + 1
}

// The lines of free and spoilt slots, and where they end.
fn put_end(free: u64, spoilt: u64, out: &mut [u8], at: usize) -> usize
    requires { at + 14 + width_of free + width_of spoilt ≤ length out.old }
    ensures { (out.new ≡ pasted out.old at (free_text free ++ spoilt_text spoilt)) × (result ≡ at + 14 + width_of free + width_of spoilt) }
{
    let e = put_last(FREE_WORD, FREE_BYTES, free, out, at);
    put_last(SPOILT_WORD, SPOILT_BYTES, spoilt, out, e)
}

// The length of the whole text.
fn text_length(v: &[u32], free: u64, spoilt: u64) -> usize
    requires { (Sorted v.now × (length v.now ≤ most_slots)) × (length (whole_text v.now free spoilt) ≤ longest) }
    ensures { result ≡ length (whole_text v.now free spoilt) }
{
    lines_length(v) + 14 + report_digits::width_of(free) + report_digits::width_of(spoilt)
}

// Whether the text is longer than an area. What no report is longer than is not measured.
fn is_short(v: &[u32], free: u64, spoilt: u64, room: usize) -> bool
    requires { (Sorted v.now × (length v.now ≤ most_slots)) × (length (whole_text v.now free spoilt) ≤ longest) }
    ensures { (result ≡ true → room < length (whole_text v.now free spoilt)) × (result ≡ false → length (whole_text v.now free spoilt) ≤ room) }
{
    if LONGEST <= room {
        return false;
    }
    room < text_length(v, free, spoilt)
}

// Writes a report; 16 where the area is shorter.
pub fn write(v: &[u32], free: u64, spoilt: u64, out: &mut [u8]) -> Result<u16, Refusal>
    requires { (Sorted v.now × (length v.now ≤ most_slots)) × (length (whole_text v.now free spoilt) ≤ longest) }
    ensures { on_area result out.new ≡ written (whole_text v.now free spoilt) out.old }
{
    if is_short(v, free, spoilt, out.len()) {
        return Err(Refusal::AreaShort);
    }
    let at = put_lines(v, out);
    let e = put_end(free, spoilt, out, at);
    Ok(e as u16)
}

// The line for a table of a bad length.
pub fn write_refused(out: &mut [u8]) -> Result<u16, Refusal>
    ensures { on_area result out.new ≡ written refused_text out.old }
{
    if out.len() < REFUSED_BYTES + 2 {
        return Err(Refusal::AreaShort);
    }
    put_last(
        REFUSED_WORD,
        REFUSED_BYTES,
        Refusal::TableLengthBad as u64,
        out,
        0,
    );
    Ok((REFUSED_BYTES + 2) as u16)
}
