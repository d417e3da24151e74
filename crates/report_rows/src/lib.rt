// The rows of a report, from tallies that are sorted: the two counts of a nickname, and how often a key past all nicknames was met.
#![tactic(auto)]

ghost use Rattle.std.specs.Prelude.{◌+◌, ◌*◌, ◌/◌, ◌%◌, ◌^◌, ◌<◌, ◌≤◌, true, ◌≡◌, length, get_or};
ghost use Rattle.numbers.specs.Tests.{pick};
ghost use Rattle.table.specs.Slots.{most_slots};
ghost use Rattle.flush_sort.specs.Sorting.{Sorted};
ghost use Rattle.report.specs.Report.{nickname_end};
ghost use Rattle.report_keys.specs.Keys.{free_key};
ghost use Rattle.report_tally.specs.Tallies.{tally_unit, counted_by, tallied};
ghost use Rattle.report_rows.specs.Rows.{row_unit, RowAt, single_row};

use report_keys::FREE_KEY;
use report_tally::TALLY_UNIT;

// A nickname, its counts, and the place after its tallies.
#[derive(Clone, Copy)]
pub struct Row {
    pub nickname: u64,
    pub learned: u64,
    pub configured: u64,
    pub next: usize,
}

// The nickname of a tally stands above its kind and its count.
const ROW_UNIT: u32 = 2 * TALLY_UNIT;

// The count of a tally, or 0.
fn count_if(b: bool, t: u32) -> u64
    ensures { (result ≡ pick b (t % tally_unit) 0) × (result < tally_unit) }
{
    if b { (t % TALLY_UNIT) as u64 } else { 0 }
}

// The kinds of records that a tally counts.
const LEARNED: u32 = 0;

const CONFIGURED: u32 = 1;

// How often a tally counts records of its nickname of a kind.
fn count_of<const KIND: u32>(t: u32) -> u64
    requires { KIND < 2 }
    ensures { (result ≡ counted_by (t / row_unit * 2 + KIND) t) × (result < tally_unit) }
{
    count_if(t / TALLY_UNIT % 2 == KIND, t)
}

pub fn nickname_of(t: u32) -> u64
    ensures { (result ≡ t / row_unit) × (result < 2 ^ 18) }
{
    (t / ROW_UNIT) as u64
}

// The row that starts at a place.
pub fn row_at(v: &[u32], i: usize) -> Row
    requires { (i < length v.now) × (Sorted v.now × (length v.now ≤ most_slots)) }
    ensures { RowAt v.now i result }
{
    let x = nickname_of(v[i]);
    let mut l = count_of::<LEARNED>(v[i]);
    let mut c = count_of::<CONFIGURED>(v[i]);
    for j in i + 1..v.len() {
        if nickname_of(v[j]) != x {
            return Row {
                nickname: x,
                learned: l,
                configured: c,
                next: j,
            };
        }
        l += count_of::<LEARNED>(v[j]);
        c += count_of::<CONFIGURED>(v[j]);
    }
    Row {
        nickname: x,
        learned: l,
        configured: c,
        next: v.len(),
    }
}

// Whether the row that starts at a place is one tally, of one learned record.
pub fn single_at(v: &[u32], i: usize) -> bool
    requires { (i < length v.now) × Sorted v.now }
    ensures { result ≡ true → (get_or v.now i 0 / row_unit < nickname_end) × RowAt v.now i (single_row (get_or v.now i 0) i) }
{
    let t = v[i];
    let j = i + 1;
    if (t % ROW_UNIT != 1) | (FREE_KEY <= t / TALLY_UNIT) {
        return false;
    }
    if v.len() <= j {
        return false;
    }
    v[j] / ROW_UNIT != t / ROW_UNIT
}

// How often the tallies count a key past those of all nicknames: theirs are the last.
pub fn times(v: &[u32], k: u32) -> u64
    requires { (free_key ≤ k) × (Sorted v.now × (length v.now ≤ most_slots)) }
    ensures { result ≡ tallied k v.now }
{
    let mut n = 0;
    for i in (0..v.len()).rev() {
        let t = v[i];
        if t / TALLY_UNIT < FREE_KEY {
            return n;
        }
        n += count_if(t / TALLY_UNIT == k, t);
    }
    n
}
