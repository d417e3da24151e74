// The report of a table: tallies of its keys, put in order, and their text.
#![tactic(auto)]

ghost use Rattle.std.specs.Prelude.{◌+◌, ◌*◌, ◌≤◌, true, ◌≡◌, length, take};
ghost use Rattle.numbers.specs.After.{on_area};
ghost use Rattle.table.specs.Slots.{most_slots, table_good, slots_of};
ghost use Rattle.flush_sort.specs.Sorting.{Sorted};
ghost use Rattle.report.specs.Report.{nickname_end, counts_of, counts_text, written, reported_to};
ghost use Rattle.report_keys.specs.Keys.{free_key, spoilt_key, keys_to};
ghost use Rattle.report_tally.specs.Tallies.{tallied, Tallies};
ghost use Rattle.report_rows.specs.Rows.{lines_text};
ghost use Rattle.report_text.specs.Whole.{whole_text};

use numbers::refusals::Refusal;
use report_keys::{FREE_KEY, SPOILT_KEY};
use table::MOST_SLOTS;

// The report of sorted tallies.
fn write_tallies(v: &[u32], out: &mut [u8]) -> Result<u16, Refusal>
    requires { (Sorted v.now × (length v.now ≤ most_slots)) × (length (lines_text nickname_end v.now) + 9 * (tallied free_key v.now + tallied spoilt_key v.now) ≤ 9 * most_slots) }
    ensures { on_area result out.new ≡ written (whole_text v.now (tallied free_key v.now) (tallied spoilt_key v.now)) out.old }
{
    let free = report_rows::times(v, FREE_KEY);
    let spoilt = report_rows::times(v, SPOILT_KEY);
    report_text::write(v, free, spoilt, out)
}

// Sorted tallies of a table of a good length, and how many.
fn tally(table: &[u8], tallies: &mut [u32]) -> usize
    requires { (slots_of table.now ≤ most_slots) × (length tallies.old ≡ most_slots) }
    ensures { (result ≤ slots_of table.now) × (Sorted (take result tallies.new) × Tallies (keys_to (slots_of table.now) table.now) (take result tallies.new)) }
{
    let g = report_gather::gather(table, tallies);
    let n = g.all;
    if g.unsorted != 0 {
        report_order::order(&mut tallies[..n]);
    }
    n
}

// The report of a table of a good length.
fn write_table(table: &[u8], tallies: &mut [u32], out: &mut [u8]) -> Result<u16, Refusal>
    requires { (table_good table.now ≡ true) × (length tallies.old ≡ most_slots) }
    ensures { on_area result out.new ≡ written (counts_text (counts_of table.now)) out.old }
{
    let n = tally(table, tallies);
    write_tallies(&tallies[..n], out)
}

// The report of any bytes.
pub fn write_report(table: &[u8], out: &mut [u8]) -> Result<u16, Refusal>
    ensures { on_area result out.new ≡ reported_to table.now out.old }
{
    if !table_records::table_good(table) {
        return report_text::write_refused(out);
    }
    let mut tallies = [0u32; MOST_SLOTS];
    write_table(table, &mut tallies, out)
}
