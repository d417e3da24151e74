// Marks: one bit for each slot of a table. They are looked through and listed, and the marked slots are cleared and counted.
#![tactic(auto)]

ghost use Rattle.std.specs.Prelude.{◌+◌, ◌/◌, ◌^◌, ◌<◌, ◌≤◌, true, false, ◌≡◌, length};
ghost use Rattle.std.specs.Int.Count.{count_leading_zeros};
ghost use Rattle.numbers.specs.After.{on_table};
ghost use Rattle.table.specs.Slots.{most_slots, slots_of, put_slot, freed};
ghost use Rattle.flush_marks.specs.Marks.{mark_bytes, RestOf, Unmarked, NextMark, NoMarks, Listing, AllMarked, freed_from, cleared_marks};

use table::SLOT_BYTES;

// A bit for each slot.
pub const MARK_BYTES: usize = 512;

// What clearing in a range of slots comes to: how many records were cleared, and how many slots examined.
#[derive(Clone, Copy)]
pub struct Sweep {
    pub cleared: usize,
    pub examined: usize,
}

// The first bit of a word of 64 slots, and all its bits.
const FIRST_BIT: u64 = 0x8000_0000_0000_0000;

const ALL_BITS: u64 = 0xffff_ffff_ffff_ffff;

// The marks of slot k and of those after it in its word of 64 slots, as the high bits of a number.
fn rest_of(marks: &[u8], k: usize) -> u64
    requires { (length marks.now ≡ mark_bytes) × (k < most_slots) }
    ensures { RestOf marks.now k result }
{
    numbers::be8(marks, k / 64 * 8) << (k % 64)
}

// How many bits of a word stand before the first that is set.
fn lead_of(w: u64) -> usize
    ensures { (result ≡ count_leading_zeros 64 w) × (result ≤ 64) }
{
    u64::leading_zeros(w) as usize
}

// The next slot that is marked, from a slot on and before slot n, by words. Where marks stand close the slot itself is mostly the one, and
// what follows does not wait for the count; where they do not, which slot is next takes no branch.
pub fn next_marked(marks: &[u8], from: usize, n: usize) -> Option<usize>
    requires { (length marks.now ≡ mark_bytes) × (n ≤ most_slots) }
    ensures { NextMark marks.now from n result }
{
    let mut k = from;
    // A `while`: the step goes on to the next word.
    while k < n {
        let w = rest_of(marks, k);
        if FIRST_BIT <= w {
            return Some(k);
        }
        if w != 0 {
            let j = k + lead_of(w);
            if n <= j {
                return None;
            }
            return Some(j);
        }
        k = k / 64 * 64 + 64;
    }
    None
}

fn ones(w: u64) -> usize
    ensures { result ≤ 64 }
{
    u64::count_ones(w) as usize
}

// Whether a slot before slot n is marked.
pub fn any_marked(marks: &[u8], n: usize) -> bool
    requires { (length marks.now ≡ mark_bytes) × (n ≤ most_slots) }
    ensures { result ≡ false → Unmarked marks.now 0 n }
{
    match next_marked(marks, 0, n) {
        Some(_) => true,
        None => false,
    }
}

// How many bits are set. It only decides by which way a filter goes, so nothing is promised of it but its size.
pub fn weight(marks: &[u8]) -> usize
    requires { length marks.now ≡ mark_bytes }
    ensures { result ≤ most_slots }
{
    let mut sum = 0;
    for word in marks.chunks_exact(8) {
        sum += ones(numbers::be8(word, 0));
    }
    sum
}

// Whether eight slots from slot k on, which share a byte, are all marked and before slot n.
fn eight_marked(marks: &[u8], k: usize, n: usize) -> bool
    requires { (length marks.now ≡ mark_bytes) × ((k < n) × (n ≤ most_slots)) }
    ensures { result ≡ true → AllMarked marks.now k 8 n }
{
    if k % 8 != 0 {
        return false;
    }
    if n < k + 8 {
        return false;
    }
    marks[k / 8] == 0xff
}

// Frees a slot of the table.
fn clear_slot(table: &mut [u8], k: usize)
    requires { k < slots_of table.old }
    ensures { table.new ≡ put_slot k freed table.old }
{
    let a = SLOT_BYTES * k;
    let e = a + SLOT_BYTES;
    table_records::clear(&mut table[a..e]);
}

// Frees n slots from slot k on. The compiler clears them together.
fn clear_run(table: &mut [u8], k: usize, n: usize)
    requires { k + n ≤ slots_of table.old }
    ensures { table.new ≡ freed_from k n table.old }
{
    for i in 0..n {
        clear_slot(table, k + i);
    }
}

// Clears the marked slots, and counts them: eight at once where they are all marked. Where marks stand close the next slot is mostly marked,
// and is not searched for.
pub fn clear_marked(table: &mut [u8], marks: &[u8]) -> usize
    requires { (length marks.now ≡ mark_bytes) × (slots_of table.old ≤ most_slots) }
    ensures { on_table result table.new ≡ cleared_marks marks.now table.old }
{
    let n = table.len() / SLOT_BYTES;
    let mut count = 0;
    let mut k = 0;
    // A `while`: the step is eight slots, one, or up to the next mark.
    while k < n {
        if eight_marked(marks, k, n) {
            clear_run(table, k, 8);
            count += 8;
            k += 8;
        } else if flush_bits::has(marks, k as u64) {
            clear_slot(table, k);
            count += 1;
            k += 1;
        } else {
            match next_marked(marks, k + 1, n) {
                Some(j) => {
                    clear_slot(table, j);
                    count += 1;
                    k = j + 1;
                }
                None => {
                    return count;
                }
            }
        }
    }
    count
}

// Lists the marked slots before slot n. Each slot of a byte with a mark is stored, and counted where it is marked: there is no branch on
// the mark.
pub fn list_marked(marks: &[u8], n: usize, slots: &mut [u64]) -> Option<usize>
    requires { (length marks.now ≡ mark_bytes) × (n ≤ most_slots) }
    ensures { Listing marks.now n slots.old slots.new result }
{
    let mut c = 0;
    let mut k = 0;
    // A `while`: the step is one slot, or up to the next byte.
    while k < n {
        if flush_bits::none_at(marks, (k / 8) as u64) {
            k = k / 8 * 8 + 8;
        } else {
            if c == slots.len() {
                return None;
            }
            slots[c] = k as u64;
            c += flush_sort::one(flush_bits::has(marks, k as u64));
            k += 1;
        }
    }
    Some(c)
}

// Removes every mark.
pub fn remove_all(marks: &mut [u8])
    requires { length marks.old ≡ mark_bytes }
    ensures { NoMarks marks.new }
{
    marks.fill(0);
}
