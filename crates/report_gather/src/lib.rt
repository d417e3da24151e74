// The keys of a table's slots, counted in one pass. The first learned record of a nickname is noted in a set; what is met again is counted
// in tallies, and so are configured records and slots without one. Where nothing was tallied, the set alone lists all in order.
#![tactic(auto)]

ghost use Rattle.std.specs.Prelude.{◌+◌, ◌^◌, ◌<◌, ◌≤◌, true, false, [], ◌++◌, ◌≡◌, length, take};
ghost use Rattle.table.specs.Slots.{most_slots, slots_of};
ghost use Rattle.flush_sort.specs.Sorting.{Sorted};
ghost use Rattle.report_keys.specs.Keys.{keys_to};
ghost use Rattle.report_tally.specs.Tallies.{tallied, Tallies, OneMore, places_noted};
ghost use Rattle.report_set.specs.Set.{set_words, set_tallies, Noted};

use report_keys::FREE_KEY;
use report_set::SET_WORDS;
use report_tally::PLACES;
use table::SLOT_BYTES;

// How many tallies there are, and how many of them came from no set.
#[derive(Clone, Copy)]
pub struct Gathered {
    pub all: usize,
    pub unsorted: usize,
}

// Notes the first learned record of a nickname: whether the key was that of one.
fn note_first(k: u32, s: &mut [u64]) -> bool
    requires { length s.old ≡ set_words }
    ensures { (result ≡ true → Noted k s.old s.new) × (result ≡ false → s.new ≡ s.old) }
{
    if (FREE_KEY <= k) | (k % 2 != 0) {
        return false;
    }
    report_set::add(s, (k / 2) as usize)
}

// Counts a key once more: how many tallies there are then beside the set.
fn add(k: u32, s: &mut [u64], tallies: &mut [u32], places: &mut [u16], n: usize) -> usize
    requires { ((k < 2 ^ 18) × ((length places.old ≡ places_noted) × (length s.old ≡ set_words))) × ((n < length tallies.old) × ((n < most_slots) × (tallied k (take n tallies.old) < most_slots))) }
    ensures { (result + length (set_tallies 0 s.new) ≤ n + length (set_tallies 0 s.old) + 1) × OneMore k (take n tallies.old ++ set_tallies 0 s.old) (take result tallies.new ++ set_tallies 0 s.new) }
{
    if report_tally::count_on(k, tallies, places, n) {
        return n;
    }
    if note_first(k, s) {
        return n;
    }
    report_tally::count_new(k, tallies, places, n);
    n + 1
}

// Counts the keys of all slots by a set that is empty and by tallies: how many of these there are.
fn count_all(table: &[u8], s: &mut [u64], tallies: &mut [u32]) -> usize
    requires { ((slots_of table.now ≤ most_slots) × (most_slots ≤ length tallies.old)) × ((length s.old ≡ set_words) × (set_tallies 0 s.old ≡ [])) }
    ensures { (result + length (set_tallies 0 s.new) ≤ slots_of table.now) × Tallies (keys_to (slots_of table.now) table.now) (take result tallies.new ++ set_tallies 0 s.new) }
{
    let mut places = [0u16; PLACES];
    let mut n = 0;
    for i in 0..table.len() / SLOT_BYTES {
        let k = report_keys::key_at(table, SLOT_BYTES * i);
        n = add(k, s, tallies, &mut places, n);
    }
    n
}

// Tallies of the keys of all slots.
pub fn gather(table: &[u8], tallies: &mut [u32]) -> Gathered
    requires { (slots_of table.now ≤ most_slots) × (most_slots ≤ length tallies.old) }
    ensures { ((result.all ≤ slots_of table.now) × (result.unsorted ≡ 0 → Sorted (take result.all tallies.new))) × Tallies (keys_to (slots_of table.now) table.now) (take result.all tallies.new) }
{
    let mut s = [0u64; SET_WORDS];
    let n = count_all(table, &mut s, tallies);
    let m = report_set::list(&s, tallies, n);
    Gathered {
        all: m,
        unsorted: n,
    }
}
