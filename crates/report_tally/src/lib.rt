// Keys counted in tallies. Where a key was last counted is noted by its low bits: a key that has lost its place to another is counted in a
// new tally, and no search is needed.
#![tactic(auto)]

ghost use Rattle.std.specs.Prelude.{◌+◌, ◌/◌, ◌^◌, ◌<◌, ◌≤◌, true, false, ◌≡◌, length, take, get_or};
ghost use Rattle.table.specs.Slots.{most_slots};
ghost use Rattle.report_tally.specs.Tallies.{tally_unit, tallied, OneMore, places_noted};

// A tally is a key and below it a count.
pub const TALLY_UNIT: u32 = 0x2000;

// The places that are noted.
pub const PLACES: usize = 2048;

// Whether the tally at a place, which may be any number, is one of the first n and counts the key.
fn counts_at(tallies: &[u32], e: usize, n: usize, k: u32) -> bool
    requires { n ≤ length tallies.now }
    ensures { result ≡ true → (e < n) × (get_or tallies.now e 0 / tally_unit ≡ k) }
{
    if n <= e {
        return false;
    }
    tallies[e] / TALLY_UNIT == k
}

// Counts a key on in the tally at its place: whether that counts the key.
pub fn count_on(k: u32, tallies: &mut [u32], places: &[u16], n: usize) -> bool
    requires { (k < 2 ^ 18) × ((length places.now ≡ places_noted) × ((n ≤ length tallies.old) × (tallied k (take n tallies.old) < most_slots))) }
    ensures { (result ≡ true → OneMore k (take n tallies.old) (take n tallies.new)) × (result ≡ false → tallies.new ≡ tallies.old) }
{
    if n == 0 {
        return false;
    }
    let e = usize::from(places[k as usize % PLACES]);
    if !counts_at(tallies, e, n, k) {
        return false;
    }
    tallies[e] = tallies[e] + 1;
    true
}

// Counts a key in a new tally, and notes its place.
pub fn count_new(k: u32, tallies: &mut [u32], places: &mut [u16], n: usize)
    requires { (k < 2 ^ 18) × ((length places.old ≡ places_noted) × ((n < length tallies.old) × (n < most_slots))) }
    ensures { OneMore k (take n tallies.old) (take (n + 1) tallies.new) }
{
    tallies[n] = k * TALLY_UNIT + 1;
    places[k as usize % PLACES] = n as u16;
}
