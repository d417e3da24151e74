// Rounds over several slots: passing by those that a few of their bits exclude.
#![tactic(auto)]

ghost use Rattle.std.specs.Prelude.{ℕ, ◌+◌, ◌*◌, ◌^◌, ◌<◌, ◌≤◌, ◌≡◌, true, length};
ghost use Rattle.table.specs.Record.{free_state};
ghost use Rattle.table.specs.Slots.{slot_bytes, slots_of};
ghost use Rattle.table_rounds.specs.Rounds.{Keyed, InState, InOther, Blank, four_slots, NoneOfFour, Passed};

use table::SLOT_BYTES;
use table_fields::layout;

// The bytes of several slots, and the slots of a round.
const TWO_SLOTS: usize = 2 * SLOT_BYTES;

const THREE_SLOTS: usize = 3 * SLOT_BYTES;

pub const FOUR_SLOTS: usize = 4 * SLOT_BYTES;

const ROUND: usize = 8;

// Whether a test passes at each of the four slots at an offset. The lowest slot comes last: a caller has read it or reads it next, and
// where its first byte is at hand already, the compiler does not read four bytes at once.
fn all_of_four<F: Fn(usize) -> bool>(at: usize, test: F) -> bool
    requires fits { at + four_slots < 2 ^ 64 }
    requires callable { F.pre test at × F.pre test (at + slot_bytes) × F.pre test (at + 2 * slot_bytes) × F.pre test (at + 3 * slot_bytes) }
    ensures { result ≡ true → F.post test at true × F.post test (at + slot_bytes) true × F.post test (at + 2 * slot_bytes) true × F.post test (at + 3 * slot_bytes) true }
{
    let d = test(at + THREE_SLOTS);
    let c = test(at + TWO_SLOTS);
    let b = test(at + SLOT_BYTES);
    let a = test(at);
    (d & c) & (b & a)
}

// Whether none of the four slots at an offset has a key.
fn none_keyed(t: &[u8], at: usize, key: u64) -> bool
    requires { at + four_slots ≤ length t.now }
    ensures { result ≡ true → NoneOfFour (Keyed key) at t.now }
{
    all_of_four(at, |a| table_fields::round_key_at(t, a) != key)
}

// Whether none of them is in a state.
pub fn none_in_state(t: &[u8], at: usize, state: u64) -> bool
    requires { at + four_slots ≤ length t.now }
    ensures { result ≡ true → NoneOfFour (InState state) at t.now }
{
    all_of_four(at, |a| table_fields::state_at(t, a) != state)
}

// Whether all of them are of state 0, told by the four bytes that the next test reads too.
fn all_unpacked(t: &[u8], at: usize) -> bool
    requires { at + four_slots ≤ length t.now }
    ensures { result ≡ true → NoneOfFour (InOther free_state) at t.now }
{
    all_of_four(at, |a| table_fields::front_at(t, a) < layout::FRONT_STATE)
}

// Whether none of them begins with four bytes of 0, as a free slot does.
fn none_blank(t: &[u8], at: usize) -> bool
    requires { at + four_slots ≤ length t.now }
    ensures { result ≡ true → NoneOfFour Blank at t.now }
{
    all_of_four(at, |a| table_fields::front_at(t, a) != 0)
}

// The lowest slot from a slot on, of n, whose round does not pass a test, or that is one of those after the last whole round.
fn next_round<F: Fn(usize) -> bool>(n: usize, from: usize, test: F) -> usize
    requires within { from ≤ n }
    requires callable { (i : ℕ) → from ≤ i → i + 8 ≤ n → F.pre test i }
    ensures bounds { (from ≤ result) × (result ≤ n) }
    ensures rounds { (r : ℕ) → from + 8 * r < result → (from + 8 * r + 8 ≤ result) × F.post test (from + 8 * r) true }
{
    let mut i = from;
    // A `while`: as a `for` over the rounds, learning in eight slots takes 1.12 times as long, and the search for a free one 1.5 times.
    while ROUND <= n - i {
        if !test(i) {
            return i;
        }
        i += ROUND;
    }
    i
}

// The lowest slot from a slot on in whose round some slot has a key, or that is one of those after the last whole round.
pub fn next_keyed(t: &[u8], from: usize, key: u64) -> usize
    requires { from ≤ slots_of t.now }
    ensures { (from ≤ result) × ((result ≤ slots_of t.now) × Passed (Keyed key) from result t.now) }
{
    next_round(
        t.len() / SLOT_BYTES,
        from,
        |i|
            requires { i + 8 ≤ slots_of t.now }
            ensures { result ≡ true → Passed (Keyed key) i (i + 8) t.entry.now }
        {
            let at = SLOT_BYTES * i;
            none_keyed(t, at, key) & none_keyed(t, at + FOUR_SLOTS, key)
        },
    )
}

// The same for a state.
pub fn next_in_state(t: &[u8], from: usize, state: u64) -> usize
    requires { from ≤ slots_of t.now }
    ensures { (from ≤ result) × ((result ≤ slots_of t.now) × Passed (InState state) from result t.now) }
{
    next_round(
        t.len() / SLOT_BYTES,
        from,
        |i|
            requires { i + 8 ≤ slots_of t.now }
            ensures { result ≡ true → Passed (InState state) i (i + 8) t.entry.now }
        {
            let at = SLOT_BYTES * i;
            none_in_state(t, at, state) & none_in_state(t, at + FOUR_SLOTS, state)
        },
    )
}

// The lowest slot from a slot on in whose round some slot is not of state 0 or may be free, or that is one of those after the last whole
// round: rounds of spoilt records of state 0 are passed by. A round is tested twice: as one test of each slot, the compiler compares each
// slot with two bounds, and that takes twice as long.
pub fn next_not_spoilt(t: &[u8], from: usize) -> usize
    requires { from ≤ slots_of t.now }
    ensures { (from ≤ result) × ((result ≤ slots_of t.now) × (Passed (InOther free_state) from result t.now × Passed Blank from result t.now)) }
{
    next_round(
        t.len() / SLOT_BYTES,
        from,
        |i|
            requires { i + 8 ≤ slots_of t.now }
            ensures { result ≡ true → Passed (InOther free_state) i (i + 8) t.entry.now × Passed Blank i (i + 8) t.entry.now }
        {
            let at = SLOT_BYTES * i;
            (all_unpacked(t, at) & all_unpacked(t, at + FOUR_SLOTS))
                && (none_blank(t, at) & none_blank(t, at + FOUR_SLOTS))
        },
    )
}
