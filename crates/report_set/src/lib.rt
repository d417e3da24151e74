// A set of nicknames, a bit for each: those of which one learned record was met. Its nicknames are listed in rising order, so they need not
// be sorted.
#![tactic(auto)]

ghost use Rattle.std.specs.Prelude.{◌+◌, ◌*◌, ◌^◌, ◌<◌, ◌≤◌, true, false, ◌++◌, ◌≡◌, length, take};
ghost use Rattle.std.specs.Int.Count.{count_trailing_zeros};
ghost use Rattle.report_set.specs.Set.{word_bits, set_words, one_tally, word_tallies, set_tallies, Noted};

use report_tally::TALLY_UNIT;

const WORD_BITS: usize = 64;

// A bit for each nickname of 16 bits.
pub const SET_WORDS: usize = 1024;

// The nickname of a tally stands above its kind and its count.
const ROW_UNIT: usize = 2 * TALLY_UNIT as usize;

// Adds a nickname, unless it is in the set: whether it was added.
pub fn add(s: &mut [u64], x: usize) -> bool
    requires { x < word_bits * length s.old }
    ensures { (result ≡ true → Noted (x * 2) s.old s.new) × (result ≡ false → s.new ≡ s.old) }
{
    let i = x / WORD_BITS;
    let b = x % WORD_BITS;
    let w = s[i];
    if (w >> b) % 2 != 0 {
        return false;
    }
    s[i] = w + (1 << b);
    true
}

// The tally of one learned record.
fn tally_of(x: usize) -> u32
    requires { x < 2 ^ 16 }
    ensures { result ≡ one_tally x }
{
    (x * ROW_UNIT + 1) as u32
}

// How many bits of a word stand below the first that is set.
fn trail_of(w: u64) -> usize
    ensures { (result ≡ count_trailing_zeros word_bits w) × (result ≤ word_bits) }
{
    u64::trailing_zeros(w) as usize
}

// Lists the tallies by a word, whose first nickname is x, after the first n: how many there are then.
fn list_word(w: u64, x: usize, out: &mut [u32], n: usize) -> usize
    requires { (x + word_bits ≤ 2 ^ 16) × (n + length (word_tallies word_bits x w) ≤ length out.old) }
    ensures { (result ≡ n + length (word_tallies word_bits x w)) × (take result out.new ≡ take n out.old ++ word_tallies word_bits x w) }
{
    let mut left = w;
    let mut c = n;
    // A `while`: the step is to the next bit that is set.
    while left != 0 {
        out[c] = tally_of(x + trail_of(left));
        c += 1;
        left = left & (left - 1);
    }
    c
}

// Lists the tallies of the set after the first n: how many there are then.
pub fn list(s: &[u64], out: &mut [u32], n: usize) -> usize
    requires { (length s.now ≡ set_words) × (n + length (set_tallies 0 s.now) ≤ length out.old) }
    ensures { (result ≡ n + length (set_tallies 0 s.now)) × (take result out.new ≡ take n out.old ++ set_tallies 0 s.now) }
{
    let mut c = n;
    for (i, w) in s.iter().enumerate() {
        c = list_word(*w, i * WORD_BITS, out, c);
    }
    c
}
