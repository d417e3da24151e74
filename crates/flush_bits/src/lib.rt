// Sets of numbers as bits: number x is bit x % 8 of byte x / 8, the high bit first.
#![tactic(auto)]

ghost use Rattle.std.specs.Prelude.{ℕ, ◌+◌, ◌-◌, ◌*◌, ◌/◌, ◌^◌, ◌<◌, ◌≤◌, true, false, ◌≡◌, length, get_or, set};
ghost use Rattle.std.specs.Int.Bits.{bit_or};
ghost use Rattle.numbers.specs.Tests.{pick};
ghost use Rattle.numbers.specs.Numberings.{bit_at};
ghost use Rattle.flush_bits.specs.Ranged.{mask_of, Ranged, Widened};

// Whether x is in the set.
pub fn has(s: &[u8], x: u64) -> bool
    requires { x < 8 * length s.now }
    ensures { result ≡ bit_at x s.now }
{
    let k = (x % 8) as u8;
    (s[(x / 8) as usize] >> (7 - k)) % 2 == 1
}

// Whether byte h is 0: then none of its numbers is in the set.
pub fn none_at(s: &[u8], h: u64) -> bool
    requires { h < length s.now }
    ensures { result ≡ true → (x : ℕ) → h ≡ x / 8 → bit_at x s.now ≡ false }
{
    s[h as usize] == 0
}

// Adds the bits of a byte.
pub fn add_byte(s: &mut [u8], i: usize, m: u8)
    requires { i < length s.old }
    ensures { s.new ≡ set s.old i (bit_or (get_or s.old i 0) m) }
{
    s[i] = s[i] | m;
}

// A byte with the bits from i to before j.
fn mask(i: usize, j: usize) -> u8
    requires { (i ≤ j) × ((i < 8) × (j ≤ 8)) }
    ensures { result ≡ mask_of i j }
{
    ((256u64 >> i) - (256u64 >> j)) as u8
}

// Fills the bytes from a to before b.
pub fn fill(s: &mut [u8], a: usize, b: usize)
    requires { (a ≤ b) × (b ≤ length s.old) }
    ensures { Ranged s.old s.new (8 * a) (8 * b) }
{
    s[a..b].fill(0xff);
}

// Adds the numbers from first to before past that share a byte.
fn add_part(s: &mut [u8], first: usize, past: usize)
    requires { ((first ≤ past) × (first < 8 * length s.old)) × (past ≤ first / 8 * 8 + 8) }
    ensures { Ranged s.old s.new first past }
{
    let a = first / 8;
    add_byte(s, a, mask(first % 8, past - a * 8));
}

// Adds the numbers from first to before past.
pub fn add_range(s: &mut [u8], first: usize, past: usize)
    requires { (first ≤ past) × (past < 8 * length s.old) }
    ensures { Ranged s.old s.new first past }
{
    let a = first / 8;
    let b = past / 8;
    if a == b {
        add_part(s, first, past);
        return;
    }
    let c = a * 8 + 8;
    let d = b * 8;
    add_part(s, first, c);
    fill(s, a + 1, b);
    add_part(s, d, past);
}

// Adds one number.
pub fn add_one(s: &mut [u8], x: usize)
    requires { (x < 8 * length s.old) × (x < 2 ^ 16) }
    ensures { Ranged s.old s.new x (x + 1) }
{
    add_part(s, x, x + 1);
}

// The high bit of a byte, or none.
fn high_if(b: bool) -> u64
    ensures { result ≡ pick b 128 0 }
{
    if b { 128 } else { 0 }
}

// Bit k of a byte, or none.
fn bit_if(k: usize, b: bool) -> u8
    requires { k < 8 }
    ensures { result ≡ pick b 128 0 / 2 ^ k }
{
    (high_if(b) >> k) as u8
}

// Adds number k where b is true. There is no branch on b.
pub fn add_if(s: &mut [u8], k: usize, b: bool)
    requires { k < 8 * length s.old }
    ensures { Widened s.old s.new k b }
{
    add_byte(s, k / 8, bit_if(k % 8, b));
}
