// Filter bits: a bit for each bucket of 256 numbers, counted round. A number whose bit is not set is none of those that were added; most
// numbers that are tested end there.
#![tactic(auto)]

ghost use Rattle.std.specs.Prelude.{ℕ, suc, ◌+◌, ◌%◌, ◌^◌, ◌≤◌, ◌<◌, true, false, ◌≡◌, leb, length};
ghost use Rattle.numbers.specs.Tests.{both};
ghost use Rattle.numbers.specs.Numberings.{bit_at};
ghost use Rattle.flush_buckets.specs.Buckets.{bucket_bytes, bucket_of, alone_of, Keeps, Added, Names};

// The bits, and a byte after them that is not used.
pub const BUCKET_BYTES: usize = 8193;

// A key is a number times the slots that it has room for, and a slot.
pub const KEY_SLOTS: u64 = 4096;

// The numbers of a bucket, and how many buckets there are.
pub const BUCKET: u64 = 256;

pub const BUCKETS: u64 = 0x1_0000;

// A longer interval adds every number: it would take as long to add as a search takes.
const LONGEST_ADDED: u64 = 64 * BUCKET;

// The bucket of a number.
fn bucket_of(x: u64) -> u64
    ensures { (result ≡ bucket_of x) × (result < 2 ^ 16) }
{
    x / BUCKET % BUCKETS
}

// Whether a number's bit is set.
pub fn has_bit(bits: &[u8], x: u64) -> bool
    requires { length bits.now ≡ bucket_bytes }
    ensures { result ≡ bit_at (bucket_of x) bits.now }
{
    flush_bits::has(bits, bucket_of(x))
}

// Whether a number's own bit is set.
pub fn has_alone(bits: &[u8], x: u64) -> bool
    requires { length bits.now ≡ bucket_bytes }
    ensures { result ≡ bit_at (alone_of x) bits.now }
{
    flush_bits::has(bits, x % BUCKETS)
}

// Whether the bit of a number from s to before e may be set. Of a short range the first and the last decide.
pub fn may_meet(bits: &[u8], s: u64, e: u64) -> bool
    requires { length bits.now ≡ bucket_bytes }
    ensures { result ≡ false → (x : ℕ) → s ≤ x → x < e → bit_at (bucket_of x) bits.now ≡ false }
{
    if e <= s {
        return false;
    }
    let last = e - 1;
    if BUCKET <= last - s {
        return true;
    }
    has_bit(bits, s) | has_bit(bits, last)
}

// Adds bit h, counted round.
fn add_bit(h: u64, bits: &mut [u8])
    requires { length bits.old ≡ bucket_bytes }
    ensures { Keeps bits.old bits.new × (bit_at (h % 2 ^ 16) bits.new ≡ true) }
{
    flush_bits::add_one(bits, (h % BUCKETS) as usize);
}

// Adds a number: the bit of its bucket.
pub fn add_single(x: u64, bits: &mut [u8])
    requires { length bits.old ≡ bucket_bytes }
    ensures { Names (λ y. both (leb x y) (leb (suc y) (x + 1))) bits.old bits.new false }
{
    add_bit(x / BUCKET, bits);
}

// Adds a number: the bit of its bucket, and its own.
pub fn add_twice(x: u64, bits: &mut [u8])
    requires { length bits.old ≡ bucket_bytes }
    ensures { Keeps bits.old bits.new × ((bit_at (bucket_of x) bits.new ≡ true) × (bit_at (alone_of x) bits.new ≡ true)) }
{
    add_bit(x / BUCKET, bits);
    add_bit(x, bits);
}

// Adds the numbers from s to before e. Where they are many it answers false and adds nothing.
fn add_short(s: u64, e: u64, bits: &mut [u8]) -> bool
    requires { length bits.old ≡ bucket_bytes }
    ensures { Keeps bits.old bits.new × (result ≡ true → Added s e bits.new) }
{
    if e <= s {
        return true;
    }
    let last = e - 1;
    if LONGEST_ADDED <= last - s {
        return false;
    }
    let i = bucket_of(s);
    let j = bucket_of(last);
    if i == j {
        flush_bits::add_one(bits, i as usize);
        return true;
    }
    if j < i {
        return false;
    }
    flush_bits::add_range(bits, i as usize, j as usize + 1);
    true
}

// Adds every number.
pub fn add_all(bits: &mut [u8])
    requires { length bits.old ≡ bucket_bytes }
    ensures { Keeps bits.old bits.new × ((s e : ℕ) → Added s e bits.new) }
{
    flush_bits::add_range(bits, 0, BUCKETS as usize);
}

// Adds the numbers from s to before e. Where they are many it adds every number, and answers true.
pub fn add(s: u64, e: u64, bits: &mut [u8]) -> bool
    requires { length bits.old ≡ bucket_bytes }
    ensures { Names (λ x. both (leb s x) (leb (suc x) e)) bits.old bits.new result }
{
    if add_short(s, e, bits) {
        return false;
    }
    add_all(bits);
    true
}
