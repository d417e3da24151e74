// What the TLVs of a message name, found among the numbers of records: these are sorted once, and each block, number and bit map of the
// message finds its place in them, by a place that was noted for its bucket or by a search.
#![tactic(auto)]

ghost use Rattle.std.specs.Prelude.{◌≡◌, suc, ◌+◌, ◌*◌, ◌^◌, ◌≤◌, ◌<◌, leb, length, take};
ghost use Rattle.numbers.specs.Tests.{pick, both};
ghost use Rattle.numbers.specs.Numberings.{in_map};
ghost use Rattle.table.specs.Slots.{most_slots};
ghost use Rattle.flush.specs.Payload.{tlv, tlvs};
ghost use Rattle.flush_sort.specs.Sorting.{All, Sorted};
ghost use Rattle.flush_parts.specs.Parts.{Narrow, parts_hit};
ghost use Rattle.flush_parts.specs.Named.{named_in, named_of};
ghost use Rattle.flush_buckets.specs.Buckets.{key_slots};
ghost use Rattle.flush_intervals.specs.Hits.{Splits, Searched, Hits};

use flush_buckets::{BUCKET, BUCKETS, KEY_SLOTS};
use flush_parts::Naming;
use numbers::Numbering;
use table::MOST_SLOTS;

// A bit for each key, of which there are as many as slots at most, and a byte after them that is not used.
pub const HIT_BYTES: usize = 513;

// The step of the search: h if v is below the keys of z, else 0; by arithmetic, since a compiler makes a branch of a choice.
fn step(v: u64, z: u64, h: usize) -> usize
    requires { z < 2 ^ 52 }
    ensures { (result ≡ pick (leb (suc v) (z * key_slots)) h 0) × (result ≤ h) }
{
    let above = (v / KEY_SLOTS + 0x1000_0000_0000_0000 - z) / 0x1000_0000_0000_0000;
    h * (1 - above as usize)
}

// How many are below the keys of z. The n from base on are still in question; each turn halves them.
// A `while`: the step is half of what is left. `partition_point` was tried: it branches, and takes twice as long.
fn count_below(keys: &[u64], z: u64) -> usize
    requires { Sorted keys.now × (z < 2 ^ 52) }
    ensures { Splits keys.now (z * key_slots) result }
{
    let mut base = 0;
    let mut n = keys.len();
    while 1 < n {
        let half = n / 2;
        base += step(keys[base + half - 1], z, half);
        n -= half;
    }
    if n == 1 {
        return base + step(keys[base], z, 1);
    }
    base
}

// How many are below the keys of e, where those before lo are. Mostly it is lo or the next.
fn count_from(keys: &[u64], lo: usize, e: u64) -> usize
    requires { Sorted keys.now × ((e < 2 ^ 52) × ((lo ≤ length keys.now) × All (λ v. v < e * key_slots) (take lo keys.now))) }
    ensures { Splits keys.now (e * key_slots) result }
{
    if lo == keys.len() {
        return lo;
    }
    let y = e * KEY_SLOTS;
    if y <= keys[lo] {
        return lo;
    }
    let next = lo + 1;
    if next == keys.len() {
        return next;
    }
    if y <= keys[next] {
        return next;
    }
    count_below(keys, e)
}

// The entry of a number among the places of n: by its bucket.
fn entry_of(x: u64, n: usize) -> usize
    requires { n ≤ most_slots }
{
    (x / BUCKET % BUCKETS) as usize * n / BUCKETS as usize
}

// Notes the place of each key in the entry of its number; of several in one entry that of the first. There are no more entries than
// slots. Nothing is promised of it: a place that is read is tested.
pub fn note_places(keys: &[u64], places: &mut [u64]) {
    let n = places.len();
    if MOST_SLOTS < n {
        return;
    }
    for i in (0..keys.len()).rev() {
        let h = entry_of(keys[i] / KEY_SLOTS, n);
        if n <= h {
            return;
        }
        places[h] = i as u64;
    }
}

// The place that was noted in the entry of a number, or any number.
fn place_at(places: &[u64], x: u64) -> usize {
    let n = places.len();
    if MOST_SLOTS < n {
        return 0;
    }
    let h = entry_of(x, n);
    if n <= h {
        return 0;
    }
    places[h] as usize
}

// How many are below the keys of z. Mostly it is the place that was noted or the next; else they are searched.
fn count_near(keys: &[u64], places: &[u64], z: u64) -> usize
    requires { Sorted keys.now × (z < 2 ^ 52) }
    ensures { Splits keys.now (z * key_slots) result }
{
    let i = place_at(places, z);
    if i == 0 {
        return count_from(keys, 0, z);
    }
    if keys.len() < i {
        return count_below(keys, z);
    }
    if z * KEY_SLOTS <= keys[i - 1] {
        return count_below(keys, z);
    }
    count_from(keys, i, z)
}

// Sets the bits of the keys whose number lies from s to before e.
fn hit_range(s: u64, e: u64, near: &[u8], keys: &[u64], places: &[u64], hits: &mut [u8])
    requires { Searched near.now keys.now hits.old × ((s < 2 ^ 52) × (e < 2 ^ 52)) }
    ensures { Hits (λ x. both (leb s x) (leb (suc x) e)) keys.now hits.old hits.new }
{
    if e <= s {
        return;
    }
    if !flush_buckets::may_meet(near, s, e) {
        return;
    }
    let lo = count_near(keys, places, s);
    let hi = count_from(keys, lo, e);
    flush_bits::add_range(hits, lo, hi);
}

// Sets the bits of the keys with this number.
fn hit_single(x: u64, near: &[u8], keys: &[u64], places: &[u64], hits: &mut [u8])
    requires { Searched near.now keys.now hits.old × (x < 2 ^ 48) }
    ensures { Hits (λ y. both (leb x y) (leb (suc y) (x + 1))) keys.now hits.old hits.new }
{
    if flush_buckets::has_alone(near, x) {
        hit_range(x, x + 1, near, keys, places, hits);
    }
}

// Sets the bits of the keys whose number lies in a block of a value, or is in a list of numbers.
fn hit_parts<const BLOCKS: bool>(
    v: &[u8],
    w: Numbering,
    near: &[u8],
    keys: &[u64],
    places: &[u64],
    hits: &mut [u8],
)
    requires { Narrow w × Searched near.now keys.now hits.old }
    ensures { Hits (parts_hit BLOCKS w v.now) keys.now hits.old hits.new }
{
    let k = flush_parts::span_for(BLOCKS, w);
    for part in v.chunks_exact(k) {
        let s = flush_parts::low_at(part, 0, BLOCKS, w);
        if BLOCKS {
            let e = flush_parts::past_at(part, 0, BLOCKS, w);
            hit_range(s, e, near, keys, places, hits);
        } else {
            hit_single(s, near, keys, places, hits);
        }
    }
}

// Sets the bits of the keys whose number is in a bit map. There is no branch on the bit of a map.
fn hit_map(v: &[u8], w: Numbering, near: &[u8], keys: &[u64], places: &[u64], hits: &mut [u8])
    requires { Narrow w × Searched near.now keys.now hits.old }
    ensures { Hits (λ x. in_map w x v.now) keys.now hits.old hits.new }
{
    if v.len() < w.size {
        return;
    }
    let s = flush_parts::map_low(v, w);
    let e = flush_parts::map_past(v, w);
    if !flush_buckets::may_meet(near, s, e) {
        return;
    }
    let start = flush_members::number_at(v, 0, w);
    for i in count_near(keys, places, s)..keys.len() {
        let x = keys[i] / KEY_SLOTS;
        if e <= x {
            return;
        }
        flush_bits::add_if(hits, i, flush_members::map_has(v, w, start, x));
    }
}

// Sets the bits of the keys whose number a TLV names.
fn hit_value(
    k: u8,
    v: &[u8],
    naming: Naming,
    near: &[u8],
    keys: &[u64],
    places: &[u64],
    hits: &mut [u8],
)
    requires { Narrow naming.numbering × Searched near.now keys.now hits.old }
    ensures { Hits (named_in naming (tlv k v.now)) keys.now hits.old hits.new }
{
    let w = naming.numbering;
    if k == naming.blocks {
        hit_parts::<true>(v, w, near, keys, places, hits);
        return;
    }
    if k == naming.singles {
        hit_parts::<false>(v, w, near, keys, places, hits);
        return;
    }
    if naming.mapped & (k == naming.maps) {
        hit_map(v, w, near, keys, places, hits);
    }
}

// Sets the bits of the keys whose number TLVs name.
pub fn hit_named(
    l: &[u8],
    naming: Naming,
    near: &[u8],
    keys: &[u64],
    places: &[u64],
    hits: &mut [u8],
)
    requires { Narrow naming.numbering × Searched near.now keys.now hits.old }
    ensures { Hits (named_of naming (tlvs l.now)) keys.now hits.old hits.new }
{
    let mut at = 0;
    // A `while`: the step is the length of the TLV.
    while at < l.len() {
        let e = flush_tlvs::end_of(l, at);
        if l.len() < e {
            return;
        }
        let f = at + 2;
        hit_value(l[at], &l[f..e], naming, near, keys, places, hits);
        at = e;
    }
}
