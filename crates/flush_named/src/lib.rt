// Filter bits of what a message names: made once for a message, before a number of a record is tested exactly.
#![tactic(auto)]

ghost use Rattle.std.specs.Prelude.{true, false, ◌/◌, ◌<◌, ◌≡◌, length};
ghost use Rattle.numbers.specs.Numberings.{in_map};
ghost use Rattle.flush.specs.Payload.{tlv, tlvs};
ghost use Rattle.flush_parts.specs.Parts.{Narrow, parts_hit};
ghost use Rattle.flush_parts.specs.Named.{named_in, named_of};
ghost use Rattle.flush_buckets.specs.Buckets.{bucket_bytes, HasBits, Names};

use flush_parts::Naming;
use numbers::Numbering;

// How many parts of k bytes a value has: none and one without a division, which takes longer than to add a part.
fn parts_of(v: &[u8], k: usize) -> usize
    requires { 0 < k }
    ensures { result ≡ length v.now / k }
{
    if v.len() < k {
        return 0;
    }
    if v.len() - k < k {
        return 1;
    }
    v.len() / k
}

// Adds the blocks of a value. Where the bits are full it answers true.
fn add_blocks(v: &[u8], w: Numbering, bits: &mut [u8]) -> bool
    requires { Narrow w × (length bits.old ≡ bucket_bytes) }
    ensures { Names (parts_hit true w v.now) bits.old bits.new result }
{
    let k = flush_parts::span_for(true, w);
    for i in 0..parts_of(v, k) {
        let s = flush_parts::low_at(v, i * k, true, w);
        let e = flush_parts::past_at(v, i * k, true, w);
        if flush_buckets::add(s, e, bits) {
            return true;
        }
    }
    false
}

// Adds the numbers of a list: one bit each.
fn add_singles(v: &[u8], w: Numbering, bits: &mut [u8])
    requires { Narrow w × (length bits.old ≡ bucket_bytes) }
    ensures { Names (parts_hit false w v.now) bits.old bits.new false }
{
    let k = flush_parts::span_for(false, w);
    for i in 0..parts_of(v, k) {
        let x = flush_parts::low_at(v, i * k, false, w);
        flush_buckets::add_single(x, bits);
    }
}

// Adds the numbers that a bit map may have.
fn add_map(v: &[u8], w: Numbering, bits: &mut [u8]) -> bool
    requires { Narrow w × (length bits.old ≡ bucket_bytes) }
    ensures { Names (λ x. in_map w x v.now) bits.old bits.new result }
{
    if v.len() < w.size {
        return false;
    }
    let s = flush_parts::map_low(v, w);
    let e = flush_parts::map_past(v, w);
    flush_buckets::add(s, e, bits)
}

// Adds what a TLV names.
fn add_value(k: u8, v: &[u8], naming: Naming, bits: &mut [u8]) -> bool
    requires { Narrow naming.numbering × (length bits.old ≡ bucket_bytes) }
    ensures { Names (named_in naming (tlv k v.now)) bits.old bits.new result }
{
    let w = naming.numbering;
    if k == naming.blocks {
        return add_blocks(v, w, bits);
    }
    if k == naming.singles {
        add_singles(v, w, bits);
        return false;
    }
    if naming.mapped & (k == naming.maps) {
        return add_map(v, w, bits);
    }
    false
}

// Adds what TLVs name.
fn add_named(l: &[u8], naming: Naming, bits: &mut [u8])
    requires { Narrow naming.numbering × (length bits.old ≡ bucket_bytes) }
    ensures { HasBits (named_of naming (tlvs l.now)) bits.new }
{
    let mut at = 0;
    // A `while`: the step is the length of the TLV.
    while at < l.len() {
        let e = flush_tlvs::end_of(l, at);
        if l.len() < e {
            return;
        }
        let f = at + 2;
        if add_value(l[at], &l[f..e], naming, bits) {
            return;
        }
        at = e;
    }
}

// The same where it pays to walk over them; else every number is added, and the bits decide nothing.
pub fn add_where(l: &[u8], naming: Naming, pays: bool, bits: &mut [u8])
    requires { Narrow naming.numbering × (length bits.old ≡ bucket_bytes) }
    ensures { HasBits (named_of naming (tlvs l.now)) bits.new }
{
    if pays {
        add_named(l, naming, bits);
        return;
    }
    flush_buckets::add_all(bits);
}
