// The TLVs of a flush payload: what one of them says, and whether some of them says it.
#![tactic(auto)]

ghost use Rattle.std.specs.Prelude.{◌+◌, ◌<◌, ◌≡◌, ℕ, Bool, false, length, drop};
ghost use Rattle.numbers.specs.Tests.{any_of};
ghost use Rattle.table.specs.Record.{label_from};
ghost use Rattle.flush.specs.Payload.{every_type, Piece, tlv, stump, tlv_end, tlvs};
ghost use Rattle.flush.specs.Meaning.{vlan_in, fine_in, brings_label, brings_mac, gathers_mac};

// Whether a TLV brings a VLAN: type 1 VLAN blocks, type 2 a VLAN bit map, type 6 all labels.
fn vlan_in(x: u64, k: u8, v: &[u8]) -> bool
    ensures { result ≡ vlan_in x k v.now }
{
    if k == 6 {
        return true;
    }
    if k == 1 {
        return flush_members::in_vlan_blocks(v, x);
    }
    if k == 2 {
        return flush_members::in_vlan_map(v, x);
    }
    false
}

// Whether a TLV brings a fine-grained label: type 3 blocks, type 4 labels, type 5 a bit map, type 6 all labels.
fn fine_in(x: u64, k: u8, v: &[u8]) -> bool
    ensures { result ≡ fine_in x k v.now }
{
    if k == 6 {
        return true;
    }
    if k == 3 {
        return flush_members::in_fine_blocks(v, x);
    }
    if k == 4 {
        return flush_members::in_fines(v, x);
    }
    if k == 5 {
        return flush_members::in_fine_map(v, x);
    }
    false
}

// Whether a TLV brings a label, which is given by its kind and its number.
fn brings_label(kind: u64, x: u64, k: u8, v: &[u8]) -> bool
    ensures { result ≡ brings_label every_type (label_from kind x) (tlv k v.now) }
{
    if kind == 0 {
        return vlan_in(x, k, v);
    }
    fine_in(x, k, v)
}

// Whether a TLV brings a MAC: type 7 MACs, type 8 MAC blocks.
fn brings_mac(m: u64, k: u8, v: &[u8]) -> bool
    ensures { result ≡ brings_mac every_type m (tlv k v.now) }
{
    if k == 7 {
        return flush_members::in_macs(v, m);
    }
    if k == 8 {
        return flush_members::in_mac_blocks(v, m);
    }
    false
}

// Whether a TLV gathers some MAC: a list entry, or a block that is not empty.
fn gathers_mac(k: u8, v: &[u8]) -> bool
    ensures { result ≡ gathers_mac every_type (tlv k v.now) }
{
    if k == 7 {
        return 6 <= v.len();
    }
    if k == 8 {
        return flush_members::some_mac_block(v);
    }
    false
}

// Where the TLV at a place ends; past the end of the bytes where it is cut.
pub fn end_of(l: &[u8], at: usize) -> usize
    requires { at < length l.now }
    ensures { result ≡ at + tlv_end (drop at l.now) }
{
    let s = at + 2;
    if l.len() < s {
        return s;
    }
    s + numbers::wide(l[at + 1]) as usize
}

// Whether some TLV passes a test of its type and its value. Where the TLVs are cut, what is left passes none.
fn some_tlv<F: Fn(u8, &[u8]) -> bool>(l: &[u8], test: F) -> bool
    requires { F.IsAlwaysCallable test }
    ensures { (ask : Piece → Bool) → ask stump ≡ false → ((k : ℕ) (v : _) (r : Bool) → F.post test k v r → r ≡ ask (tlv k v.now)) → result ≡ any_of ask (tlvs l.now) }
{
    let mut at = 0;
    // A `while`: the step is the length of the TLV.
    while at < l.len() {
        let e = end_of(l, at);
        if l.len() < e {
            return false;
        }
        let s = at + 2;
        if test(l[at], &l[s..e]) {
            return true;
        }
        at = e;
    }
    false
}

// Whether some TLV brings a label.
pub fn some_label(l: &[u8], kind: u64, x: u64) -> bool
    ensures { result ≡ any_of (brings_label every_type (label_from kind x)) (tlvs l.now) }
{
    some_tlv(l, |k, v| brings_label(kind, x, k, v))
}

// Whether some TLV brings a MAC.
pub fn some_mac(l: &[u8], m: u64) -> bool
    ensures { result ≡ any_of (brings_mac every_type m) (tlvs l.now) }
{
    some_tlv(l, |k, v| brings_mac(m, k, v))
}

// Whether some TLV gathers a MAC.
pub fn some_gathers(l: &[u8]) -> bool
    ensures { result ≡ any_of (gathers_mac every_type) (tlvs l.now) }
{
    some_tlv(l, gathers_mac)
}
