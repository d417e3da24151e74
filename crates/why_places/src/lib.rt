// What brought a nickname, a label and a MAC into the three sets of a flush: walks that answer the place of the first that brings it, and
// that it is meant is that there is such a place.
#![tactic(auto)]

ghost use Rattle.std.specs.Prelude.{◌+◌, ◌*◌, ◌<◌, ◌≤◌, Bool, true, false, ◌≡◌, eqb, length, drop};
ghost use Rattle.numbers.specs.Tests.{any_of};
ghost use Rattle.numbers.specs.Ranges.{first_vlan, last_vlan};
ghost use Rattle.numbers.specs.Bytes.{parts};
ghost use Rattle.numbers.specs.Numberings.{vlans, fines, macs, number_of, in_block, in_list};
ghost use Rattle.table.specs.Record.{label_from};
ghost use Rattle.flush.specs.Payload.{every_type, Piece, tlv, tlvs, block_bytes, pieces_of};
ghost use Rattle.flush.specs.Meaning.{vlan_in, fine_in, brings_label, brings_mac};
ghost use Rattle.flush_payload.specs.Judging.{mac_kind, of_kind};
ghost use Rattle.why.specs.Why.{nickname_is, listed};
ghost use Rattle.flush_members.specs.Sound.{numbering};
ghost use Rattle.why_places.specs.Reading.{LastByte, left_has, EmptyAt, Asks};
ghost use Rattle.why_places.specs.Found.{first_from, nickname_found, label_found, mac_found};

use flush_members::{FINES, MACS};
use numbers::{FIRST_VLAN, LAST_VLAN, Numbering};
use table::VLAN_KIND;
use why::{LabelMatch, MacMatch, NicknameMatch};

// The bytes of a listed nickname, and of a VLAN block.
const NICKNAME_BYTES: usize = 2;

const BLOCK_BYTES: usize = 4;

// The numbers that 12 bits write; reserved ones stand before them.
const VLANS: u64 = 0x1000;

// The types that document 01's table has.
const FIRST_TYPE: u8 = 1;

const LAST_TYPE: u8 = 8;

// ---- lists: a number is read whole only where its last byte is that of x

// Whether the last byte tells that the number at a place is not x.
fn apart_at(v: &[u8], at: usize, w: Numbering, x: u64) -> bool
    requires { LastByte w × (at + w.size ≤ length v.now) }
    ensures { result ≡ true → eqb (number_of w (drop at v.now)) x ≡ false }
{
    numbers::wide(v[at + (w.size - 1)]) != x % 0x100
}

// Whether the number at a place is x.
fn number_is(v: &[u8], at: usize, w: Numbering, x: u64) -> bool
    requires { LastByte w × (at + w.size ≤ length v.now) }
    ensures { result ≡ eqb (number_of w (drop at v.now)) x }
{
    if apart_at(v, at, w, x) {
        return false;
    }
    flush_members::number_at(v, at, w) == x
}

// The same for the four numbers from a place on.
fn four_apart(v: &[u8], at: usize, w: Numbering, x: u64) -> bool
    requires { LastByte w × (at + 4 * w.size ≤ length v.now) }
    ensures { result ≡ true → left_has w x v.now at ≡ left_has w x v.now (at + 4 * w.size) }
{
    let k = w.size;
    let a = apart_at(v, at, w, x);
    let b = apart_at(v, at + k, w, x);
    let c = apart_at(v, at + 2 * k, w, x);
    let d = apart_at(v, at + 3 * k, w, x);
    (a & b) & (c & d)
}

// Passes over numbers, four at a time, while none of the four can be x.
fn pass_apart(v: &[u8], from: usize, w: Numbering, x: u64) -> usize
    requires { LastByte w × (from ≤ length v.now) }
    ensures { ((from ≤ result) × (result ≤ length v.now)) × (left_has w x v.now from ≡ left_has w x v.now result) }
{
    let mut at = from;
    // A `while`: its answer is the offset where it stops, which chunks would have twice, for a stop and for the end.
    while 4 * w.size <= v.len() - at {
        if !four_apart(v, at, w, x) {
            return at;
        }
        at += 4 * w.size;
    }
    at
}

// Whether a list of numbers has x in it. The numbering comes as its four numbers, as in flush_members.
fn in_list(v: &[u8], size: usize, modulus: u64, low: u64, high: u64, x: u64) -> bool
    requires { LastByte (numbering size modulus low high) }
    ensures { result ≡ in_list (numbering size modulus low high) x v.now }
{
    let w = Numbering {
        size,
        modulus,
        low,
        high,
    };
    let mut at = pass_apart(v, 0, w, x);
    // A `while`: `pass_apart` says how far the next step goes.
    while size <= v.len() - at {
        if number_is(v, at, w, x) {
            return true;
        }
        at = pass_apart(v, at + size, w, x);
    }
    false
}

fn in_fines(v: &[u8], x: u64) -> bool
    ensures { result ≡ in_list fines x v.now }
{
    in_list(v, FINES.size, FINES.modulus, FINES.low, FINES.high, x)
}

fn in_macs(v: &[u8], x: u64) -> bool
    ensures { result ≡ in_list macs x v.now }
{
    in_list(v, MACS.size, MACS.modulus, MACS.low, MACS.high, x)
}

// ---- what one TLV says: the text of flush_tlvs, so that there it stays a part of the flush's loop

// Whether a TLV brings a VLAN: type 1 VLAN blocks, type 2 a VLAN bit map, type 6 all labels.
fn vlan_in(x: u64, k: u8, v: &[u8]) -> bool
    ensures { result ≡ vlan_in x k v.now }
{
    if k == 6 {
        return true;
    }
    if k == 1 {
        return flush_members::in_vlan_blocks(v, x);
    }
    if k == 2 {
        return flush_members::in_vlan_map(v, x);
    }
    false
}

// Whether a TLV brings a fine-grained label: type 3 blocks, type 4 labels, type 5 a bit map, type 6 all labels.
fn fine_in(x: u64, k: u8, v: &[u8]) -> bool
    ensures { result ≡ fine_in x k v.now }
{
    if k == 6 {
        return true;
    }
    if k == 3 {
        return flush_members::in_fine_blocks(v, x);
    }
    if k == 4 {
        return in_fines(v, x);
    }
    if k == 5 {
        return flush_members::in_fine_map(v, x);
    }
    false
}

// Whether a TLV brings a label, which is given by its kind and its number.
fn brings_label(kind: u64, x: u64, k: u8, v: &[u8]) -> bool
    ensures { result ≡ brings_label every_type (label_from kind x) (tlv k v.now) }
{
    if kind == 0 {
        return vlan_in(x, k, v);
    }
    fine_in(x, k, v)
}

// Whether a TLV brings a MAC: type 7 MACs, type 8 MAC blocks.
fn brings_mac(m: u64, k: u8, v: &[u8]) -> bool
    ensures { result ≡ brings_mac every_type m (tlv k v.now) }
{
    if k == 7 {
        return in_macs(v, m);
    }
    if k == 8 {
        return flush_members::in_mac_blocks(v, m);
    }
    false
}

// ---- the walks

// The first listed nickname that is x.
fn listed_place(nicks: &[u8], x: u64) -> Option<usize>
    ensures { result ≡ first_from (nickname_is x) 0 (listed nicks.now) }
{
    let mut parts = nicks.chunks_exact(NICKNAME_BYTES);
    match parts.position(|n| flush_members::in_nicknames(n, x)) {
        Some(i) => Some(i),
        None => None,
    }
}

// Whether x, a VLAN that there is, is in a block.
fn block_has(b: &[u8], x: u64) -> bool
    requires { (block_bytes ≤ length b.now) × ((first_vlan ≤ x) × (x ≤ last_vlan)) }
    ensures { result ≡ in_block vlans x b.now }
{
    let start = numbers::be2(b, 0);
    let end = numbers::be2(b, 2);
    (start % VLANS <= x) & (x <= end % VLANS)
}

// The first VLAN block that has VLAN x in it.
fn block_place(v: &[u8], x: u64) -> Option<usize>
    ensures { result ≡ first_from (in_block vlans x) 0 (parts block_bytes v.now) }
{
    if x < FIRST_VLAN {
        return None;
    }
    if LAST_VLAN < x {
        return None;
    }
    let mut blocks = v.chunks_exact(BLOCK_BYTES);
    match blocks.position(|b| block_has(b, x)) {
        Some(i) => Some(i),
        None => None,
    }
}

// Whether an empty TLV of a type without a rule is next: it brings nothing, and the next one lies two bytes on.
fn empty_at(l: &[u8], at: usize) -> bool
    requires { at < length l.now }
    ensures { EmptyAt l.now at result }
{
    if l.len() - at < 2 {
        return false;
    }
    if l[at + 1] != 0 {
        return false;
    }
    let k = l[at];
    !((FIRST_TYPE <= k) & (k <= LAST_TYPE))
}

// The first TLV that brings what is sought: of these `brings` says so at the type and the value.
fn tlv_place<F: Fn(u8, &[u8]) -> bool>(l: &[u8], brings: F) -> Option<usize>
    requires { F.IsAlwaysCallable brings }
    ensures { (ask : Piece → Bool) → Asks F.Fn brings ask → result ≡ first_from ask 0 (tlvs l.now) }
{
    let mut at = 0;
    let mut tlv = 0;
    // A `while`: the step is the length of the TLV.
    while at < l.len() {
        if empty_at(l, at) {
            at += 2;
            tlv += 1;
            continue;
        }
        let e = flush_tlvs::end_of(l, at);
        if l.len() < e {
            return None;
        }
        let s = at + 2;
        if brings(l[at], &l[s..e]) {
            return Some(tlv);
        }
        at = e;
        tlv += 1;
    }
    None
}

// The first TLV that brings a label, which is given by its kind and its number.
fn label_place(l: &[u8], kind: u64, x: u64) -> Option<usize>
    ensures { result ≡ first_from (brings_label every_type (label_from kind x)) 0 (tlvs l.now) }
{
    tlv_place(l, |k, v| brings_label(kind, x, k, v))
}

// The first TLV that brings a MAC.
fn mac_place(l: &[u8], m: u64) -> Option<usize>
    ensures { result ≡ first_from (brings_mac every_type m) 0 (tlvs l.now) }
{
    tlv_place(l, |k, v| brings_mac(m, k, v))
}

// The nickname: without a list only the sender is meant, otherwise the listed ones. A payload lists at most 255.
pub fn nickname_found(nicks: &[u8], ingress: u32, x: u64) -> Option<NicknameMatch>
    requires { length nicks.now < 512 }
    ensures { result ≡ nickname_found ingress nicks.now x }
{
    if nicks.len() == 0 {
        if x == ingress as u64 {
            return Some(NicknameMatch::Sender);
        }
        return None;
    }
    let Some(i) = listed_place(nicks, x) else {
        return None;
    };
    let k = i as u8;
    Some(NicknameMatch::Listed(k))
}

// The label: some VLAN block brings it, which names VLANs only, or some TLV.
pub fn label_found(rest: &[u8], blocks: usize, kind: u64, x: u64) -> Option<LabelMatch>
    requires { block_bytes * blocks ≤ length rest.now }
    ensures { result ≡ label_found blocks (pieces_of blocks rest.now) (label_from kind x) }
{
    if blocks == 0 {
        let Some(i) = label_place(rest, kind, x) else {
            return None;
        };
        return Some(LabelMatch::Tlv(i));
    }
    if kind != VLAN_KIND {
        return None;
    }
    let e = BLOCK_BYTES * blocks;
    let Some(i) = block_place(&rest[..e], x) else {
        return None;
    };
    Some(LabelMatch::Block(i))
}

// The MAC: every MAC is meant where none was gathered, otherwise those that some TLV brings. They are looked for only where TLVs of MACs
// were noted.
pub fn mac_found(rest: &[u8], blocks: usize, noted: bool, m: u64) -> Option<MacMatch>
    requires { noted ≡ any_of (of_kind every_type mac_kind) (pieces_of blocks rest.now) }
    ensures { result ≡ mac_found (pieces_of blocks rest.now) m }
{
    if !noted {
        return Some(MacMatch::Every);
    }
    if !flush_payload::some_mac(rest, blocks) {
        return Some(MacMatch::Every);
    }
    let Some(i) = mac_place(rest, m) else {
        return None;
    };
    Some(MacMatch::Tlv(i))
}
