// The sections of a contents area written from a payload. The two types that a TLV holds are written in one pass, each at a pen of its
// own: a loop over the TLVs, and one over the sub-TLVs of each.
#![tactic(auto)]

ghost use Rattle.std.specs.Prelude.{◌+◌, ◌≤◌, true, ◌≡◌, eqb, length};
ghost use mathlib.Core.List.{flat_map};
ghost use Rattle.numbers.specs.Tests.{both};
ghost use Rattle.numbers.specs.After.{on_area};
ghost use Rattle.frame_copy.specs.Areas.{pasted};
ghost use Rattle.hello.specs.Tlvs.{tlv, tlvs};
ghost use Rattle.hello.specs.Reading.{items};
ghost use Rattle.hello_count.specs.Sections.{brought, holder_for, body_at, sub_numbers};
ghost use Rattle.hello_fill.specs.Filling.{sub_words, tlv_words, section_words, put_two, filling, Room, is_read, Beside};

use hello_judge::{CAPABILITY, GENINFO, NICKNAME, PARAMETERS, SMART_MAC, TREES};

// Where the next sub-TLV of each of two types goes.
#[derive(Clone, Copy)]
pub struct Pens {
    pub first: usize,
    pub second: usize,
}

// How many numbers a sub-TLV of a type brings; 0 where the type does not allow its length.
fn numbers_of<const KIND: u8>(v: &[u8]) -> usize
    requires { is_read KIND ≡ true }
    ensures { result ≡ length (sub_numbers KIND (tlv KIND v.now)) }
{
    match KIND {
        PARAMETERS => hello_count::parameters_numbers(v),
        NICKNAME => hello_count::nickname_numbers(v),
        TREES => hello_count::trees_numbers(v),
        _ => hello_count::smart_mac_numbers(v),
    }
}

// Puts them.
fn put_words<const KIND: u8>(v: &[u8], out: &mut [u8], at: usize)
    requires kind { is_read KIND ≡ true }
    requires some { length (sub_numbers KIND (tlv KIND v.now)) ≡ 0 → ⊥ }
    requires room { at + length (sub_words KIND (tlv KIND v.now)) ≤ length out.old }
    ensures { out.new ≡ pasted out.old at (sub_words KIND (tlv KIND v.now)) }
{
    match KIND {
        PARAMETERS => hello_words::put_parameters(v, out, at),
        NICKNAME => hello_words::put_nicknames(v, out, at),
        TREES => hello_words::put_trees(v, out, at),
        _ => hello_words::put_smart_mac(v, out, at),
    }
}

// A sub-TLV of a type, if the type allows its length; where the next goes.
fn put_sub<const KIND: u8>(v: &[u8], out: &mut [u8], at: usize) -> usize
    requires kind { is_read KIND ≡ true }
    requires room { at + length (sub_words KIND (tlv KIND v.now)) ≤ length out.old }
    ensures { (out.new ≡ pasted out.old at (sub_words KIND (tlv KIND v.now))) × (result ≡ at + length (sub_words KIND (tlv KIND v.now))) }
{
    let n = numbers_of::<KIND>(v);
    if n == 0 {
        return at;
    }
    put_words::<KIND>(v, out, at);
    at + 8 * n
}

// A sub-TLV of a TLV that holds two types: one goes to the first pen, the other to the second.
fn fill_sub<const FIRST: u8, const SECOND: u8>(j: u8, v: &[u8], out: &mut [u8], p: Pens) -> Pens
    requires types { Beside FIRST SECOND }
    requires room { Room (sub_words FIRST (tlv j v.now)) (sub_words SECOND (tlv j v.now)) p (length out.old) }
    ensures { on_area result out.new ≡ filling (sub_words FIRST) (sub_words SECOND) (on_area p out.old) (tlv j v.now) }
{
    if j == FIRST {
        let a = put_sub::<FIRST>(v, out, p.first);
        return Pens { first: a, ..p };
    }
    if j == SECOND {
        let b = put_sub::<SECOND>(v, out, p.second);
        return Pens { second: b, ..p };
    }
    p
}

// All of them. A `while`, as for the TLVs below: the step is the length of a TLV.
fn fill_subs<const FIRST: u8, const SECOND: u8>(l: &[u8], out: &mut [u8], start: Pens) -> Pens
    requires types { Beside FIRST SECOND }
    requires room { Room (flat_map (sub_words FIRST) (tlvs l.now)) (flat_map (sub_words SECOND) (tlvs l.now)) start (length out.old) }
    ensures { on_area result out.new ≡ put_two (flat_map (sub_words FIRST) (tlvs l.now)) (flat_map (sub_words SECOND) (tlvs l.now)) (on_area start out.old) }
{
    let mut at = 0;
    let mut p = start;
    while at < l.len() {
        let e = hello_judge::end_of(l, at);
        if l.len() < e {
            return p;
        }
        let s = at + 2;
        p = fill_sub::<FIRST, SECOND>(l[at], &l[s..e], out, p);
        at = e;
    }
    p
}

// Where the sub-TLVs of a TLV start.
fn body_at<const HOLDER: u8>(v: &[u8]) -> usize
    ensures { (result ≡ body_at HOLDER v.now) × (result ≤ length v.now) }
{
    if HOLDER == CAPABILITY {
        return hello_count::capability_at(v);
    }
    hello_count::geninfo_at(v)
}

// A TLV of the type h, if it is of the type that holds the two.
fn fill_tlv<const HOLDER: u8, const FIRST: u8, const SECOND: u8>(
    h: u8,
    v: &[u8],
    out: &mut [u8],
    p: Pens,
) -> Pens
    requires types { Beside FIRST SECOND × (HOLDER ≡ holder_for FIRST) }
    requires room { Room (tlv_words FIRST (tlv h v.now)) (tlv_words SECOND (tlv h v.now)) p (length out.old) }
    ensures { on_area result out.new ≡ filling (tlv_words FIRST) (tlv_words SECOND) (on_area p out.old) (tlv h v.now) }
{
    if h != HOLDER {
        return p;
    }
    let s = body_at::<HOLDER>(v);
    fill_subs::<FIRST, SECOND>(&v[s..], out, p)
}

// The TLVs of a payload.
fn fill_tlvs<const HOLDER: u8, const FIRST: u8, const SECOND: u8>(
    l: &[u8],
    out: &mut [u8],
    start: Pens,
) -> Pens
    requires types { Beside FIRST SECOND × (HOLDER ≡ holder_for FIRST) }
    requires room { Room (flat_map (tlv_words FIRST) (tlvs l.now)) (flat_map (tlv_words SECOND) (tlvs l.now)) start (length out.old) }
    ensures { on_area result out.new ≡ put_two (flat_map (tlv_words FIRST) (tlvs l.now)) (flat_map (tlv_words SECOND) (tlvs l.now)) (on_area start out.old) }
{
    let mut at = hello_judge::past_empty(l, 0);
    let mut p = start;
    while at < l.len() {
        let e = hello_judge::end_of(l, at);
        if l.len() < e {
            return p;
        }
        let s = at + 2;
        p = fill_tlv::<HOLDER, FIRST, SECOND>(l[at], &l[s..e], out, p);
        at = hello_judge::past_empty(l, e);
    }
    p
}

fn both_zero(n: usize, t: usize) -> bool
    ensures { result ≡ both (eqb n 0) (eqb t 0) }
{
    if n != 0 {
        return false;
    }
    t == 0
}

// Two sections: how many sub-TLVs of a type there are, and the numbers of each. Where there are none, the pass is left out.
fn sections<const HOLDER: u8, const FIRST: u8, const SECOND: u8>(
    l: &[u8],
    n: usize,
    t: usize,
    out: &mut [u8],
    a: usize,
    b: usize,
)
    requires types { Beside FIRST SECOND × (HOLDER ≡ holder_for FIRST) }
    requires counts { (n ≡ length (flat_map (brought FIRST) (items l.now))) × (t ≡ length (flat_map (brought SECOND) (items l.now))) }
    requires room { (a + length (section_words FIRST (items l.now)) ≤ b) × (b + length (section_words SECOND (items l.now)) ≤ length out.old) }
    ensures { out.new ≡ pasted (pasted out.old a (section_words FIRST (items l.now))) b (section_words SECOND (items l.now)) }
{
    hello_words::put_word(n as u64, out, a);
    hello_words::put_word(t as u64, out, b);
    if both_zero(n, t) {
        return;
    }
    let start = Pens {
        first: a + 8,
        second: b + 8,
    };
    fill_tlvs::<HOLDER, FIRST, SECOND>(l, out, start);
}

// Those of nicknames and trees, and those of Smart-Parameters and Smart-MACs.
pub fn capability_sections(l: &[u8], n: usize, t: usize, out: &mut [u8], a: usize, b: usize)
    requires { ((n ≡ length (flat_map (brought 6) (items l.now))) × (t ≡ length (flat_map (brought 8) (items l.now)))) × ((a + length (section_words 6 (items l.now)) ≤ b) × (b + length (section_words 8 (items l.now)) ≤ length out.old)) }
    ensures { out.new ≡ pasted (pasted out.old a (section_words 6 (items l.now))) b (section_words 8 (items l.now)) }
{
    sections::<CAPABILITY, NICKNAME, TREES>(l, n, t, out, a, b);
}

pub fn geninfo_sections(l: &[u8], p: usize, m: usize, out: &mut [u8], a: usize, b: usize)
    requires { ((p ≡ length (flat_map (brought 22) (items l.now))) × (m ≡ length (flat_map (brought 23) (items l.now)))) × ((a + length (section_words 22 (items l.now)) ≤ b) × (b + length (section_words 23 (items l.now)) ≤ length out.old)) }
    ensures { out.new ≡ pasted (pasted out.old a (section_words 22 (items l.now))) b (section_words 23 (items l.now)) }
{
    sections::<GENINFO, PARAMETERS, SMART_MAC>(l, p, m, out, a, b);
}
