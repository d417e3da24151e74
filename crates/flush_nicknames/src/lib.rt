// The first pass of a flush over the slots of a range: those are marked that are learned, whose nickname is meant, and whose label is a
// VLAN that is meant, or a fine-grained label that may be: it has a bit in the filter bits of the message.
#![tactic(auto)]

ghost use Rattle.std.specs.Prelude.{ℕ, ◌+◌, ◌-◌, ◌*◌, ◌/◌, ◌^◌, ◌<◌, ◌≤◌, Bool, true, false, List, [], ◌≡◌, eqb, length, drop};
ghost use Rattle.numbers.specs.Numberings.{bit_at};
ghost use Rattle.table.specs.Record.{record_bytes};
ghost use Rattle.table.specs.Slots.{slot_bytes, slots_of, most_slots};
ghost use Rattle.flush.specs.Payload.{block_bytes, pieces_of, tlvs};
ghost use Rattle.flush.specs.Meaning.{nickname_meant};
ghost use Rattle.flush_sets.specs.Gains.{Gains, in_nicknames};
ghost use Rattle.flush_vlans.specs.Vlans.{vlan_bytes, VlansNoted};
ghost use Rattle.flush_bits.specs.Ranged.{Ranged};
ghost use Rattle.flush_buckets.specs.Buckets.{bucket_bytes, HasBits};
ghost use Rattle.flush_parts.specs.Named.{fine_naming, named_of};
ghost use Rattle.flush_marks.specs.Marks.{mark_bytes, Chosen};
ghost use Rattle.flush_marks.specs.Filters.{Marking};
ghost use Rattle.flush_nicknames.specs.First.{name_bytes, round_slots, NoneOfRound, NicknamesAre, EveryMeant, near_bit, may_pass, label_part, fine_noted, slot_marked, slot_names, Scanning, FirstNamed, FirstPass};

use flush_buckets::BUCKET_BYTES;
use flush_payload::Kinds;
use flush_vlans::VLAN_BYTES;
use table::SLOT_BYTES;

// A bit for each nickname.
const NAME_BYTES: usize = 8192;

// For so many slots filter bits of the message are not made: they would take longer than to look up its parts.
const FEW_SLOTS: usize = 64;

// The nickname that a flush means alone, or none where a list names several. Without a list only the ingress nickname is meant.
fn nicknames_of(nicks: &[u8], ingress: u32) -> Option<u64>
    ensures { NicknamesAre ingress nicks.now result }
{
    if nicks.len() == 0 {
        return Some(ingress as u64);
    }
    if nicks.len() == 2 {
        return Some(numbers::be2(nicks, 0));
    }
    None
}

// Adds the nicknames of a list to a set.
fn add_nicknames(nicks: &[u8], s: &mut [u8])
    requires { length s.old ≡ name_bytes }
    ensures { Gains s.old s.new (in_nicknames nicks.now) }
{
    for i in 0..nicks.len() / 2 {
        let x = numbers::be2(nicks, 2 * i);
        flush_bits::add_one(s, x as usize);
    }
}

// A test of nicknames. One byte of a slot decides most slots, so it is tested first.
trait NameTest: Copy {
    ghost names: { Self → ℕ → Bool };

    // Whether one byte of the slot at an offset decides that it has no such nickname, learned or not.
    fn rules_out(self, t: &[u8], at: usize) -> bool
        requires { at + record_bytes ≤ length t.now }
        ensures { result ≡ true → slot_names (names self) (drop at t.now) ≡ false };

    fn has(self, x: u64) -> bool
        requires { x < 2 ^ 16 }
        ensures { result ≡ names self x };
}

// One nickname.
#[derive(Clone, Copy)]
struct Single {
    one: u64,
}

impl NameTest for Single {
    ghost names = { λ s x. eqb x s.one };

    fn rules_out(self, t: &[u8], at: usize) -> bool {
        table_fields::nickname_middle_at(t, at) != self.one / 8 % 0x100
    }

    fn has(self, x: u64) -> bool {
        x == self.one
    }
}

// A set of nicknames: a byte of the set decides.
#[derive(Clone, Copy)]
struct Listed<'a> {
    names: &'a [u8],
    ghost long: { length names.now ≡ name_bytes },
}

impl NameTest for Listed<'_> {
    ghost names = { λ s x. bit_at x s.names.now };

    fn rules_out(self, t: &[u8], at: usize) -> bool {
        flush_bits::none_at(self.names, table_fields::nickname_high_at(t, at))
    }

    fn has(self, x: u64) -> bool {
        flush_bits::has(self.names, x)
    }
}

// Whether the slot at an offset has such a nickname, learned or not.
fn has_nickname<N: NameTest>(t: &[u8], at: usize, n: N) -> bool
    requires { at + record_bytes ≤ length t.now }
    ensures { result ≡ slot_names (N.names n) (drop at t.now) }
{
    if n.rules_out(t, at) {
        return false;
    }
    n.has(table_fields::nickname_at(t, at))
}

// The first slot from slot `from` on, and before slot e, that has such a nickname; e where none has.
fn first_named<N: NameTest>(t: &[u8], from: usize, e: usize, n: N) -> usize
    requires { Scanning from e t.now }
    ensures { FirstNamed (N.names n) t.now from e result }
{
    for k in from..e {
        if has_nickname(t, SLOT_BYTES * k, n) {
            return k;
        }
    }
    e
}

// The slots of a round.
const ROUND: usize = 4;

// Whether one byte each decides that no slot of a round, slot k and those after it, has such a nickname. There is no branch between them.
fn none_of_round<N: NameTest>(t: &[u8], k: usize, n: N) -> bool
    requires { k + round_slots ≤ slots_of t.now }
    ensures { result ≡ true → NoneOfRound (N.names n) t.now k }
{
    let a = n.rules_out(t, SLOT_BYTES * k);
    let b = n.rules_out(t, SLOT_BYTES * (k + 1));
    let c = n.rules_out(t, SLOT_BYTES * (k + 2));
    let d = n.rules_out(t, SLOT_BYTES * (k + 3));
    (a & b) & (c & d)
}

// The first slot of the first round, from slot `from` on, that may have such a nickname; or the slot after the last round.
fn first_round<N: NameTest>(t: &[u8], from: usize, e: usize, n: N) -> usize
    requires { Scanning from e t.now }
    ensures { FirstNamed (N.names n) t.now from e result }
{
    let rounds = (e - from) / ROUND;
    for r in 0..rounds {
        let k = from + ROUND * r;
        if !none_of_round(t, k, n) {
            return k;
        }
    }
    from + ROUND * rounds
}

// The same as `first_named`, by rounds, and then slot by slot: for a set.
fn first_by_rounds<N: NameTest>(t: &[u8], from: usize, e: usize, n: N) -> usize
    requires { Scanning from e t.now }
    ensures { FirstNamed (N.names n) t.now from e result }
{
    let k = first_round(t, from, e, n);
    first_named(t, k, e, n)
}

// Whether a fine-grained label may be meant: where there are filter bits its bit is set.
fn may_be_meant(near: &[u8], x: u64) -> bool
    ensures { result ≡ near_bit near.now x }
{
    if near.len() != BUCKET_BYTES {
        return false;
    }
    flush_buckets::has_bit(near, x)
}

// A test of the label of the slot at an offset: a VLAN by a set, a fine-grained label by a test.
trait LabelTest: Copy {
    ghost vlans: { Self → List ℕ };

    ghost fines: { Self → ℕ → Bool };

    fn passes(self, t: &[u8], at: usize) -> bool
        requires { at + record_bytes ≤ length t.now }
        ensures { result ≡ label_part (vlans self) (fines self) (drop at t.now) };
}

// A fine-grained label by filter bits. Twelve bits of a VLAN are enough: a record with a higher one is spoilt. Both kinds take the same way,
// since which kind comes next cannot be foreseen.
#[derive(Clone, Copy)]
struct AnyKind<'a> {
    vlans: &'a [u8],
    near: &'a [u8],
    ghost long: { length vlans.now ≡ vlan_bytes },
}

impl LabelTest for AnyKind<'_> {
    ghost vlans = { λ s. s.vlans.now };

    ghost fines = { λ s. may_pass false s.near.now };

    fn passes(self, t: &[u8], at: usize) -> bool {
        let vlan = table_fields::kind_at(t, at) == 0;
        let x = table_fields::label_at(t, at);
        let meant = flush_bits::has(self.vlans, x % 0x1000);
        let maybe = may_be_meant(self.near, x);
        (vlan & meant) | (!vlan & maybe)
    }
}

// Where no fine-grained label is named: every label is meant, and none is read, or VLANs alone are.
#[derive(Clone, Copy)]
struct VlansAlone<'a> {
    vlans: &'a [u8],
    every: bool,
    ghost meant: { EveryMeant every vlans.now },
}

impl LabelTest for VlansAlone<'_> {
    ghost vlans = { λ s. s.vlans.now };

    ghost fines = { λ s x. s.every };

    fn passes(self, t: &[u8], at: usize) -> bool {
        if self.every {
            return true;
        }
        let vlan = table_fields::kind_at(t, at) == 0;
        let x = table_fields::label_at(t, at);
        let meant = flush_bits::has(self.vlans, x % 0x1000);
        vlan & meant
    }
}

// Where fine-grained labels alone are named. A set of VLANs, which would be empty, is not read.
#[derive(Clone, Copy)]
struct FinesAlone<'a> {
    near: &'a [u8],
}

impl LabelTest for FinesAlone<'_> {
    ghost vlans = { λ s. [] };

    ghost fines = { λ s. may_pass false s.near.now };

    fn passes(self, t: &[u8], at: usize) -> bool {
        let fine = table_fields::kind_at(t, at) != 0;
        let maybe = may_be_meant(self.near, table_fields::label_at(t, at));
        fine & maybe
    }
}

// Whether the slot at an offset is to be marked. One byte of the nickname decides most slots, and then the label.
fn marked_at<N: NameTest, L: LabelTest>(t: &[u8], at: usize, n: N, l: L) -> bool
    requires { at + slot_bytes ≤ length t.now }
    ensures { result ≡ slot_marked (N.names n) (L.vlans l) (L.fines l) (drop at t.now) }
{
    if n.rules_out(t, at) {
        return false;
    }
    if !l.passes(t, at) {
        return false;
    }
    if !n.has(table_fields::nickname_at(t, at)) {
        return false;
    }
    table_states::learned_at(t, at)
}

// A byte with bit i alone.
fn one_bit(i: usize) -> u8
    requires { i < 8 }
    ensures { result ≡ 128 / 2 ^ i }
{
    (128u64 >> i) as u8
}

// Marks a slot.
fn add_mark(marks: &mut [u8], k: usize)
    requires { (length marks.old ≡ mark_bytes) × (k < most_slots) }
    ensures { Ranged marks.old marks.new k (k + 1) }
{
    flush_bits::add_byte(marks, k / 8, one_bit(k % 8));
}

// Marks the slots from slot `from` on, and before slot e, that pass both tests. Answers where the pass ended.
fn mark_from<N: NameTest, L: LabelTest>(
    table: &[u8],
    from: usize,
    e: usize,
    n: N,
    l: L,
    marks: &mut [u8],
) -> usize
    requires { (from ≤ e) × Marking from (e - from) table.now marks.old }
    ensures { (result ≡ e) × Chosen (slot_marked (N.names n) (L.vlans l) (L.fines l)) from (e - from) table.now marks.new }
{
    let mut end = from;
    for k in from..e {
        end += 1;
        if marked_at(table, SLOT_BYTES * k, n, l) {
            add_mark(marks, k);
        }
    }
    end
}

// Filter bits of the fine-grained labels that the message names.
fn add_fine(rest: &[u8], count: usize, near: &mut [u8])
    requires { length near.old ≡ bucket_bytes }
    ensures { HasBits (named_of fine_naming (tlvs rest.now)) near.new }
{
    flush_named::add_where(rest, flush_parts::fine_naming(), FEW_SLOTS < count, near);
}

// The pass from slot k on, which may be the first that has a nickname that is meant. Where no slot is left nothing is prepared. ALONE says
// whether fine-grained labels alone take a form of their own: with a list of nicknames the form for both kinds, without a branch, is faster.
fn mark_found<N: NameTest, const ALONE: bool>(
    n: N,
    rest: &[u8],
    f: Kinds,
    table: &[u8],
    k: usize,
    e: usize,
    count: usize,
    marks: &mut [u8],
) -> usize
    requires { ((k ≤ e) × Marking k (e - k) table.now marks.old) × ((block_bytes * f.blocks ≤ length rest.now) × VlansNoted (pieces_of f.blocks rest.now) f) }
    ensures { (result ≡ e) × FirstPass (N.names n) (pieces_of f.blocks rest.now) (fine_noted f) k (e - k) table.now marks.new }
{
    if e <= k {
        return k;
    }
    let mut vlans = [0u8; VLAN_BYTES];
    flush_vlans::vlan_set(rest, f, &mut vlans);
    if !f.every & (f.lists | f.maps) {
        let mut near = [0u8; BUCKET_BYTES];
        add_fine(rest, count, &mut near);
        if ALONE & ((f.blocks == 0) & !f.vlans) {
            return mark_from(table, k, e, n, FinesAlone { near: &near }, marks);
        }
        let l = AnyKind {
            vlans: &vlans,
            near: &near,
        };
        return mark_from(table, k, e, n, l, marks);
    }
    let l = VlansAlone {
        vlans: &vlans,
        every: f.every,
    };
    mark_from(table, k, e, n, l, marks)
}

// Marks the slots of a range, by one nickname, and answers where the pass over them ended: the slots before the first that has it are examined
// by the search, the others by marking.
fn mark_one(
    one: u64,
    rest: &[u8],
    f: Kinds,
    table: &[u8],
    from: usize,
    count: usize,
    marks: &mut [u8],
) -> usize
    requires { Marking from count table.now marks.old × ((block_bytes * f.blocks ≤ length rest.now) × VlansNoted (pieces_of f.blocks rest.now) f) }
    ensures { (result ≡ from + count) × FirstPass (λ x. eqb x one) (pieces_of f.blocks rest.now) (fine_noted f) from count table.now marks.new }
{
    let e = from + count;
    let n = Single { one };
    let k = first_named(table, from, e, n);
    mark_found::<Single, true>(n, rest, f, table, k, e, count, marks)
}

// The same, by a list of nicknames.
fn mark_several(
    nicks: &[u8],
    rest: &[u8],
    f: Kinds,
    table: &[u8],
    from: usize,
    count: usize,
    marks: &mut [u8],
) -> usize
    requires { Marking from count table.now marks.old × ((block_bytes * f.blocks ≤ length rest.now) × VlansNoted (pieces_of f.blocks rest.now) f) }
    ensures { (result ≡ from + count) × FirstPass (in_nicknames nicks.now) (pieces_of f.blocks rest.now) (fine_noted f) from count table.now marks.new }
{
    let mut names = [0u8; NAME_BYTES];
    add_nicknames(nicks, &mut names);
    let e = from + count;
    let n = Listed { names: &names };
    let k = first_by_rounds(table, from, e, n);
    mark_found::<Listed, false>(n, rest, f, table, k, e, count, marks)
}

// Marks the slots of a range by nickname, state and kind of label, and answers how many it examined. A set of nicknames is made only where there is not one alone.
pub fn mark(
    ingress: u32,
    nicks: &[u8],
    rest: &[u8],
    f: Kinds,
    table: &[u8],
    from: usize,
    count: usize,
    marks: &mut [u8],
) -> usize
    requires { Marking from count table.now marks.old × ((block_bytes * f.blocks ≤ length rest.now) × VlansNoted (pieces_of f.blocks rest.now) f) }
    ensures { (result ≡ count) × FirstPass (nickname_meant ingress nicks.now) (pieces_of f.blocks rest.now) (fine_noted f) from count table.now marks.new }
{
    match nicknames_of(nicks, ingress) {
        Some(one) => mark_one(one, rest, f, table, from, count, marks) - from,
        None => mark_several(nicks, rest, f, table, from, count, marks) - from,
    }
}
