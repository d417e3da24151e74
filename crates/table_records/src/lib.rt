// A record whole: reading what it holds, writing an entry, freeing a slot.
#![tactic(auto)]

ghost use Rattle.std.specs.Prelude.{◌+◌, ◌≤◌, ◌≡◌, true, false, length, drop};
ghost use Rattle.table.specs.Record.{record_bytes, record_of, with_mark, marked_slot, mark_number, state_of, learned_state, entry_of, entry_good, slot_of, unpacked, kind_number, label_number, packed, record_number, is_free};
ghost use Rattle.table.specs.Slots.{slot_bytes, freed, table_good};
ghost use Rattle.table_records.specs.RecordBits.{number_of, BitsFit, HasNumber};
ghost use Rattle.table_records.specs.Entries.{IsHeld, Fits};
ghost use Rattle.table.specs.declared.Slot.TheVariants.{Spoilt};
ghost use Rattle.numbers.specs.Bytes.{bytes_of};
ghost use Rattle.numbers.specs.Tests.{pick};

use table::{
    CONFIGURED_STATE, Entry, FINE_KIND, LEARNED_STATE, Label, MOST_BYTES, RECORD_BYTES, SLOT_BYTES,
    Slot, VLAN_KIND,
};
use table_fields::layout;

// The byte of the mark of a multihomed record.
const MULTIHOMED_MARK: u8 = 0x80;

// A record's number in two parts: that of its first eight bytes and that of its last six.
#[derive(Clone, Copy)]
pub struct RecordBits {
    pub high: u64,
    pub low: u64,
}

// The record at an offset of the table.
fn bits_at(t: &[u8], at: usize) -> RecordBits
    requires { at + record_bytes ≤ length t.now }
    ensures { HasNumber (record_of (drop at t.now)) result }
{
    RecordBits {
        high: numbers::be8(t, at),
        low: numbers::be6(t, at + layout::TAIL_OFFSET),
    }
}

// Free is all zero.
fn is_free(b: RecordBits) -> bool
    ensures { result ≡ is_free (slot_of (number_of b)) }
{
    (b.high == 0) & (b.low == 0)
}

// Label, MAC and nickname are such as a good record has.
fn entry_good(b: RecordBits) -> bool
    requires { BitsFit b }
    ensures { result ≡ entry_good (entry_of (number_of b)) }
{
    let fine = b.high / layout::HEAD_KIND % layout::KINDS == FINE_KIND;
    let vlan = numbers::vlan_good(b.high / layout::HEAD_LABEL % layout::LABELS);
    let individual = b.high / layout::HEAD_GROUP % 2 == 0;
    let nickname = numbers::nickname_good(b.low / layout::TAIL_NICKNAME % layout::NICKNAMES);
    (fine | vlan) & (individual & nickname)
}

// The state: 0 free, 1 learned, 2 configured.
fn state_of(b: RecordBits) -> u64
    requires { BitsFit b }
    ensures { result ≡ state_of (number_of b) }
{
    b.high / layout::HEAD_STATE
}

fn label_of(b: RecordBits) -> Label
    requires { BitsFit b × (entry_good (entry_of (number_of b)) ≡ true) }
    ensures { result ≡ (entry_of (number_of b)).label }
{
    let x = b.high / layout::HEAD_LABEL % layout::LABELS;
    if b.high / layout::HEAD_KIND % layout::KINDS == VLAN_KIND {
        Label::Vlan(x as u16)
    } else {
        Label::Fine(x as u32)
    }
}

// The entry in the fields of a good record, without its mark.
fn entry_of(b: RecordBits) -> Entry
    requires { BitsFit b × (entry_good (entry_of (number_of b)) ≡ true) }
    ensures { result ≡ entry_of (number_of b) }
{
    Entry {
        label: label_of(b),
        mac: b.high % layout::HEAD_LABEL * layout::TAIL_MACS + b.low / layout::TAIL_MAC,
        nickname: (b.low / layout::TAIL_NICKNAME % layout::NICKNAMES) as u16,
        confidence: (b.low / layout::TAIL_CONFIDENCE % layout::CONFIDENCES) as u8,
        seconds: (b.low % layout::SECONDS) as u16,
        multihomed: false,
    }
}

// What a record that is not free holds: learned or configured, where the entry is good and the state one of these; else spoilt.
fn held_or_spoilt(b: RecordBits) -> Slot
    requires { BitsFit b × (is_free (slot_of (number_of b)) ≡ false) }
    ensures { result ≡ slot_of (number_of b) }
{
    if !entry_good(b) {
        return Slot::Spoilt;
    }
    let state = state_of(b);
    if state == LEARNED_STATE {
        return Slot::Learned(entry_of(b));
    }
    if state == CONFIGURED_STATE {
        return Slot::Configured(entry_of(b));
    }
    Slot::Spoilt
}

// What the fields of the record at an offset of the table hold.
fn fields_at(t: &[u8], at: usize) -> Slot
    requires { at + record_bytes ≤ length t.now }
    ensures { result ≡ slot_of (record_of (drop at t.now)) }
{
    let b = bits_at(t, at);
    if is_free(b) {
        return Slot::Free;
    }
    held_or_spoilt(b)
}

// The same of fields that are known to be learned or configured: only the state is tested.
fn held_at(t: &[u8], at: usize) -> Slot
    requires { (at + record_bytes ≤ length t.now) × IsHeld (record_of (drop at t.now)) }
    ensures { result ≡ slot_of (record_of (drop at t.now)) }
{
    let b = bits_at(t, at);
    if state_of(b) == LEARNED_STATE {
        return Slot::Learned(entry_of(b));
    }
    Slot::Configured(entry_of(b))
}

// An entry with this mark.
fn with_mark(e: Entry, mark: bool) -> Entry
    ensures { result ≡ with_mark mark e }
{
    let l = e.label;
    Entry {
        label: l,
        mac: e.mac,
        nickname: e.nickname,
        confidence: e.confidence,
        seconds: e.seconds,
        multihomed: mark,
    }
}

// What is made where a test passes, else spoilt.
fn else_spoilt(good: bool, s: Slot) -> Slot
    ensures { result ≡ pick good s Spoilt }
{
    if good {
        return s;
    }
    Slot::Spoilt
}

// What the fields and the byte of the mark hold together.
fn marked_slot(b: u64, s: Slot) -> Slot
    ensures { result ≡ marked_slot b s }
{
    let empty = b % layout::BYTE_MULTIHOMED == 0;
    let mark = b / layout::BYTE_MULTIHOMED % 2 == 1;
    match s {
        Slot::Free => else_spoilt(b == 0, Slot::Free),
        Slot::Spoilt => Slot::Spoilt,
        Slot::Learned(e) => else_spoilt(empty, Slot::Learned(with_mark(e, mark))),
        Slot::Configured(e) => else_spoilt(empty, Slot::Configured(with_mark(e, mark))),
    }
}

// What the record at an offset of the table holds.
pub fn unpack(t: &[u8], at: usize) -> Slot
    requires { at + slot_bytes ≤ length t.now }
    ensures { result ≡ unpacked (drop at t.now) }
{
    marked_slot(table_fields::mark_at(t, at), fields_at(t, at))
}

// The same of a record whose fields are known to be learned or configured.
pub fn unpack_held(t: &[u8], at: usize) -> Slot
    requires { (at + slot_bytes ≤ length t.now) × IsHeld (record_of (drop at t.now)) }
    ensures { result ≡ unpacked (drop at t.now) }
{
    marked_slot(table_fields::mark_at(t, at), held_at(t, at))
}

// 0 for a VLAN, 1 for a fine-grained label.
pub fn kind_number(l: Label) -> u64
    ensures { (result ≡ kind_number l) × (result ≤ 1) }
{
    match l {
        Label::Vlan(_) => VLAN_KIND,
        Label::Fine(_) => FINE_KIND,
    }
}

pub fn label_number(l: Label) -> u64
    ensures { result ≡ label_number l }
{
    match l {
        Label::Vlan(x) => x as u64,
        Label::Fine(x) => x as u64,
    }
}

// The record of a learned entry.
fn bits_of(e: Entry) -> RecordBits
    requires { Fits e }
    ensures { HasNumber (record_number learned_state e) result }
{
    let l = e.label;
    let kind = kind_number(l);
    let label = label_number(l);
    RecordBits {
        high: ((LEARNED_STATE * layout::KINDS + kind) * layout::LABELS + label) * layout::HEAD_LABEL
            + e.mac / layout::TAIL_MACS,
        low: ((e.mac % layout::TAIL_MACS * layout::NICKNAMES + e.nickname as u64)
            * layout::CONFIDENCES
            + e.confidence as u64)
            * layout::SECONDS
            + e.seconds as u64,
    }
}

// Writes the fields.
fn write(b: RecordBits, fields: &mut [u8])
    requires { (length fields.old ≡ record_bytes) × BitsFit b }
    ensures { fields.new ≡ bytes_of record_bytes (number_of b) }
{
    let high = b.high;
    let low = b.low;
    numbers::fill8(&mut fields[0..layout::TAIL_OFFSET], high);
    numbers::fill6(&mut fields[layout::TAIL_OFFSET..RECORD_BYTES], low);
}

// The byte of the mark: the multihomed bit alone.
fn mark_byte(mark: bool) -> u8
    ensures { result ≡ mark_number mark }
{
    if mark { MULTIHOMED_MARK } else { 0 }
}

// Writes the record of a learned entry to a slot.
pub fn pack(e: Entry, slot: &mut [u8])
    requires { (length slot.old ≡ slot_bytes) × Fits e }
    ensures { slot.new ≡ packed learned_state e }
{
    write(bits_of(e), &mut slot[0..RECORD_BYTES]);
    slot[layout::MARK_OFFSET] = mark_byte(e.multihomed);
}

// Frees a slot.
pub fn clear(slot: &mut [u8])
    requires { length slot.old ≡ slot_bytes }
    ensures { slot.new ≡ freed }
{
    numbers::fill(slot, 0);
}

// Refusal 2: whether a table has a good length.
pub fn table_good(t: &[u8]) -> bool
    ensures { result ≡ table_good t.now }
{
    let n = t.len();
    if !((1 <= n) & (n <= MOST_BYTES)) {
        return false;
    }
    n % SLOT_BYTES == 0
}
