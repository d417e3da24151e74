// Whether a record is good, learned, spoilt or free: by its first four bytes, and by as few others as decide it.
#![tactic(auto)]

ghost use Rattle.std.specs.Prelude.{◌+◌, ◌/◌, ◌%◌, ◌^◌, ◌≤◌, ◌≡◌, length, drop};
ghost use Rattle.numbers.specs.Ranges.{nickname_good};
ghost use Rattle.table.specs.Learning.{free_slot};
ghost use Rattle.table.specs.Record.{record_bytes, record_of, nickname_of, entry_of, entry_good, slot_of, unpacked, is_free, is_learned, is_spoilt};
ghost use Rattle.table.specs.Slots.{slot_bytes};
ghost use Rattle.table.specs.Table.{spoilt_slot};

use numbers::{FIRST_VLAN, LAST_NICKNAME, LAST_VLAN};
use table::{CONFIGURED_STATE, FREE_STATE, LEARNED_STATE};
use table_fields::layout;

// The fronts of records without the state: the first that is no VLAN 0, the first VLAN that is too high, the last of a VLAN.
const FIRST_FRONT: u64 = FIRST_VLAN * layout::FRONT_LABEL;

const HIGH_FRONT: u64 = (LAST_VLAN + 1) * layout::FRONT_LABEL;

const LAST_VLAN_FRONT: u64 = layout::FRONT_KIND - 1;

// With the state: the first of a learned record that is no VLAN 0, the last of a learned record, the last of a configured one.
const FIRST_LEARNED: u64 = LEARNED_STATE * layout::FRONT_STATE + FIRST_FRONT;

const LAST_LEARNED: u64 = (LEARNED_STATE + 1) * layout::FRONT_STATE - 1;

const LAST_CONFIGURED: u64 = (CONFIGURED_STATE + 1) * layout::FRONT_STATE - 1;

// The last nickname without its low bits.
const LAST_HIGH: u64 = LAST_NICKNAME / layout::LOWS;

// Whether the nickname is good. Its high bits decide, but for 0 to 7.
fn nickname_good_at(t: &[u8], at: usize) -> bool
    requires { at + record_bytes ≤ length t.now }
    ensures { result ≡ nickname_good (nickname_of (record_of (drop at t.now))) }
{
    let high = table_fields::nickname_high_at(t, at);
    if (1 <= high) & (high <= LAST_HIGH) {
        return true;
    }
    if high == 0 {
        return 1 <= table_fields::nickname_low_at(t, at);
    }
    false
}

// Whether the entry is good; k is the front without the state. The label stands below its kind there, so both kinds take the same way:
// none is VLAN 0, and none is a VLAN above the last.
fn good_by_front(t: &[u8], at: usize, k: u64) -> bool
    requires { (at + record_bytes ≤ length t.now) × (k ≡ record_of (drop at t.now) / 2 ^ 80 % 2 ^ 30) }
    ensures { result ≡ entry_good (entry_of (record_of (drop at t.now))) }
{
    if k < FIRST_FRONT {
        return false;
    }
    let above = (HIGH_FRONT <= k) & (k <= LAST_VLAN_FRONT);
    if (table_fields::group_at(t, at) != 0) | above {
        return false;
    }
    nickname_good_at(t, at)
}

// Whether the fields are those of a learned record. The test of the state excludes VLAN 0 as well.
fn learned_fields_at(t: &[u8], at: usize) -> bool
    requires { at + record_bytes ≤ length t.now }
    ensures { result ≡ is_learned (slot_of (record_of (drop at t.now))) }
{
    let front = table_fields::front_at(t, at);
    if !((FIRST_LEARNED <= front) & (front <= LAST_LEARNED)) {
        return false;
    }
    good_by_front(t, at, front - layout::FRONT_STATE)
}

// Whether the record is learned: by its fields, and by the 7 bits after the mark.
pub fn learned_at(t: &[u8], at: usize) -> bool
    requires { at + slot_bytes ≤ length t.now }
    ensures { result ≡ is_learned (unpacked (drop at t.now)) }
{
    if !learned_fields_at(t, at) {
        return false;
    }
    table_fields::mark_at(t, at) % layout::BYTE_MULTIHOMED == 0
}

// Whether the fields are those of a spoilt record. The same test excludes the learned VLAN 0, which is spoilt.
fn spoilt_fields_at(t: &[u8], at: usize) -> bool
    requires { at + record_bytes ≤ length t.now }
    ensures { result ≡ is_spoilt (slot_of (record_of (drop at t.now))) }
{
    let front = table_fields::front_at(t, at);
    if (FIRST_LEARNED <= front) & (front <= LAST_CONFIGURED) {
        return !good_by_front(t, at, front % layout::FRONT_STATE);
    }
    if front != 0 {
        return true;
    }
    !table_fields::zero_after_front(t, at)
}

// Whether the record is spoilt: by its fields, by the 7 bits after the mark, or by the mark of a record that is else free.
pub fn spoilt_at(t: &[u8], at: usize) -> bool
    requires { at + slot_bytes ≤ length t.now }
    ensures { result ≡ spoilt_slot (drop at t.now) }
{
    if spoilt_fields_at(t, at) {
        return true;
    }
    let mark = table_fields::mark_at(t, at);
    if mark == 0 {
        return false;
    }
    if mark % layout::BYTE_MULTIHOMED != 0 {
        return true;
    }
    table_fields::state_at(t, at) == FREE_STATE
}

// Whether the fields are those of a free record.
fn free_fields_at(t: &[u8], at: usize) -> bool
    requires { at + record_bytes ≤ length t.now }
    ensures { result ≡ is_free (slot_of (record_of (drop at t.now))) }
{
    if table_fields::front_at(t, at) != 0 {
        return false;
    }
    table_fields::zero_after_front(t, at)
}

// Whether the record is free: its fields and the byte of the mark are all 0.
pub fn free_at(t: &[u8], at: usize) -> bool
    requires { at + slot_bytes ≤ length t.now }
    ensures { result ≡ free_slot (drop at t.now) }
{
    if !free_fields_at(t, at) {
        return false;
    }
    table_fields::mark_at(t, at) == 0
}
