// Whether a record holds a label and an address: by the byte in which most addresses differ, then by its first eight bytes.
#![tactic(auto)]

ghost use Rattle.std.specs.Prelude.{◌+◌, ◌^◌, ◌<◌, ◌≤◌, ◌≡◌, length, drop};
ghost use Rattle.table.specs.Record.{record_bytes, record_of, mac_of, label_from, slot_of, slot_matches};
ghost use Rattle.table.specs.Slots.{slot_bytes};
ghost use Rattle.table.specs.Table.{holds};
ghost use Rattle.table_fields.specs.Keys.{key_of};
ghost use Rattle.table_pairs.specs.Pairs.{pair_good, Pair};

use table::{CONFIGURED_STATE, FINE_KIND, LEARNED_STATE};
use table_fields::layout;

// The state in a record's first eight bytes.
const LEARNED_HEAD: u64 = LEARNED_STATE * layout::HEAD_STATE;

const CONFIGURED_HEAD: u64 = CONFIGURED_STATE * layout::HEAD_STATE;

// Whether a good record can hold a label and an address.
pub fn pair_good(kind: u64, label: u64, mac: u64) -> bool
    requires { (kind ≤ 1) × ((label < 2 ^ 24) × (mac < 2 ^ 48)) }
    ensures { result ≡ pair_good (label_from kind label) mac }
{
    ((kind == FINE_KIND) | numbers::vlan_good(label)) & numbers::is_individual(mac)
}

// Whether the fields of the record at an offset of the table hold a label and an address, where their key is the record's: what is left to
// compare is its first eight bytes, learned or configured, and three bits of the address.
fn fields_hold(t: &[u8], at: usize, kind: u64, label: u64, mac: u64) -> bool
    requires { (at + record_bytes ≤ length t.now) × ((key_of (mac_of (record_of (drop at t.now))) ≡ key_of mac) × Pair kind label mac) }
    ensures { result ≡ slot_matches (label_from kind label) mac (slot_of (record_of (drop at t.now))) }
{
    let rest = (kind * layout::LABELS + label) * layout::HEAD_LABEL + mac / layout::TAIL_MACS;
    let head = table_fields::head_at(t, at);
    let held = (head == rest + LEARNED_HEAD) | (head == rest + CONFIGURED_HEAD);
    if !held {
        return false;
    }
    if table_fields::mac_low_at(t, at) != mac % layout::LOWS {
        return false;
    }
    numbers::nickname_good(table_fields::nickname_at(t, at))
}

// Whether the record does: by its fields, and by the 7 bits after the mark.
fn holds_keyed(t: &[u8], at: usize, kind: u64, label: u64, mac: u64) -> bool
    requires { (at + slot_bytes ≤ length t.now) × ((key_of (mac_of (record_of (drop at t.now))) ≡ key_of mac) × Pair kind label mac) }
    ensures { result ≡ holds (label_from kind label) mac (drop at t.now) }
{
    if !fields_hold(t, at, kind, label, mac) {
        return false;
    }
    table_fields::mark_at(t, at) % layout::BYTE_MULTIHOMED == 0
}

// Whether the record holds a label and an address, whose key is given.
pub fn holds_at(t: &[u8], at: usize, key: u64, kind: u64, label: u64, mac: u64) -> bool
    requires { (at + slot_bytes ≤ length t.now) × ((key ≡ key_of mac) × Pair kind label mac) }
    ensures { result ≡ holds (label_from kind label) mac (drop at t.now) }
{
    if table_fields::key_at(t, at) != key {
        return false;
    }
    holds_keyed(t, at, kind, label, mac)
}
