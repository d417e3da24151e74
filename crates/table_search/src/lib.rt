// Searches over the slots of a table: for a label and an address, for a spoilt slot. Each tests first the bits of a slot
// that exclude most, many slots in a round.
#![tactic(auto)]

ghost use Rattle.std.specs.Prelude.{◌^◌, ◌<◌, ◌≤◌, ◌≡◌, None};
ghost use Rattle.table.specs.Record.{label_from};
ghost use Rattle.table.specs.Slots.{slots_of, first_slot, lowest};
ghost use Rattle.table.specs.Table.{holds, place_of, looked_up, spoilt_slot, lowest_spoilt};
ghost use Rattle.table_fields.specs.Keys.{key_of};
ghost use Rattle.table_pairs.specs.Pairs.{Pair};

use numbers::refusals::Refusal;
use numbers::{LAST_ADDRESS, LAST_FINE};
use table::{FINE_KIND, SLOT_BYTES};

// The lowest slot with a label and an address, whose key is given, where slot 0 does not hold them.
fn find_after(t: &[u8], key: u64, kind: u64, label: u64, mac: u64) -> Option<usize>
    requires { (1 ≤ slots_of t.now) × ((key ≡ key_of mac) × (Pair kind label mac × (first_slot (holds (label_from kind label) mac) 1 t.now ≡ None))) }
    ensures { result ≡ lowest (holds (label_from kind label) mac) t.now }
{
    let round_key = table_fields::round_key_of(mac);
    let n = t.len() / SLOT_BYTES;
    let mut i = 1;
    // A `while`: each step passes by the rounds without the key.
    while i < n {
        if table_pairs::holds_at(t, SLOT_BYTES * i, key, kind, label, mac) {
            return Some(i);
        }
        i = table_rounds::next_keyed(t, i + 1, round_key);
    }
    None
}

// The lowest slot with a label and an address. Slot 0 is tested before the key of the rounds is made.
pub fn find_pair(t: &[u8], kind: u64, label: u64, mac: u64) -> Option<usize>
    requires { (kind ≤ 1) × ((label < 2 ^ 24) × (mac < 2 ^ 48)) }
    ensures { result ≡ lowest (holds (label_from kind label) mac) t.now }
{
    if !table_pairs::pair_good(kind, label, mac) {
        return None;
    }
    if t.len() < SLOT_BYTES {
        return None;
    }
    let key = table_fields::key_of(mac);
    if table_pairs::holds_at(t, 0, key, kind, label, mac) {
        return Some(0);
    }
    find_after(t, key, kind, label, mac)
}

// The lowest spoilt slot.
fn find_spoilt(t: &[u8]) -> Option<usize>
    ensures { result ≡ lowest spoilt_slot t.now }
{
    for i in 0..t.len() / SLOT_BYTES {
        if table_states::spoilt_at(t, SLOT_BYTES * i) {
            return Some(i);
        }
    }
    None
}

// The lowest slot that a lookup of any numbers finds; those that no good record can hold find none.
fn place_of(kind: u32, label: u32, mac: u64, t: &[u8]) -> Option<usize>
    ensures { result ≡ place_of kind label mac t.now }
{
    let k = kind as u64;
    let x = label as u64;
    if FINE_KIND < k {
        return None;
    }
    if LAST_FINE < x {
        return None;
    }
    if LAST_ADDRESS < mac {
        return None;
    }
    find_pair(t, k, x, mac)
}

// Looks an address up: the nickname in the lowest matching slot, or none.
pub fn lookup(kind: u32, label: u32, mac: u64, table: &[u8]) -> Result<Option<u16>, Refusal>
    ensures { result ≡ looked_up kind label mac table.now }
{
    if !table_records::table_good(table) {
        return Err(Refusal::TableLengthBad);
    }
    match place_of(kind, label, mac, table) {
        Some(k) => {
            let nickname = table_fields::nickname_at(table, SLOT_BYTES * k);
            Ok(Some(nickname as u16))
        }
        None => Ok(None),
    }
}

// Names the lowest spoilt slot, or none.
pub fn lowest_spoilt(table: &[u8]) -> Result<Option<u16>, Refusal>
    ensures { result ≡ lowest_spoilt table.now }
{
    if !table_records::table_good(table) {
        return Err(Refusal::TableLengthBad);
    }
    let Some(k) = find_spoilt(table) else {
        return Ok(None);
    };
    Ok(Some(k as u16))
}
