// The keys of a table's slots: what a report counts of each.
#![tactic(auto)]

ghost use Rattle.std.specs.Prelude.{ℕ, ◌+◌, ◌*◌, ◌/◌, ◌%◌, ◌^◌, ◌<◌, ◌≤◌, ◌≡◌, length, drop};
ghost use Rattle.numbers.specs.Tests.{pick};
ghost use Rattle.table.specs.Record.{record_of, mark_of, nickname_of, entry_of, entry_good, unpacked};
ghost use Rattle.table.specs.Slots.{slot_bytes};
ghost use Rattle.report_keys.specs.Keys.{free_key, spoilt_key, key_of};

use numbers::{FIRST_VLAN, LAST_VLAN};
use table::{CONFIGURED_STATE, FREE_STATE, LEARNED_STATE};
use table_fields::layout;

// The keys of free and of spoilt slots: past those of all nicknames.
pub const FREE_KEY: u32 = 0x2_0000;

pub const SPOILT_KEY: u32 = 0x2_0001;

// The unit of the front, a record's first four bytes, in its first eight; fronts without the state: the first that is no VLAN 0, the first
// VLAN that is too high, the last of a VLAN.
const HEAD_FRONT: u64 = 0x1_0000_0000;

const FIRST_FRONT: u64 = FIRST_VLAN * layout::FRONT_LABEL;

const HIGH_FRONT: u64 = (LAST_VLAN + 1) * layout::FRONT_LABEL;

const LAST_VLAN_FRONT: u64 = layout::FRONT_KIND - 1;

// The last eight bytes of a slot, and the unit of the nickname in them.
const TAIL_OFFSET: usize = 7;

const TAIL_NICKNAME: u64 = 0x2000_0000;

// The key of a slot without a record.
fn empty_key(free: bool) -> u32
    ensures { (result ≡ pick free free_key spoilt_key) × (result < 2 ^ 18) }
{
    if free { FREE_KEY } else { SPOILT_KEY }
}

// The eight bytes from the eighth on as one number: the low bits of the fields, and the byte of the mark.
fn tail_at(t: &[u8], at: usize) -> u64
    requires { at + slot_bytes ≤ length t.now }
    ensures { (result ≡ record_of (drop at t.now) % 2 ^ 56 * 2 ^ 8 + mark_of (drop at t.now)) × (mark_of (drop at t.now) < 2 ^ 8) }
{
    numbers::be8(t, at + TAIL_OFFSET)
}

// Whether an entry is good, by the first eight bytes of its record and its nickname.
fn good_fields(head: u64, x: u64) -> bool
    ensures { (n : ℕ) → n < 2 ^ 112 → head ≡ n / 2 ^ 48 → x ≡ nickname_of n → result ≡ entry_good (entry_of n) }
{
    let k = head / HEAD_FRONT % layout::FRONT_STATE;
    if k < FIRST_FRONT {
        return false;
    }
    let above = (HIGH_FRONT <= k) & (k <= LAST_VLAN_FRONT);
    if above {
        return false;
    }
    if head / layout::HEAD_GROUP % 2 != 0 {
        return false;
    }
    numbers::nickname_good(x)
}

// The key of the slot at an offset, from two reads of eight bytes.
pub fn key_at(t: &[u8], at: usize) -> u32
    requires { at + slot_bytes ≤ length t.now }
    ensures { (result ≡ key_of (unpacked (drop at t.now))) × (result < 2 ^ 18) }
{
    let head = table_fields::head_at(t, at);
    let state = head / layout::HEAD_STATE;
    if (state == FREE_STATE) | (CONFIGURED_STATE < state) {
        return empty_key(table_states::free_at(t, at));
    }
    let tail = tail_at(t, at);
    if tail % layout::BYTE_MULTIHOMED != 0 {
        return SPOILT_KEY;
    }
    let x = tail / TAIL_NICKNAME % layout::NICKNAMES;
    if !good_fields(head, x) {
        return SPOILT_KEY;
    }
    (x * 2 + (state - LEARNED_STATE)) as u32
}
