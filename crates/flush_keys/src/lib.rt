// The number of a record that a filter tests, a fine-grained label or a MAC, and keys: such a number, times `KEY_SLOTS`, and the slot that holds it.
#![tactic(auto)]

ghost use Rattle.std.specs.Prelude.{ℕ, ◌+◌, ◌*◌, ◌^◌, ◌<◌, ◌≤◌, Bool, true, not, ◌≡◌, length, take, drop};
ghost use Rattle.table.specs.Record.{record_bytes};
ghost use Rattle.table.specs.Slots.{slot_at};
ghost use Rattle.flush_buckets.specs.Buckets.{bucket_bytes, Nears};
ghost use Rattle.flush_marks.specs.Marks.{mark_bytes};
ghost use Rattle.flush_keys.specs.Keys.{number_in, applies_to, InTable, Hit, Marked, Joined, KeysOf};

use flush_buckets::KEY_SLOTS;
use table::SLOT_BYTES;

// What a filter tests.
#[derive(Clone, Copy)]
pub enum Field {
    Fine,
    Mac,
}

// The number in the slot at an offset.
fn number_at(t: &[u8], at: usize, field: Field) -> u64
    requires { at + record_bytes ≤ length t.now }
    ensures { (result ≡ number_in field (drop at t.now)) × (result < 2 ^ 48) }
{
    match field {
        Field::Fine => table_fields::label_at(t, at),
        Field::Mac => table_fields::mac_at(t, at),
    }
}

// Whether the slot at an offset has such a number.
fn applies_at(t: &[u8], at: usize, field: Field) -> bool
    requires { at + record_bytes ≤ length t.now }
    ensures { result ≡ applies_to field (drop at t.now) }
{
    match field {
        Field::Fine => table_fields::kind_at(t, at) != 0,
        Field::Mac => true,
    }
}

// Makes the keys of slots. By index, for one edit stores a key at its slot's place. Each is stored, and counted where it applies and its number may be named: there is no branch on what is read.
pub fn keys_of(table: &[u8], field: Field, slots: &[u64], named: &[u8], keys: &mut [u64]) -> usize
    requires { InTable table.now slots.now × ((length slots.now ≤ length keys.old) × (length named.now ≡ bucket_bytes)) }
    ensures { (result ≤ length slots.now) × KeysOf (λ j. applies_to field (slot_at j table.now)) (λ j. number_in field (slot_at j table.now)) slots.now named.now (take result keys.new) }
{
    let mut n = 0;
    for i in 0..slots.len() {
        let j = slots[i];
        let at = SLOT_BYTES * j as usize;
        let x = number_at(table, at, field);
        keys[n] = x * KEY_SLOTS + j;
        n += flush_sort::one(applies_at(table, at, field) & flush_buckets::has_bit(named, x));
    }
    n
}

// Marks the slots that have no such number. They are few as a rule.
pub fn keep_others(table: &[u8], field: Field, slots: &[u64], marks: &mut [u8])
    requires { InTable table.now slots.now × (length marks.old ≡ mark_bytes) }
    ensures { Joined (λ j. not (applies_to field (slot_at j table.now))) slots.now marks.old marks.new }
{
    let Field::Fine = field else {
        return;
    };
    for &j in slots {
        let k = j as usize;
        if !applies_at(table, SLOT_BYTES * k, field) {
            flush_bits::add_if(marks, k, true);
        }
    }
}

// The numbers of keys, in filter bits.
pub fn note(keys: &[u64], bits: &mut [u8])
    requires { length bits.old ≡ bucket_bytes }
    ensures { Nears keys.now bits.new }
{
    for &key in keys {
        flush_buckets::add_twice(key / KEY_SLOTS, bits);
    }
}

// Marks the slots of the keys whose bit is set: key i has bit i. There is no branch on the bit.
pub fn collect(keys: &[u64], hits: &[u8], marks: &mut [u8])
    requires { (length keys.now ≤ 8 * length hits.now) × (length marks.old ≡ mark_bytes) }
    ensures { (q : ℕ → Bool) → Hit q keys.now hits.now → Marked q keys.now marks.old marks.new }
{
    for (i, &key) in keys.iter().enumerate() {
        let hit = flush_bits::has(hits, i as u64);
        flush_bits::add_if(marks, (key % KEY_SLOTS) as usize, hit);
    }
}
