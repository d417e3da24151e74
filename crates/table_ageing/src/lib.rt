// Ageing: learned records lose seconds, and those with none left become free.
#![tactic(auto)]

ghost use Rattle.std.specs.Prelude.{◌/◌, ◌%◌, ◌≤◌, ◌≡◌, true, length};
ghost use Rattle.numbers.specs.After.{on_table};
ghost use Rattle.table.specs.Record.{unpacked, is_learned, learned_state};
ghost use Rattle.table.specs.Slots.{slot_bytes, slots_of, on_slots};
ghost use Rattle.table.specs.Table.{aged_slot, aged};
ghost use Rattle.table_rounds.specs.Rounds.{InState, Passed};

use numbers::refusals::Refusal;
use table::{LEARNED_STATE, SLOT_BYTES};
use table_rounds::FOUR_SLOTS;

// Ages a learned slot by s.
fn age_slot(slot: &mut [u8], s: u16)
    requires { (length slot.old ≡ slot_bytes) × (is_learned (unpacked slot.old) ≡ true) }
    ensures { slot.new ≡ aged_slot s slot.old }
{
    if table_fields::subtract_seconds(slot, s as u64) {
        table_records::clear(slot);
    }
}

// The lowest offset of a slot from an offset on in whose round of four some slot has the state of a learned one, or that is one of the
// last three. Offsets and short rounds, where `table_rounds` has slots and long ones: learned slots are many.
fn next_learned(t: &[u8], from: usize) -> usize
    requires { (from % slot_bytes ≡ 0) × (from ≤ length t.now) }
    ensures { (result % slot_bytes ≡ 0) × ((from ≤ result) × ((result ≤ length t.now) × Passed (InState learned_state) (from / slot_bytes) (result / slot_bytes) t.now)) }
{
    let n = t.len();
    let mut a = from;
    // A `while`: as a `for` over the rounds it divides by their bytes, and a table without learned slots takes 1.2 times as long.
    while FOUR_SLOTS <= n - a {
        if !table_rounds::none_in_state(t, a, LEARNED_STATE) {
            return a;
        }
        a += FOUR_SLOTS;
    }
    a
}

// Ages every slot, each at its offset a.
fn age_slots(table: &mut [u8], s: u16)
    ensures { table.new ≡ on_slots (aged_slot s) 0 (slots_of table.old) table.old }
{
    let n = table.len() / SLOT_BYTES * SLOT_BYTES;
    let mut a = 0;
    // A `while`: a step may pass by the rounds without a learned slot.
    while a < n {
        if table_states::learned_at(table, a) {
            let e = a + SLOT_BYTES;
            age_slot(&mut table[a..e], s);
            a += SLOT_BYTES;
        } else {
            a = next_learned(table, a + SLOT_BYTES);
        }
    }
}

// Ages the table by some seconds.
pub fn age(seconds: u16, table: &mut [u8]) -> Result<(), Refusal>
    ensures { on_table result table.new ≡ aged seconds table.old }
{
    if !table_records::table_good(table) {
        return Err(Refusal::TableLengthBad);
    }
    age_slots(table, seconds);
    Ok(())
}
