// The search for the lowest free slot of a table, with the number of records unpacked. It tests first the bits of a slot that exclude most,
// many slots in a round.
#![tactic(auto)]

ghost use Rattle.std.specs.Prelude.{◌+◌, ◌≤◌, ◌≡◌, length, drop};
ghost use Rattle.numbers.specs.Tests.{pick};
ghost use Rattle.table.specs.FreeSlot.{state_free, free_search, free_answered};
ghost use Rattle.table.specs.Learning.{free_slot};
ghost use Rattle.table.specs.Slots.{slot_bytes};

use numbers::refusals::Refusal;
use table::{FREE_STATE, FreeAnswer, FreeSearch, SLOT_BYTES};

// What the search for a free slot learns of one slot.
#[derive(Clone, Copy)]
pub struct FreeStep {
    pub free: bool,
    pub unpacked: usize,
}

// One slot of the search for a free one: whether it is free, and the number of records unpacked with it. A record is unpacked, and
// counted, where its state bits are 0.
fn free_step(t: &[u8], at: usize, unpacked: usize) -> FreeStep
    requires { (at + slot_bytes ≤ length t.now) × (unpacked ≤ at) }
    ensures { (result.free ≡ free_slot (drop at t.now)) × (result.unpacked ≡ unpacked + pick (state_free (drop at t.now)) 1 0) }
{
    if table_fields::state_at(t, at) != FREE_STATE {
        return FreeStep {
            free: false,
            unpacked,
        };
    }
    FreeStep {
        free: table_states::free_at(t, at),
        unpacked: unpacked + 1,
    }
}

// The lowest free slot, and the number of records unpacked. Slots of state 0 often stand together, so after one of them rounds pass by those
// that are of state 0 and not free, each of which is counted; after a slot in another state, rounds pass by those in other states.
pub fn find_free(t: &[u8]) -> FreeSearch
    ensures { result ≡ free_search t.now }
{
    let n = t.len() / SLOT_BYTES;
    let mut j = 0;
    let mut unpacked = 0;
    // A `while`: a step may pass by whole rounds, whose slots are counted.
    while j < n {
        let step = free_step(t, SLOT_BYTES * j, unpacked);
        let before = unpacked;
        unpacked = step.unpacked;
        if step.free {
            return FreeSearch {
                place: Some(j),
                unpacked,
            };
        }
        j += 1;
        if unpacked == before {
            j = table_rounds::next_in_state(t, j, FREE_STATE);
        } else {
            let k = table_rounds::next_not_spoilt(t, j);
            unpacked += k - j;
            j = k;
        }
    }
    FreeSearch {
        place: None,
        unpacked,
    }
}

// Names the lowest free slot, or none, with the number of records unpacked.
pub fn free_slot(table: &[u8]) -> Result<FreeAnswer, Refusal>
    ensures { result ≡ free_answered table.now }
{
    if !table_records::table_good(table) {
        return Err(Refusal::TableLengthBad);
    }
    let search = find_free(table);
    let place = search.place;
    match place {
        Some(k) => Ok(FreeAnswer::Lowest {
            slot: k as u16,
            unpacked: search.unpacked as u16,
        }),
        None => Ok(FreeAnswer::Full(search.unpacked as u16)),
    }
}
