// Learning: the frame is judged against one record of the same label and address, or fills a free slot; an unmarked frame that overwrites
// clears the others. A configured record of them in any slot keeps everything.
#![tactic(auto)]

ghost use Rattle.std.specs.Prelude.{◌+◌, ◌*◌, ◌≤◌, ◌≡◌, ◌||◌, leb, length};
ghost use Rattle.numbers.specs.Tests.{pick};
ghost use Rattle.numbers.specs.After.{on_table};
ghost use Rattle.table.specs.Learning.{put_entry, cleared_pair, free_slot, into_free, judged_at, learnt};
ghost use Rattle.table.specs.Slots.{slot_bytes, slots_of, on_slots, or_else, lowest};
ghost use Rattle.table_records.specs.Entries.{Fits};
ghost use Rattle.table_homes.specs.Steps.{Sought};
ghost use Rattle.table_learning.specs.Judging.{room_if, NoneBelow, Judges};

use table::{Entry, Learning, SLOT_BYTES};
use table_homes::Homes;

// A pair with one record has no others to clear.
const ONE_RECORD: usize = 1;

// Frees a slot that holds a learned record of the pair.
fn clear_slot(slot: &mut [u8], key: u64, kind: u64, label: u64, e: Entry)
    requires { (length slot.old ≡ slot_bytes) × Sought key kind label e }
    ensures { slot.new ≡ cleared_pair e slot.old }
{
    if !table_pairs::holds_at(slot, 0, key, kind, label, e.mac) {
        return;
    }
    if !table_states::learned_at(slot, 0) {
        return;
    }
    table_records::clear(slot);
}

// Frees every slot that holds a learned record of the pair; none does below slot `from`. Rounds are passed by as in the search for them.
fn clear_slots(table: &mut [u8], from: usize, key: u64, kind: u64, label: u64, e: Entry)
    requires { Sought key kind label e × ((from ≤ slots_of table.old) × NoneBelow e from table.old) }
    ensures { table.new ≡ on_slots (cleared_pair e) 0 (slots_of table.old) table.old }
{
    let round_key = table_fields::round_key_of(e.mac);
    let n = table.len() / SLOT_BYTES;
    let mut i = from;
    // A `while`: each step passes by the rounds without the key.
    while i < n {
        let a = SLOT_BYTES * i;
        let b = a + SLOT_BYTES;
        clear_slot(&mut table[a..b], key, kind, label, e);
        i = table_rounds::next_keyed(table, i + 1, round_key);
    }
}

// Puts a learned entry into a slot.
fn put(e: Entry, k: usize, table: &mut [u8])
    requires { (slot_bytes * k + slot_bytes ≤ length table.old) × Fits e }
    ensures { table.new ≡ put_entry k e table.old }
{
    let a = SLOT_BYTES * k;
    let b = a + SLOT_BYTES;
    table_records::pack(e, &mut table[a..b]);
}

// Learning an address for which no record is judged.
fn into_free(e: Entry, table: &mut [u8]) -> Learning
    requires { Fits e }
    ensures { on_table result table.new ≡ into_free (lowest free_slot table.old) e table.old }
{
    let search = table_free::find_free(table);
    let place = search.place;
    match place {
        Some(k) => {
            put(e, k, table);
            Learning::Learned
        }
        None => Learning::Full,
    }
}

// The place of the record that is judged.
fn rival(h: Homes, mark: bool) -> Option<usize>
    ensures { result ≡ pick mark (or_else h.unmarked h.marked) h.lowest }
{
    let u = h.unmarked;
    let m = h.marked;
    let l = h.lowest;
    if mark {
        return table_homes::or_else(u, m);
    }
    l
}

// Frees the pair's learned records for an unmarked entry, where there are several; slot k is then the lowest that holds one.
fn make_room(e: Entry, k: usize, count: usize, table: &mut [u8])
    requires { Fits e × Judges e k count table.old }
    ensures { table.new ≡ room_if (e.multihomed || leb count 1) e table.old }
{
    if e.multihomed | (count <= ONE_RECORD) {
        return;
    }
    let l = e.label;
    let mac = e.mac;
    let kind = table_records::kind_number(l);
    let label = table_records::label_number(l);
    let key = table_fields::key_of(mac);
    clear_slots(table, k, key, kind, label, e);
}

// The record in slot k is judged: a higher confidence is kept, any other is overwritten.
fn judge(e: Entry, k: usize, count: usize, table: &mut [u8]) -> Learning
    requires { Fits e × Judges e k count table.old }
    ensures { on_table result table.new ≡ judged_at k e table.old }
{
    let mine = e.confidence as u64;
    if mine < table_fields::confidence_at(table, SLOT_BYTES * k) {
        return Learning::Kept;
    }
    make_room(e, k, count, table);
    put(e, k, table);
    Learning::Refreshed
}

// Learns an entry.
pub fn learn(e: Entry, table: &mut [u8]) -> Learning
    requires { Fits e }
    ensures { on_table result table.new ≡ learnt e table.old }
{
    let h = table_homes::homes_of(table, e);
    if h.configured {
        return Learning::Kept;
    }
    let p = rival(h, e.multihomed);
    match p {
        Some(k) => judge(e, k, h.count, table),
        None => into_free(e, table),
    }
}
