// The filters by fine-grained label and by MAC: of the marked slots those stay marked whose number the message names. The marked slots are
// listed, those whose number has no bit in the filter bits of the message are left out, the others are sorted by number, and each block,
// number and bit map of the message is looked up among them.
#![tactic(auto)]

ghost use Rattle.std.specs.Prelude.{◌<◌, ◌≤◌, true, false, ◌≡◌, length};
ghost use Rattle.numbers.specs.Tests.{any_of};
ghost use Rattle.table.specs.Slots.{most_slots, slots_of};
ghost use Rattle.flush.specs.Payload.{tlvs};
ghost use Rattle.flush_sort.specs.Sorting.{Sorted};
ghost use Rattle.flush_parts.specs.Parts.{Narrow};
ghost use Rattle.flush_parts.specs.Named.{named_of};
ghost use Rattle.flush_marks.specs.Marks.{mark_bytes, Filtered, Listed};
ghost use Rattle.flush_marks.specs.Filters.{is_type, fine_slot, slot_addressed, Filtering};
ghost use Rattle.flush_keys.specs.Keys.{InTable, Marked};
ghost use Rattle.flush_intervals.specs.Hits.{hit_bytes, Hits};
ghost use Rattle.flush_filters.specs.Numbers.{naming_of, slot_passes, Keyed, Kept};

use flush_buckets::BUCKET_BYTES;
use flush_intervals::HIT_BYTES;
use flush_keys::Field;
use flush_parts::Naming;
use table::{MOST_SLOTS, SLOT_BYTES};

// Up to so many marks find room in the smaller areas, which are cheaper to make.
const FEW: usize = 64;

const SOME: usize = 512;

// How a message names the numbers of a field.
fn naming_of(field: Field) -> Naming
    ensures { (result ≡ naming_of field) × Narrow result.numbering }
{
    match field {
        Field::Fine => flush_parts::fine_naming(),
        Field::Mac => Naming {
            blocks: 8,
            singles: 7,
            mapped: false,
            maps: 8,
            numbering: flush_members::MACS,
        },
    }
}

// Sets the bits of the sorted keys whose number the message names. What the area of places holds before and after is free.
fn hit_keys(rest: &[u8], field: Field, keys: &[u64], places: &mut [u64], hits: &mut [u8])
    requires { (Sorted keys.now × (length keys.now ≤ most_slots)) × (length hits.old ≡ hit_bytes) }
    ensures { Hits (named_of (naming_of field) (tlvs rest.now)) keys.now hits.old hits.new }
{
    let mut near = [0u8; BUCKET_BYTES];
    flush_keys::note(keys, &mut near);
    flush_intervals::note_places(keys, places);
    flush_intervals::hit_named(rest, naming_of(field), &near, keys, places, hits);
}

// Marks the slots of keys whose number the message names.
fn mark_named(rest: &[u8], field: Field, keys: &mut [u64], work: &mut [u64], marks: &mut [u8])
    requires { ((length keys.old ≤ most_slots) × (length keys.old ≤ length work.old)) × (length marks.old ≡ mark_bytes) }
    ensures { Marked (named_of (naming_of field) (tlvs rest.now)) keys.old marks.old marks.new }
{
    flush_sort::sort(keys, work);
    let mut hits = [0u8; HIT_BYTES];
    hit_keys(rest, field, keys, work, &mut hits);
    flush_keys::collect(keys, &hits, marks);
}

// Whether it pays to make filter bits of the message for so many slots. Those of labels were tested in the first pass.
fn bits_pay(field: Field, n: usize) -> bool {
    match field {
        Field::Fine => false,
        Field::Mac => FEW < n,
    }
}

// Makes the keys of the slots whose number may be named, and leaves those marked that have no such number.
fn key_slots(
    table: &[u8],
    rest: &[u8],
    field: Field,
    slots: &[u64],
    keys: &mut [u64],
    marks: &mut [u8],
) -> usize
    requires { InTable table.now slots.now × ((length slots.now ≤ length keys.old) × (length marks.old ≡ mark_bytes)) }
    ensures { Keyed field (tlvs rest.now) table.now slots.now keys.new result marks.new }
{
    flush_marks::remove_all(marks);
    flush_keys::keep_others(table, field, slots, marks);
    let mut named = [0u8; BUCKET_BYTES];
    let pays = bits_pay(field, slots.len());
    flush_named::add_where(rest, naming_of(field), pays, &mut named);
    flush_keys::keys_of(table, field, slots, &named, keys)
}

// Of the listed slots, which are the marked ones, those stay marked that pass.
fn keep_listed(
    table: &[u8],
    rest: &[u8],
    field: Field,
    slots: &mut [u64],
    c: usize,
    keys: &mut [u64],
    marks: &mut [u8],
)
    requires { (Filtering table.now marks.old × Listed marks.old (slots_of table.now) c slots.old) × ((length slots.old ≤ most_slots) × (length keys.old ≡ length slots.old)) }
    ensures { Filtered (slot_passes field (tlvs rest.now)) table.now marks.old marks.new }
{
    let n = key_slots(table, rest, field, &slots[..c], keys, marks);
    mark_named(rest, field, &mut keys[..n], slots, marks);
}

// Filters in areas that are lent. Where the marked slots find no room it answers false, and does nothing.
fn keep_in(
    table: &[u8],
    rest: &[u8],
    field: Field,
    slots: &mut [u64],
    keys: &mut [u64],
    marks: &mut [u8],
) -> bool
    requires { Filtering table.now marks.old × ((length slots.old ≤ most_slots) × (length keys.old ≡ length slots.old)) }
    ensures { Kept result (slot_passes field (tlvs rest.now)) table.now marks.old marks.new × (result ≡ false → length slots.old < slots_of table.now) }
{
    match flush_marks::list_marked(marks, table.len() / SLOT_BYTES, slots) {
        Some(c) => {
            keep_listed(table, rest, field, slots, c, keys, marks);
            true
        }
        None => false,
    }
}

// In areas for N marks. It is not inlined, so that only the call that takes the largest areas has room for them.
#[inline(never)]
fn keep_within<const N: usize>(table: &[u8], rest: &[u8], field: Field, marks: &mut [u8]) -> bool
    requires { Filtering table.now marks.old × (N ≤ most_slots) }
    ensures { Kept result (slot_passes field (tlvs rest.now)) table.now marks.old marks.new × (result ≡ false → N < slots_of table.now) }
{
    let mut slots = [0u64; N];
    let mut keys = [0u64; N];
    keep_in(table, rest, field, &mut slots, &mut keys, marks)
}

// Of the marked slots those stay marked that pass. The largest areas hold every slot of a table.
fn keep(table: &[u8], rest: &[u8], field: Field, marks: &mut [u8])
    requires { Filtering table.now marks.old }
    ensures { Filtered (slot_passes field (tlvs rest.now)) table.now marks.old marks.new }
{
    let n = flush_marks::weight(marks);
    if n <= FEW && keep_within::<FEW>(table, rest, field, marks) {
        return;
    }
    if n <= SOME && keep_within::<SOME>(table, rest, field, marks) {
        return;
    }
    keep_within::<MOST_SLOTS>(table, rest, field, marks);
}

// Of the marked slots those stay marked that have a fine-grained label that is meant, or none.
pub fn keep_fines(table: &[u8], rest: &[u8], marks: &mut [u8])
    requires { Filtering table.now marks.old × (any_of (is_type 6) (tlvs rest.now) ≡ false) }
    ensures { Filtered (fine_slot (tlvs rest.now)) table.now marks.old marks.new }
{
    keep(table, rest, Field::Fine, marks);
}

// Of the marked slots those whose MAC is meant stay marked; where no MAC was gathered every MAC is meant.
pub fn keep_macs(table: &[u8], rest: &[u8], marks: &mut [u8])
    requires { Filtering table.now marks.old }
    ensures { Filtered (slot_addressed (tlvs rest.now)) table.now marks.old marks.new }
{
    if !flush_payload::some_mac(rest, 0) {
        return;
    }
    keep(table, rest, Field::Mac, marks);
}
