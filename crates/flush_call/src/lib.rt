// An Address Flush over the table: the payload is judged whole, then the slots that it means are marked, filter by filter, and then
// cleared.
#![tactic(auto)]

ghost use Rattle.std.specs.Prelude.{◌*◌, ◌≤◌, ◌≡◌, length};
ghost use Rattle.numbers.specs.After.{on_table};
ghost use Rattle.table.specs.Slots.{most_slots, slots_of};
ghost use Rattle.flush.specs.Payload.{every_type, block_bytes, pieces_of};
ghost use Rattle.flush.specs.Flush.{slot_meant, clearing, flushed};
ghost use Rattle.flush_payload.specs.Judging.{Noted};
ghost use Rattle.flush_marks.specs.Marks.{Filtered, Chosen, swept_in};
ghost use Rattle.flush_marks.specs.Filters.{slot_addressed, Filtering, Within, Marking};
ghost use Rattle.flush_nicknames.specs.First.{fine_noted};
ghost use Rattle.flush_call.specs.Clearing.{payload_from, fine_left, sweeping_in, cleared_on};

use flush::Model;
use flush_marks::{MARK_BYTES, Sweep};
use flush_payload::Kinds;
use numbers::refusals::Refusal;
use table::SLOT_BYTES;

// So many slots are judged by a walk over the message, whatever its length; and so many where it has no more than so many bytes.
const FEW_SLOTS: usize = 4;

const SOME_SLOTS: usize = 64;

const SHORT_BYTES: usize = 32;

// Of the marked slots with a fine-grained label those stay marked whose label is meant. Where every label is meant, or none is named,
// the first pass has decided.
fn keep_labels(table: &[u8], rest: &[u8], f: Kinds, marks: &mut [u8])
    requires { Filtering table.now marks.old × Noted every_type f.blocks (pieces_of f.blocks rest.now) f }
    ensures { Filtered (fine_left (fine_noted f) (pieces_of f.blocks rest.now)) table.now marks.old marks.new }
{
    if f.every {
        return;
    }
    if !(f.lists | f.maps) {
        return;
    }
    flush_filters::keep_fines(table, rest, marks);
}

// Of the marked slots those stay marked whose MAC is meant: without a TLV of MACs every one is.
fn keep_macs(table: &[u8], rest: &[u8], f: Kinds, marks: &mut [u8])
    requires { Filtering table.now marks.old × Noted every_type f.blocks (pieces_of f.blocks rest.now) f }
    ensures { Filtered (slot_addressed (pieces_of f.blocks rest.now)) table.now marks.old marks.new }
{
    if !f.macs {
        return;
    }
    flush_filters::keep_macs(table, rest, marks);
}

// Marks the slots of a range that a good payload means, and answers how many the first pass examined. Where it leaves no mark the filters have
// nothing to do.
fn mark_meant(
    ingress: u32,
    nicks: &[u8],
    rest: &[u8],
    f: Kinds,
    table: &[u8],
    from: usize,
    count: usize,
    marks: &mut [u8],
) -> usize
    requires { Marking from count table.now marks.old × ((block_bytes * f.blocks ≤ length rest.now) × Noted every_type f.blocks (pieces_of f.blocks rest.now) f) }
    ensures { (result ≡ count) × Chosen (slot_meant every_type (payload_from nicks.now f.blocks rest.now) ingress) from count table.now marks.new }
{
    let examined = flush_nicknames::mark(ingress, nicks, rest, f, table, from, count, marks);
    if !flush_marks::any_marked(marks, table.len() / SLOT_BYTES) {
        return examined;
    }
    keep_labels(table, rest, f, marks);
    keep_macs(table, rest, f, marks);
    examined
}

// Clears the slots of a range that a good payload means, by marks: for many slots.
fn clear_by_marks(
    ingress: u32,
    nicks: &[u8],
    rest: &[u8],
    f: Kinds,
    from: usize,
    count: usize,
    table: &mut [u8],
) -> Sweep
    requires { Within from count table.old × ((block_bytes * f.blocks ≤ length rest.now) × Noted every_type f.blocks (pieces_of f.blocks rest.now) f) }
    ensures { on_table result table.new ≡ swept_in (slot_meant every_type (payload_from nicks.now f.blocks rest.now) ingress) from count table.old }
{
    let mut marks = [0u8; MARK_BYTES];
    let examined = mark_meant(ingress, nicks, rest, f, table, from, count, &mut marks);
    let cleared = flush_marks::clear_marked(table, &marks);
    Sweep { cleared, examined }
}

// Clears the slots of a range that a good payload means. Where they are few, a walk over the message for each costs less than to prepare
// marks.
fn clear_range(
    ingress: u32,
    nicks: &[u8],
    rest: &[u8],
    f: Kinds,
    from: usize,
    count: usize,
    table: &mut [u8],
) -> Sweep
    requires { Within from count table.old × ((block_bytes * f.blocks ≤ length rest.now) × Noted every_type f.blocks (pieces_of f.blocks rest.now) f) }
    ensures { on_table result table.new ≡ swept_in (slot_meant every_type (payload_from nicks.now f.blocks rest.now) ingress) from count table.old }
{
    if (count <= FEW_SLOTS) | ((count <= SOME_SLOTS) & (rest.len() <= SHORT_BYTES)) {
        return flush_walk::clear_walked(ingress, nicks, rest, f, from, count, table);
    }
    clear_by_marks(ingress, nicks, rest, f, from, count, table)
}

// Judges a payload, and clears what it means in a range of slots; a corrupt one changes nothing.
pub fn clear_portion(
    ingress: u32,
    payload: &[u8],
    from: usize,
    count: usize,
    table: &mut [u8],
) -> Result<Sweep, Refusal>
    requires { Within from count table.old }
    ensures { on_table result table.new ≡ cleared_on table.old (sweeping_in every_type ingress payload.now from count table.old) }
{
    let f = flush_payload::judge(Model::Full, payload)?;
    let k = flush_payload::nick_bytes(payload);
    let a = 1 + k;
    let s = 2 + k;
    Ok(clear_range(
        ingress,
        &payload[1..a],
        &payload[s..],
        f,
        from,
        count,
        table,
    ))
}

// The same in all slots.
pub fn clear_meant(ingress: u32, payload: &[u8], table: &mut [u8]) -> Result<usize, Refusal>
    requires { slots_of table.old ≤ most_slots }
    ensures { on_table result table.new ≡ cleared_on table.old (clearing every_type ingress payload.now table.old) }
{
    let n = table.len() / SLOT_BYTES;
    // No `?`: the edit corrupt_cleared changes an arm.
    let s = match clear_portion(ingress, payload, 0, n, table) {
        Ok(s) => s,
        Err(r) => return Err(r),
    };
    Ok(s.cleared)
}

// The flush call.
pub fn flush(ingress: u32, payload: &[u8], table: &mut [u8]) -> Result<u16, Refusal>
    ensures { on_table result table.new ≡ flushed ingress payload.now table.old }
{
    if !table_records::table_good(table) {
        return Err(Refusal::TableLengthBad);
    }
    let n = clear_meant(ingress, payload, table)?;
    Ok(n as u16)
}
