// Clearing by a walk: each slot of a range is judged by the message itself, with nothing prepared. For few slots this costs less than
// making sets of what the message means.
#![tactic(auto)]

ghost use Rattle.std.specs.Prelude.{◌+◌, ◌*◌, ◌≤◌, ◌≡◌, length, drop};
ghost use Rattle.numbers.specs.After.{on_table};
ghost use Rattle.table.specs.Record.{record_bytes, record_of, kind_of, label_of, mac_of};
ghost use Rattle.table.specs.Slots.{slot_bytes};
ghost use Rattle.flush.specs.Payload.{block_bytes, pieces_of};
ghost use Rattle.flush_marks.specs.Marks.{swept_in};
ghost use Rattle.flush_marks.specs.Filters.{Within};
ghost use Rattle.flush_walk.specs.Noted.{label_noted, mac_noted, slot_noted};

use flush_marks::Sweep;
use flush_payload::Kinds;
use table::{SLOT_BYTES, VLAN_KIND};

// Whether the label of the record at an offset is meant. A fine-grained one is looked for only where some were noted.
fn label_passes(rest: &[u8], f: Kinds, t: &[u8], at: usize) -> bool
    requires { (block_bytes * f.blocks ≤ length rest.now) × (at + record_bytes ≤ length t.now) }
    ensures { result ≡ label_noted f (pieces_of f.blocks rest.now) (kind_of (record_of (drop at t.now))) (label_of (record_of (drop at t.now))) }
{
    let kind = table_fields::kind_at(t, at);
    if (kind != VLAN_KIND) & !(f.lists | f.maps) {
        return f.every;
    }
    flush_payload::label_meant(rest, f.blocks, kind, table_fields::label_at(t, at))
}

// Whether its MAC is meant. MACs are looked for only where some were noted.
fn mac_passes(rest: &[u8], f: Kinds, t: &[u8], at: usize) -> bool
    requires { at + record_bytes ≤ length t.now }
    ensures { result ≡ mac_noted f (pieces_of f.blocks rest.now) (mac_of (record_of (drop at t.now))) }
{
    if !f.macs {
        return true;
    }
    let gathered = flush_payload::some_mac(rest, f.blocks);
    flush_payload::mac_meant(rest, f.blocks, gathered, table_fields::mac_at(t, at))
}

// Whether the slot at an offset is meant. The nickname decides most slots.
fn meant_at(ingress: u32, nicks: &[u8], rest: &[u8], f: Kinds, t: &[u8], at: usize) -> bool
    requires { (block_bytes * f.blocks ≤ length rest.now) × (at + slot_bytes ≤ length t.now) }
    ensures { result ≡ slot_noted f nicks.now (pieces_of f.blocks rest.now) ingress (drop at t.now) }
{
    if !flush_payload::nickname_meant(nicks, ingress, table_fields::nickname_at(t, at)) {
        return false;
    }
    if !table_states::learned_at(t, at) {
        return false;
    }
    if !label_passes(rest, f, t, at) {
        return false;
    }
    mac_passes(rest, f, t, at)
}

// Clears the slots of a range that are meant, and counts them and those that it examined.
pub fn clear_walked(
    ingress: u32,
    nicks: &[u8],
    rest: &[u8],
    f: Kinds,
    from: usize,
    count: usize,
    table: &mut [u8],
) -> Sweep
    requires { Within from count table.old × (block_bytes * f.blocks ≤ length rest.now) }
    ensures { on_table result table.new ≡ swept_in (slot_noted f nicks.now (pieces_of f.blocks rest.now) ingress) from count table.old }
{
    let mut cleared = 0;
    let mut examined = 0;
    for i in 0..count {
        examined += 1;
        let a = SLOT_BYTES * (from + i);
        if meant_at(ingress, nicks, rest, f, table, a) {
            let e = a + SLOT_BYTES;
            table_records::clear(&mut table[a..e]);
            cleared += 1;
        }
    }
    Sweep { cleared, examined }
}
