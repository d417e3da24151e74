// The flush of the small model: the same judging and the same marks as those of the full one, at the types that it implements. It names no
// fine-grained label and no MAC, so that the first pass decides.
#![tactic(auto)]

ghost use Rattle.std.specs.Prelude.{◌*◌, ◌≤◌, ◌≡◌, length};
ghost use Rattle.numbers.specs.After.{on_table};
ghost use Rattle.table.specs.Slots.{most_slots, slots_of};
ghost use Rattle.flush.specs.Payload.{vlan_types, block_bytes, pieces_of};
ghost use Rattle.flush.specs.Flush.{slot_meant, cleared_by};
ghost use Rattle.flush_payload.specs.Judging.{Noted};
ghost use Rattle.flush_call.specs.Clearing.{payload_from};
ghost use Rattle.models.specs.Models.{flushed_vlan_only};

use flush::Model;
use flush_marks::MARK_BYTES;
use flush_payload::Kinds;
use numbers::refusals::Refusal;
use table::SLOT_BYTES;

// Clears the slots that a good payload means to the small model. Where it names no label there is nothing to do.
fn clear_vlans(ingress: u32, nicks: &[u8], rest: &[u8], f: Kinds, table: &mut [u8]) -> usize
    requires { (slots_of table.old ≤ most_slots) × ((block_bytes * f.blocks ≤ length rest.now) × Noted vlan_types f.blocks (pieces_of f.blocks rest.now) f) }
    ensures { on_table result table.new ≡ cleared_by (slot_meant vlan_types (payload_from nicks.now f.blocks rest.now) ingress) table.old }
{
    if (f.blocks == 0) & !(f.every | f.vlans) {
        return 0;
    }
    let n = table.len() / SLOT_BYTES;
    let mut marks = [0u8; MARK_BYTES];
    flush_nicknames::mark(ingress, nicks, rest, f, table, 0, n, &mut marks);
    flush_marks::clear_marked(table, &marks)
}

// The flush call of the small model: 2, then 15.
pub fn flush_vlan_only(ingress: u32, payload: &[u8], table: &mut [u8]) -> Result<u16, Refusal>
    ensures { on_table result table.new ≡ flushed_vlan_only ingress payload.now table.old }
{
    if !table_records::table_good(table) {
        return Err(Refusal::TableLengthBad);
    }
    // No `?`: the edit corrupt_cleared changes an arm.
    let f = match flush_payload::judge(Model::VlanOnly, payload) {
        Ok(f) => f,
        Err(r) => return Err(r),
    };
    let k = flush_payload::nick_bytes(payload);
    let a = 1 + k;
    let s = 2 + k;
    let n = clear_vlans(ingress, &payload[1..a], &payload[s..], f, table);
    Ok(n as u16)
}
