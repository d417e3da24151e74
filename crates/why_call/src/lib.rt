// Why a flush clears a slot or leaves it: the table, the slot and the whole payload are judged as the flush judges them, and then the record
// in the slot, set by set.
#![tactic(auto)]

ghost use Rattle.std.specs.Prelude.{◌+◌, ◌<◌, ◌≤◌, ◌≡◌, length, drop};
ghost use Rattle.table.specs.Record.{record_bytes, record_of, entry_of, unpacked};
ghost use Rattle.table.specs.Slots.{slot_bytes};
ghost use Rattle.flush.specs.Payload.{every_type, block_count, made};
ghost use Rattle.flush_payload.specs.Judging.{JudgedPayload};
ghost use Rattle.why.specs.Why.{learned_reason, reason_of, why};
ghost use Rattle.why_call.specs.Cut.{cut, GoodRest, GoodParts};

use flush::Model;
use flush_payload::Kinds;
use numbers::refusals::Refusal;
use table::{SLOT_BYTES, Slot};
use why::{Places, Reason};

// The bytes of a VLAN block.
const BLOCK_BYTES: usize = 4;

// The reason of the learned record at an offset of the table, by the bytes of the nicknames, what was noted and the bytes behind K-VLBs.
// Its fields are read where they are asked for.
fn learned_reason(ingress: u32, nicks: &[u8], rest: &[u8], f: Kinds, t: &[u8], at: usize) -> Reason
    requires { (length nicks.now < 512) × (GoodRest f rest.now × (at + record_bytes ≤ length t.now)) }
    ensures { result ≡ learned_reason f.blocks (cut nicks.now f.blocks rest.now) ingress (entry_of (record_of (drop at t.now))) }
{
    let own = table_fields::nickname_at(t, at);
    let Some(nickname) = why_places::nickname_found(nicks, ingress, own) else {
        return Reason::NicknameNotMeant;
    };
    let kind = table_fields::kind_at(t, at);
    let number = table_fields::label_at(t, at);
    let Some(label) = why_places::label_found(rest, f.blocks, kind, number) else {
        return Reason::LabelNotMeant;
    };
    let address = table_fields::mac_at(t, at);
    let Some(mac) = why_places::mac_found(rest, f.blocks, f.macs, address) else {
        return Reason::MacNotMeant;
    };
    Reason::Cleared(Places {
        nickname,
        label,
        mac,
    })
}

// The same by a good payload of which this was noted.
fn payload_reason(ingress: u32, payload: &[u8], f: Kinds, t: &[u8], at: usize) -> Reason
    requires { GoodParts payload.now f × (at + record_bytes ≤ length t.now) }
    ensures { result ≡ learned_reason (block_count payload.now) (made payload.now) ingress (entry_of (record_of (drop at t.now))) }
{
    let k = flush_payload::nick_bytes(payload);
    let a = 1 + k;
    let s = 2 + k;
    learned_reason(ingress, &payload[1..a], &payload[s..], f, t, at)
}

// The reason of what the slot at an offset holds. A learned record is known first; the second arm for it is never taken.
fn slot_reason(ingress: u32, payload: &[u8], f: Kinds, t: &[u8], at: usize) -> Reason
    requires { GoodParts payload.now f × (at + slot_bytes ≤ length t.now) }
    ensures { result ≡ reason_of (block_count payload.now) (made payload.now) ingress (unpacked (drop at t.now)) }
{
    if table_states::learned_at(t, at) {
        return payload_reason(ingress, payload, f, t, at);
    }
    match table_records::unpack(t, at) {
        Slot::Free => Reason::Free,
        Slot::Spoilt => Reason::Spoilt,
        Slot::Learned(_) => Reason::Spoilt,
        Slot::Configured(_) => Reason::Configured,
    }
}

// Judges a payload: VLAN blocks here, where they are counted and no more, and TLVs as the flush judges them.
fn judge(payload: &[u8]) -> Result<Kinds, Refusal>
    ensures { JudgedPayload every_type payload.now result }
{
    if payload.len() < 2 {
        return Err(Refusal::PayloadCorrupt);
    }
    let s = 2 + flush_payload::nick_bytes(payload);
    if payload.len() < s {
        return Err(Refusal::PayloadCorrupt);
    }
    let blocks = flush_payload::block_count(payload);
    if blocks == 0 {
        return flush_payload::judge(Model::Full, payload);
    }
    if payload.len() - s < BLOCK_BYTES * blocks {
        return Err(Refusal::PayloadCorrupt);
    }
    Ok(Kinds {
        blocks,
        every: false,
        vlans: false,
        lists: false,
        maps: false,
        macs: false,
    })
}

// Why did this address go? 2, then 24, then 15 for the whole payload. Nothing is changed.
pub fn explain(ingress: u32, payload: &[u8], slot: usize, table: &[u8]) -> Result<Reason, Refusal>
    ensures { result ≡ why ingress payload.now slot table.now }
{
    if !table_records::table_good(table) {
        return Err(Refusal::TableLengthBad);
    }
    if table.len() / SLOT_BYTES <= slot {
        return Err(Refusal::PortionBad);
    }
    let at = SLOT_BYTES * slot;
    // No `?`: the edit corrupt_24 changes an arm.
    let f = match judge(payload) {
        Ok(f) => f,
        Err(r) => return Err(r),
    };
    Ok(slot_reason(ingress, payload, f, table, at))
}
