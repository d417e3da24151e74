// The VLANs that a flush message means, as a set of bits: made once for a message, tested for each record.
#![tactic(auto)]

ghost use Rattle.std.specs.Prelude.{◌*◌, ◌≤◌, ◌≡◌, length};
ghost use Rattle.flush.specs.Payload.{tlv, tlvs, block_bytes, pieces_of};
ghost use Rattle.flush_sets.specs.Gains.{Gains, None};
ghost use Rattle.flush_vlans.specs.Vlans.{vlan_bytes, vlans_in, vlans_of, VlansNoted, VlansMeant};

use flush_payload::Kinds;

// A bit for each VLAN.
pub const VLAN_BYTES: usize = 512;

// Adds the VLANs that a TLV names: type 1 blocks, type 2 a bit map.
fn add_value(k: u8, v: &[u8], s: &mut [u8])
    requires { length s.old ≡ vlan_bytes }
    ensures { Gains s.old s.new (vlans_in (tlv k v.now)) }
{
    if k == 1 {
        flush_sets::add_blocks(v, s);
        return;
    }
    if k == 2 {
        flush_sets::add_map(v, s);
    }
}

// Adds the VLANs that TLVs name.
fn add_tlvs(l: &[u8], s: &mut [u8])
    requires { length s.old ≡ vlan_bytes }
    ensures { Gains s.old s.new (vlans_of (tlvs l.now)) }
{
    let mut at = 0;
    // A `while`: the step is the length of the TLV.
    while at < l.len() {
        let e = flush_tlvs::end_of(l, at);
        if l.len() < e {
            return;
        }
        let f = at + 2;
        add_value(l[at], &l[f..e], s);
        at = e;
    }
}

// Adds the VLANs of a message that does not mean every label. Where no type of VLANs was noted there is no walk.
fn add_named(rest: &[u8], f: Kinds, s: &mut [u8])
    requires { (block_bytes * f.blocks ≤ length rest.now) × (VlansNoted (pieces_of f.blocks rest.now) f × (length s.old ≡ vlan_bytes)) }
    ensures { Gains s.old s.new (vlans_of (pieces_of f.blocks rest.now)) }
{
    if f.blocks != 0 {
        let e = 4 * f.blocks;
        flush_sets::add_blocks(&rest[..e], s);
        return;
    }
    if f.vlans {
        add_tlvs(rest, s);
    }
}

// The VLANs meant: all of them, or those that the message names.
pub fn vlan_set(rest: &[u8], f: Kinds, s: &mut [u8])
    requires { ((block_bytes * f.blocks ≤ length rest.now) × VlansNoted (pieces_of f.blocks rest.now) f) × ((length s.old ≡ vlan_bytes) × None s.old) }
    ensures { VlansMeant (pieces_of f.blocks rest.now) s.new }
{
    if f.every {
        flush_bits::fill(s, 0, VLAN_BYTES);
        return;
    }
    add_named(rest, f, s);
}
