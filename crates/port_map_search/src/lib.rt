// A port's map: the pair at an offset, and the two searches.
#![tactic(auto)]

ghost use Rattle.std.specs.Prelude.{◌+◌, ◌≤◌, ◌≡◌, length};
ghost use Rattle.port_map.specs.Maps.{pair_bytes, pairs_in, label_for, vlan_for};
ghost use Rattle.port_map_search.specs.Meaning.{pair_at, label_as, vlan_as};

use port_map::{CampusLabel, LABEL_OFFSET, PAIR_BYTES, PortVlan};

// The VLAN of the pair at an offset, and its label.
pub fn vlan_at(map: &[u8], at: usize) -> PortVlan
    requires { at + pair_bytes ≤ length map.now }
    ensures { result ≡ (pair_at map.now at).vlan }
{
    PortVlan(numbers::be2(map, at) as u16)
}

pub fn label_at(map: &[u8], at: usize) -> CampusLabel
    requires { at + pair_bytes ≤ length map.now }
    ensures { result ≡ (pair_at map.now at).label }
{
    CampusLabel(numbers::be4(map, at + LABEL_OFFSET) as u32)
}

// The label of a VLAN.
pub fn label_for(map: &[u8], v: PortVlan) -> Option<CampusLabel>
    ensures { label_as result ≡ label_for (pairs_in map.now) v }
{
    let mut pairs = map.chunks_exact(PAIR_BYTES);
    match pairs.find(|pair| vlan_at(pair, 0).0 == v.0) {
        Some(pair) => Some(label_at(pair, 0)),
        None => None,
    }
}

// The VLAN of a label.
pub fn vlan_for(map: &[u8], l: CampusLabel) -> Option<PortVlan>
    ensures { vlan_as result ≡ vlan_for (pairs_in map.now) l }
{
    let mut pairs = map.chunks_exact(PAIR_BYTES);
    match pairs.find(|pair| label_at(pair, 0).0 == l.0) {
        Some(pair) => Some(vlan_at(pair, 0)),
        None => None,
    }
}
