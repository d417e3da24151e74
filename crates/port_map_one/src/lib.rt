// A map of at most one pair, as bytes: what a call that searches a map for one label or one VLAN does with it, it does with the slice of
// pairs that was searched.
#![tactic(auto)]

ghost use Rattle.std.specs.Prelude.{◌≤◌, ◌≡◌};
ghost use Rattle.port_map_pairs.specs.Pairs.{pair_bytes_of};
ghost use Rattle.port_map_one.specs.One.{other_label, other_vlan, pair_for_label, pair_for_vlan, lent_bytes};

use port_map::{CampusLabel, PAIR_BYTES, PortVlan};
use port_map_pairs::MapPair;

// A label and a VLAN that are not these.
fn other_label(l: CampusLabel) -> CampusLabel
    ensures { result ≡ other_label l }
{
    if l.0 == 0 {
        return CampusLabel(1);
    }
    CampusLabel(0)
}

fn other_vlan(v: PortVlan) -> PortVlan
    ensures { result ≡ other_vlan v }
{
    if v.0 == 1 {
        return PortVlan(2);
    }
    PortVlan(1)
}

// The pair that a search for a label found, or one that it does not find.
pub fn pair_for_label(l: CampusLabel, found: Option<PortVlan>) -> MapPair
    ensures { result ≡ pair_for_label l found }
{
    match found {
        None => {
            let other = other_label(l);
            let v = PortVlan(1);
            MapPair {
                vlan: v,
                label: other,
            }
        }
        Some(v) => MapPair { vlan: v, label: l },
    }
}

// The same for a VLAN.
pub fn pair_for_vlan(v: PortVlan, found: Option<CampusLabel>) -> MapPair
    ensures { result ≡ pair_for_vlan v found }
{
    match found {
        None => {
            let other = other_vlan(v);
            let l = CampusLabel(0);
            MapPair {
                vlan: other,
                label: l,
            }
        }
        Some(l) => MapPair { vlan: v, label: l },
    }
}

// The bytes of a pair.
pub fn pair_bytes(p: MapPair) -> [u8; 6]
    ensures { result ≡ pair_bytes_of p }
{
    let v = p.vlan.0;
    let l = p.label.0;
    [
        (v / 0x100) as u8,
        (v % 0x100) as u8,
        (l / 0x100_0000) as u8,
        (l / 0x1_0000 % 0x100) as u8,
        (l / 0x100 % 0x100) as u8,
        (l % 0x100) as u8,
    ]
}

// A part of a pair is no map.
const BAD_BYTES: usize = 1;

// How many of these bytes are the map, of a slice of n pairs: none for no pair, all for a good one.
pub fn lent_bytes(n: usize, good: bool) -> usize
    ensures { (result ≡ lent_bytes n good) × (result ≤ 6) }
{
    if n == 0 {
        return 0;
    }
    if good {
        return PAIR_BYTES;
    }
    BAD_BYTES
}
