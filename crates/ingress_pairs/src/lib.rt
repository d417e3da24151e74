// Inbound through a port's map that is lent as a slice of pairs: the slice is judged and searched once, for the VLAN of the frame's tag,
// and what was found is the map with which the frame is taken in.
#![tactic(auto)]

ghost use Rattle.std.specs.Prelude.{List, ◌≡◌};
ghost use Rattle.numbers.specs.After.{on_area};
ghost use Rattle.ingress.specs.Ingress.{ingressed};
ghost use Rattle.port_map_pairs.specs.Pairs.{map_bytes_of};
ghost use Rattle.port_map_pairs.specs.declared.MapPair.{MapPair as Pair};
ghost use Rattle.port_map_one.specs.One.{VlanSearched};
ghost use Rattle.ingress_pairs.specs.Meaning.{VlanAsked};

use frame::{LABEL_PART, Settings, TAGGED_ADDRESSES_BYTES, UNTAGGED_OUTER_BYTES};
use ingress::Given;
use numbers::refusals::Refusal;
use port_map::{CampusLabel, PortVlan};
use port_map_pairs::MapPair;

// The VLAN in a native frame's tag; any other where the tag is not there.
pub fn vlan_asked(f: &[u8]) -> PortVlan
    ensures { VlanAsked f.now result }
{
    if f.len() < TAGGED_ADDRESSES_BYTES {
        return PortVlan(0);
    }
    let w = numbers::be2(f, UNTAGGED_OUTER_BYTES);
    PortVlan((w % LABEL_PART) as u16)
}

// The ingress call with what was found in a slice of n pairs.
pub fn ingress_found(
    s: Settings,
    n: usize,
    good: bool,
    v: PortVlan,
    found: Option<CampusLabel>,
    u: Given,
    f: &[u8],
    out: &mut [u8],
) -> Result<u16, Refusal>
    ensures { (ps : List Pair) → VlanSearched ps n good v found → VlanAsked f.now v → on_area result out.new ≡ ingressed s (map_bytes_of ps) u f.now out.old }
{
    let p = port_map_one::pair_for_vlan(v, found);
    let one = port_map_one::pair_bytes(p);
    let k = port_map_one::lent_bytes(n, good);
    ingress_call::ingress(s, &one[0..k], u, f, out)
}

// The ingress call with a port's map as a slice of pairs.
pub fn ingress_mapped(
    s: Settings,
    map: &[MapPair],
    u: Given,
    f: &[u8],
    out: &mut [u8],
) -> Result<u16, Refusal>
    ensures { on_area result out.new ≡ ingressed s (map_bytes_of map.now) u f.now out.old }
{
    let good = port_map_pairs::map_good(map);
    let v = vlan_asked(f);
    let found = port_map_pairs::label_for(map, v);
    ingress_found(s, map.len(), good, v, found, u, f, out)
}
