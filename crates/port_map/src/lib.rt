// A port's map between its VLANs and the campus's fine-grained labels (2026-01). The definitions are in specs/.
#![tactic(auto)]

ghost use Rattle.port_map.specs.Claims.{SearchInverse};

// A VLAN number as a port numbers them, and a fine-grained label as the campus does: two numberings, which no function mixes.
#[derive(Clone, Copy)]
pub struct PortVlan(pub u16);

#[derive(Clone, Copy)]
pub struct CampusLabel(pub u32);

// A pair: the VLAN, and the label from this offset on.
pub const PAIR_BYTES: usize = 6;

pub const LABEL_OFFSET: usize = 2;

// The priority of a tag, and of half a fine-grained label, is the number of this bit in its two bytes and above; DEI is the bit below.
pub const PRIORITY_BIT: u64 = 0x2000;

// What holds of the definition of a map.
pub fn claims()
    ensures { SearchInverse }
{}
