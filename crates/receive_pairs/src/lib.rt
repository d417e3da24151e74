// Reading with a port's map that is lent as a slice of pairs: the slice is judged and searched once, for the label that the frame asks for,
// and what was found is the map with which the frame is read.
#![tactic(auto)]

ghost use Rattle.std.specs.Prelude.{List, ◌≡◌};
ghost use Rattle.numbers.specs.After.{on_both};
ghost use Rattle.receive.specs.Receive.{port_received};
ghost use Rattle.port_map_pairs.specs.Pairs.{map_bytes_of};
ghost use Rattle.port_map_pairs.specs.declared.MapPair.{MapPair as Pair};
ghost use Rattle.port_map_one.specs.One.{LabelSearched};
ghost use Rattle.receive_pairs.specs.Meaning.{LabelAsked};

use frame::Settings;
use numbers::refusals::Refusal;
use port_map::{CampusLabel, PortVlan};
use port_map_pairs::MapPair;
use receive::ReadAnswer;
use receive_deliver::Wanted;

// The label that a frame asks of a map; any other where it asks for none.
pub fn label_asked(s: Settings, f: &[u8]) -> CampusLabel
    ensures { LabelAsked s f.now result }
{
    match frame_parse::parse(s, f) {
        Err(_) => CampusLabel(0),
        Ok(p) => match receive_deliver::label_asks(f, p) {
            Wanted::Nothing => CampusLabel(0),
            Wanted::Vlan { label, second } => label,
        },
    }
}

// Reading with what was found in a slice of n pairs.
pub fn receive_found(
    s: Settings,
    n: usize,
    good: bool,
    l: CampusLabel,
    found: Option<PortVlan>,
    f: &[u8],
    table: &mut [u8],
    out: &mut [u8],
) -> Result<ReadAnswer, Refusal>
    ensures { (ps : List Pair) → LabelSearched ps n good l found → LabelAsked s f.now l → on_both result table.new out.new ≡ port_received s (map_bytes_of ps) f.now table.old out.old }
{
    let p = port_map_one::pair_for_label(l, found);
    let one = port_map_one::pair_bytes(p);
    let k = port_map_one::lent_bytes(n, good);
    receive_call::receive_port(s, &one[0..k], f, table, out)
}

// The reading call with a port's map as a slice of pairs.
pub fn receive_mapped(
    s: Settings,
    map: &[MapPair],
    f: &[u8],
    table: &mut [u8],
    out: &mut [u8],
) -> Result<ReadAnswer, Refusal>
    ensures { on_both result table.new out.new ≡ port_received s (map_bytes_of map.now) f.now table.old out.old }
{
    let good = port_map_pairs::map_good(map);
    let l = label_asked(s, f);
    let found = port_map_pairs::vlan_for(map, l);
    receive_found(s, map.len(), good, l, found, f, table, out)
}
