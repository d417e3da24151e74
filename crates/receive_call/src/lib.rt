// Reading a frame: the order of the refusals, and what the fields lead to. The frame is judged to a verdict by value, the port's map is
// searched by the label in it, and the outcome is carried out: only the search and the judge of a map are lent one.
// Refusals are handed on by a `match`: with `?` a frame that goes onward takes 1.2 times as long.
#![tactic(auto)]

ghost use Rattle.std.specs.Prelude.{◌≤◌, true, [], length, ◌≡◌, Err};
ghost use Rattle.numbers.specs.Result.{settled};
ghost use Rattle.numbers.specs.After.{on_both};
ghost use Rattle.table.specs.Slots.{table_good};
ghost use Rattle.frame.specs.Settings.{settings_good, default_life};
ghost use Rattle.frame.specs.Front.{addresses_bytes};
ghost use Rattle.frame.specs.Formats.{longest_frame, compact, parsed};
ghost use Rattle.frame.specs.Fields.{Fields};
ghost use Rattle.receive.specs.Delivering.{native_out};
ghost use Rattle.receive.specs.Receive.{acted, port_received, received};
ghost use Rattle.frame_parse.specs.Meaning.{fields_in, PartsOf, Reads};
ghost use Rattle.receive_deliver.specs.Meaning.{Asks, native_as};

use frame::{
    ADDRESSES_BYTES, CHANNEL_ETHERTYPE, COMPACT_ON, LONGEST_FRAME, SHORTEST_FRAME, Settings,
};
use frame_fields::Front;
use frame_parse::Parts;
use numbers::refusals::Refusal;
use port_map::PRIORITY_BIT;
use receive::ReadAnswer;
use receive_decide::Step;
use receive_deliver::{Tag, Wanted};

// The tag that a map which is not empty gives to what is asked of it: the VLAN found, with the second label part's priority and DEI 0.
fn tag_for(map: &[u8], w: Wanted) -> Tag
    requires { length map.now ≡ 0 → ⊥ }
    ensures { (p : Fields) → Asks w p → native_as result p ≡ native_out map.now p }
{
    match w {
        Wanted::Nothing => Tag::Untagged,
        Wanted::Vlan { label, second } => {
            let found = port_map_search::vlan_for(map, label);
            match found {
                None => Tag::Missing,
                Some(v) => Tag::Number(second as u64 / PRIORITY_BIT * PRIORITY_BIT + v.0 as u64),
            }
        }
    }
}

// The tag of a frame that is delivered; without a map it is as it was.
fn tag_of(map: &[u8], f: &[u8], p: Parts) -> Tag
    requires { PartsOf f.now p }
    ensures { native_as result (fields_in f.now p) ≡ native_out map.now (fields_in f.now p) }
{
    if map.len() == 0 {
        return Tag::Untagged;
    }
    tag_for(map, receive_deliver::label_asks(f, p))
}

// Acts on the fields of a frame.
fn act(
    s: Settings,
    map: &[u8],
    f: &[u8],
    p: Parts,
    table: &mut [u8],
    out: &mut [u8],
) -> Result<ReadAnswer, Refusal>
    requires { (settings_good s ≡ true) × ((table_good table.old ≡ true) × PartsOf f.now p) }
    ensures { on_both result table.new out.new ≡ settled (λ n. on_both (Err n) table.old out.old) (acted map.now default_life s (fields_in f.now p) table.old out.old) }
{
    let v = receive_decide::read_values(f, p);
    let channel = frame_fields::has_ethertype(f, p.content_offset, CHANNEL_ETHERTYPE);
    match receive_decide::decide(s, v, channel) {
        Err(e) => Err(e),
        Ok(step) => match step {
            Step::Onward => Ok(ReadAnswer::Onward),
            Step::Channel => receive_channel::handle(s, v, f, p, table),
            Step::Native => {
                let tag = tag_of(map, f, p);
                receive_deliver::deliver(s, v, f, p, tag, table, out)
            }
        },
    }
}

// As `frame_parse::read_compact` and `frame_parse::parse`. With one caller each both are a part of their callers' code, here and there: as a
// call parsing takes as long again as a frame that is refused.
fn compact_mapped(f: &[u8]) -> Result<Parts, Refusal>
    requires { (addresses_bytes ≤ length f.now) × (length f.now ≤ longest_frame) }
    ensures { Reads f.now (compact f.now) result }
{
    match frame_fields::label_length(frame_fields::after(f, ADDRESSES_BYTES)) {
        Err(e) => Err(e),
        Ok(k) => frame_parse::compact_after_label(f, k),
    }
}

fn parse_mapped(s: Settings, f: &[u8]) -> Result<Parts, Refusal>
    ensures { Reads f.now (parsed s f.now) result }
{
    let n = f.len();
    if n < SHORTEST_FRAME {
        return Err(Refusal::FrameLengthBad);
    }
    if LONGEST_FRAME < n {
        return Err(Refusal::FrameLengthBad);
    }
    let d = frame_fields::front_of(s.port, numbers::be6(f, 0));
    match d {
        Front::Unicast => frame_parse::read_general(d, f),
        Front::Multicast => frame_parse::read_general(d, f),
        Front::Refused => Err(Refusal::NotForPort),
        Front::Inner => {
            if s.compact == COMPACT_ON {
                return compact_mapped(f);
            }
            Err(Refusal::NotForPort)
        }
    }
}

// The reading call with a port's map.
pub fn receive_port(
    s: Settings,
    map: &[u8],
    f: &[u8],
    table: &mut [u8],
    out: &mut [u8],
) -> Result<ReadAnswer, Refusal>
    ensures { on_both result table.new out.new ≡ port_received s map.now f.now table.old out.old }
{
    if !frame_settings::settings_good(s) {
        return Err(Refusal::SettingsBad);
    }
    if !table_records::table_good(table) {
        return Err(Refusal::TableLengthBad);
    }
    if !port_map_judge::map_good_for_reading(map) {
        return Err(Refusal::MapBad);
    }
    match parse_mapped(s, f) {
        Err(e) => Err(e),
        Ok(p) => act(s, map, f, p, table, out),
    }
}

// Acts on the fields of a frame where there is no map. Their values are read again for a delivery, so that they need not stand in memory
// before it is known that there is one.
fn act_unmapped(
    s: Settings,
    f: &[u8],
    p: Parts,
    table: &mut [u8],
    out: &mut [u8],
) -> Result<ReadAnswer, Refusal>
    requires { (settings_good s ≡ true) × ((table_good table.old ≡ true) × PartsOf f.now p) }
    ensures { on_both result table.new out.new ≡ settled (λ n. on_both (Err n) table.old out.old) (acted [] default_life s (fields_in f.now p) table.old out.old) }
{
    let v = receive_decide::read_values(f, p);
    let is_channel = frame_fields::has_ethertype(f, p.content_offset, CHANNEL_ETHERTYPE);
    match receive_decide::decide(s, v, is_channel) {
        Err(e) => Err(e),
        Ok(step) => match step {
            Step::Onward => Ok(ReadAnswer::Onward),
            Step::Channel => receive_channel::handle(s, v, f, p, table),
            Step::Native => {
                let w = receive_decide::read_values(f, p);
                receive_deliver::deliver(s, w, f, p, Tag::Untagged, table, out)
            }
        },
    }
}

// The reading call without one. It has its own steps: as a call of `receive_port` it is not inlined, and a frame that is refused or goes
// onward takes two to three times as long.
pub fn receive(
    s: Settings,
    f: &[u8],
    table: &mut [u8],
    out: &mut [u8],
) -> Result<ReadAnswer, Refusal>
    ensures { on_both result table.new out.new ≡ received s f.now table.old out.old }
{
    if !frame_settings::settings_good(s) {
        return Err(Refusal::SettingsBad);
    }
    if !table_records::table_good(table) {
        return Err(Refusal::TableLengthBad);
    }
    match frame_parse::parse(s, f) {
        Err(e) => Err(e),
        Ok(p) => act_unmapped(s, f, p, table, out),
    }
}
