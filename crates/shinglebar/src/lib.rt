// The C boundary: each public call over plain numbers and byte areas, with its answer packed into one word. A refusal is its number
// alone; otherwise the low byte is the kind, and the other bits are the values.
#![tactic(auto)]

ghost use Rattle.std.specs.Prelude.{◌^◌, ◌<◌, ◌≤◌, ◌≡◌, Ok};
ghost use Rattle.numbers.specs.After.{on_table, table_as, on_area, area_as, on_both, both_as};
ghost use Rattle.table.specs.FreeSlot.{free_answered};
ghost use Rattle.table.specs.Record.{label_number};
ghost use Rattle.table.specs.Table.{looked_up, aged, lowest_spoilt};
ghost use Rattle.table.specs.Widening.{widened};
ghost use Rattle.table.specs.Words.{lookup_word, age_word, spoilt_word, free_word, widen_word, learning_number};
ghost use Rattle.report.specs.Report.{report_word, reported_to};
ghost use Rattle.flush.specs.Flush.{flushed};
ghost use Rattle.flush.specs.Words.{flush_word};
ghost use Rattle.models.specs.Models.{flushed_vlan_only};
ghost use Rattle.portions.specs.Portion.{portioned};
ghost use Rattle.portions.specs.Words.{portion_word};
ghost use Rattle.why.specs.Why.{why};
ghost use Rattle.why.specs.Words.{why_word};
ghost use Rattle.flush_write.specs.Areas.{flush_written};
ghost use Rattle.flush_write.specs.Words.{write_word};
ghost use Rattle.hello.specs.Calls.{read_call, write_call};
ghost use Rattle.hello.specs.Words.{hello_word};
ghost use Rattle.receive.specs.Receive.{port_received, received};
ghost use Rattle.receive.specs.Words.{read_word, LabelFits};
ghost use Rattle.receive.specs.declared.ReadAnswer.TheVariants.{Delivered};
ghost use Rattle.convert.specs.Compaction.{compacted};
ghost use Rattle.convert.specs.Expansion.{expanded};
ghost use Rattle.convert.specs.Sending.{sent};
ghost use Rattle.ingress.specs.Ingress.{ingressed};
ghost use Rattle.convert.specs.Words.{convert_word, send_word};
ghost use Rattle.shinglebar.specs.Arguments.{port_settings_of, settings_of, outer_of, given_of};

use convert_expand::Outer;
use frame::Settings;
use ingress::Given;
use numbers::refusals::Refusal;
use portions::Portion;
use receive::ReadAnswer;
use table::{FreeAnswer, Label, Learning};

pub mod watched;

// The word of an answer that gives a number or none.
pub fn found_word(a: Result<Option<u16>, Refusal>) -> u64
    ensures lookup { result ≡ lookup_word a }
    ensures spoilt { result ≡ spoilt_word a }
    ensures send { result ≡ send_word a }
{
    match a {
        Err(r) => u64::from(r),
        Ok(Some(k)) => 64 + k as u64 * 0x100,
        Ok(None) => 65,
    }
}

// The word of an answer that gives the length of what was written.
pub fn written_word(a: Result<u16, Refusal>) -> u64
    ensures widen { result ≡ widen_word a }
    ensures report { result ≡ report_word a }
    ensures convert { result ≡ convert_word a }
    ensures write { result ≡ write_word a }
{
    match a {
        Err(r) => u64::from(r),
        Ok(k) => 64 + k as u64 * 0x100,
    }
}

#[unsafe(no_mangle)]
pub extern "C" fn shinglebar_lookup(kind: u32, label: u32, mac: u64, table: &[u8]) -> u64
    ensures { result ≡ lookup_word (looked_up kind label mac table.now) }
{
    found_word(table_search::lookup(kind, label, mac, table))
}

fn age_word(a: Result<(), Refusal>) -> u64
    ensures { result ≡ age_word a }
{
    match a {
        Err(r) => u64::from(r),
        Ok(()) => 64,
    }
}

#[unsafe(no_mangle)]
pub extern "C" fn shinglebar_age(seconds: u16, table: &mut [u8]) -> u64
    ensures { on_table result table.new ≡ table_as age_word (aged seconds table.old) }
{
    age_word(table_ageing::age(seconds, table))
}

#[unsafe(no_mangle)]
pub extern "C" fn shinglebar_spoilt(table: &[u8]) -> u64
    ensures { result ≡ spoilt_word (lowest_spoilt table.now) }
{
    found_word(table_search::lowest_spoilt(table))
}

fn free_word(a: Result<FreeAnswer, Refusal>) -> u64
    ensures { result ≡ free_word a }
{
    match a {
        Err(r) => u64::from(r),
        Ok(FreeAnswer::Lowest { slot, unpacked }) => 64
            + slot as u64 * 0x100
            + unpacked as u64 * 0x1_0000_0000,
        Ok(FreeAnswer::Full(unpacked)) => 65 + unpacked as u64 * 0x1_0000_0000,
    }
}

#[unsafe(no_mangle)]
pub extern "C" fn shinglebar_free_slot(table: &[u8]) -> u64
    ensures { result ≡ free_word (free_answered table.now) }
{
    free_word(table_free::free_slot(table))
}

#[unsafe(no_mangle)]
pub extern "C" fn shinglebar_widen(old: &[u8], out: &mut [u8]) -> u64
    ensures { on_area result out.new ≡ area_as widen_word (widened old.now out.old) }
{
    written_word(table_widening::widen(old, out))
}

#[unsafe(no_mangle)]
pub extern "C" fn shinglebar_report(table: &[u8], out: &mut [u8]) -> u64
    ensures { on_area result out.new ≡ area_as report_word (reported_to table.now out.old) }
{
    written_word(report_call::write_report(table, out))
}

fn flush_word(a: Result<u16, Refusal>) -> u64
    ensures { result ≡ flush_word a }
{
    match a {
        Err(r) => u64::from(r),
        Ok(k) => 67 + k as u64 * 0x100,
    }
}

#[unsafe(no_mangle)]
pub extern "C" fn shinglebar_flush(ingress: u32, payload: &[u8], table: &mut [u8]) -> u64
    ensures { on_table result table.new ≡ table_as flush_word (flushed ingress payload.now table.old) }
{
    flush_word(flush_call::flush(ingress, payload, table))
}

#[unsafe(no_mangle)]
pub extern "C" fn shinglebar_flush_vlan_only(ingress: u32, payload: &[u8], table: &mut [u8]) -> u64
    ensures { on_table result table.new ≡ table_as flush_word (flushed_vlan_only ingress payload.now table.old) }
{
    flush_word(models_call::flush_vlan_only(ingress, payload, table))
}

fn portion_word(a: Result<Portion, Refusal>) -> u64
    ensures { result ≡ portion_word a }
{
    match a {
        Err(r) => u64::from(r),
        Ok(p) => {
            64 + p.cleared as u64 * 0x100
                + p.next as u64 * 0x100_0000
                + p.examined as u64 * 0x100_0000_0000
        }
    }
}

#[unsafe(no_mangle)]
pub extern "C" fn shinglebar_flush_portion(
    ingress: u32,
    payload: &[u8],
    slot: u64,
    k: u64,
    table: &mut [u8],
) -> u64
    ensures { on_table result table.new ≡ table_as portion_word (portioned ingress payload.now slot k table.old) }
{
    portion_word(portions_call::portion(ingress, payload, slot as usize, k as usize, table))
}

// Why did this address go?
#[unsafe(no_mangle)]
pub extern "C" fn shinglebar_why(ingress: u32, payload: &[u8], slot: u64, table: &[u8]) -> u64
    ensures { result ≡ why_word (why ingress payload.now slot table.now) }
{
    why_word::why_word(why_call::explain(ingress, payload, slot as usize, table))
}

// The settings of a port, from the eight numbers.
pub fn port_settings(
    port: u64,
    inner: u64,
    nickname: u32,
    compact: u32,
    confidence: u32,
    seconds: u32,
    multihomed: u32,
    smart: u32,
) -> Settings
    ensures { result ≡ port_settings_of port inner nickname compact confidence seconds multihomed smart }
{
    Settings {
        port: port,
        inner: inner,
        nickname: nickname,
        compact: compact,
        confidence: confidence,
        seconds: seconds,
        multihomed: multihomed,
        smart: smart,
    }
}

// The same from the six numbers of document 01: no multihoming bit, and Smart Endnodes off.
const NO_MULTIHOMING: u32 = 0;

const SMART_OFF: u32 = 0;

pub fn settings(
    port: u64,
    inner: u64,
    nickname: u32,
    compact: u32,
    confidence: u32,
    seconds: u32,
) -> Settings
    ensures { result ≡ settings_of port inner nickname compact confidence seconds }
{
    port_settings(
        port,
        inner,
        nickname,
        compact,
        confidence,
        seconds,
        NO_MULTIHOMING,
        SMART_OFF,
    )
}

fn learning_number(l: Learning) -> u64
    ensures { (result ≡ learning_number l) × (result ≤ 3) }
{
    match l {
        Learning::Learned => 0,
        Learning::Refreshed => 1,
        Learning::Kept => 2,
        Learning::Full => 3,
    }
}

fn delivered_word(learning: Learning, length: u16, label: Label) -> u64
    requires { label_number label < 2 ^ 24 }
    ensures { result ≡ read_word (Ok (Delivered learning length label)) }
{
    let values = 65 + length as u64 * 0x100 + learning_number(learning) * 0x100_0000;
    values
        + table_records::kind_number(label) * 0x1_0000_0000
        + table_records::label_number(label) * 0x100_0000_0000
}

pub fn read_word(a: Result<ReadAnswer, Refusal>) -> u64
    requires { LabelFits a }
    ensures { result ≡ read_word a }
{
    match a {
        Err(r) => u64::from(r),
        Ok(ReadAnswer::Onward) => 64,
        Ok(
            ReadAnswer::Delivered {
                learning,
                length,
                label,
            },
        ) => delivered_word(learning, length, label),
        Ok(ReadAnswer::OtherChannel) => 66,
        Ok(ReadAnswer::Flushed(k)) => 67 + k as u64 * 0x100,
    }
}

#[unsafe(no_mangle)]
pub extern "C" fn shinglebar_receive(
    port: u64,
    inner: u64,
    nickname: u32,
    compact: u32,
    confidence: u32,
    seconds: u32,
    frame: &[u8],
    table: &mut [u8],
    out: &mut [u8],
) -> u64
    ensures { on_both result table.new out.new ≡ both_as read_word (received (settings_of port inner nickname compact confidence seconds) frame.now table.old out.old) }
{
    let s = settings(port, inner, nickname, compact, confidence, seconds);
    read_word(receive_call::receive(s, frame, table, out))
}

// Reading with all settings and with a port's map.
#[unsafe(no_mangle)]
pub extern "C" fn shinglebar_receive_port(
    port: u64,
    inner: u64,
    nickname: u32,
    compact: u32,
    confidence: u32,
    seconds: u32,
    multihomed: u32,
    smart: u32,
    map: &[u8],
    frame: &[u8],
    table: &mut [u8],
    out: &mut [u8],
) -> u64
    ensures { on_both result table.new out.new ≡ both_as read_word (port_received (port_settings_of port inner nickname compact confidence seconds multihomed smart) map.now frame.now table.old out.old) }
{
    let s = port_settings(
        port, inner, nickname, compact, confidence, seconds, multihomed, smart,
    );
    read_word(receive_call::receive_port(s, map, frame, table, out))
}

#[unsafe(no_mangle)]
pub extern "C" fn shinglebar_compact(
    port: u64,
    inner: u64,
    nickname: u32,
    compact: u32,
    confidence: u32,
    seconds: u32,
    frame: &[u8],
    out: &mut [u8],
) -> u64
    ensures { on_area result out.new ≡ area_as convert_word (compacted (settings_of port inner nickname compact confidence seconds) frame.now out.old) }
{
    let s = settings(port, inner, nickname, compact, confidence, seconds);
    written_word(convert_compact::compact(s, frame, out))
}

#[unsafe(no_mangle)]
pub extern "C" fn shinglebar_expand(
    port: u64,
    inner: u64,
    nickname: u32,
    compact: u32,
    confidence: u32,
    seconds: u32,
    source: u64,
    tagged: u32,
    tag: u32,
    frame: &[u8],
    out: &mut [u8],
) -> u64
    ensures { on_area result out.new ≡ area_as convert_word (expanded (settings_of port inner nickname compact confidence seconds) (outer_of source tagged tag) frame.now out.old) }
{
    let s = settings(port, inner, nickname, compact, confidence, seconds);
    let u = Outer {
        source: source,
        tagged: tagged,
        tag: tag,
    };
    written_word(convert_expand::expand(s, u, frame, out))
}

// A native frame through a port's map.
#[unsafe(no_mangle)]
pub extern "C" fn shinglebar_ingress(
    port: u64,
    inner: u64,
    nickname: u32,
    compact: u32,
    confidence: u32,
    seconds: u32,
    map: &[u8],
    destination: u64,
    source: u64,
    m: u32,
    hops: u32,
    egress: u32,
    ingress: u32,
    frame: &[u8],
    out: &mut [u8],
) -> u64
    ensures { on_area result out.new ≡ area_as convert_word (ingressed (settings_of port inner nickname compact confidence seconds) map.now (given_of destination source m hops egress ingress) frame.now out.old) }
{
    let s = settings(port, inner, nickname, compact, confidence, seconds);
    let u = Given {
        destination: destination,
        source: source,
        multicast: m,
        hops: hops,
        egress: egress,
        ingress: ingress,
    };
    written_word(ingress_call::ingress(s, map, u, frame, out))
}

#[unsafe(no_mangle)]
pub extern "C" fn shinglebar_send(
    port: u64,
    inner: u64,
    nickname: u32,
    compact: u32,
    confidence: u32,
    seconds: u32,
    frame: &[u8],
    work: &mut [u8],
) -> u64
    ensures { on_area result work.new ≡ area_as send_word (sent (settings_of port inner nickname compact confidence seconds) frame.now work.old) }
{
    let s = settings(port, inner, nickname, compact, confidence, seconds);
    found_word(convert_send::send(s, frame, work))
}

#[unsafe(no_mangle)]
pub extern "C" fn shinglebar_write_flush(
    nicknames: &[u8],
    vlans: &[u8],
    fine: &[u8],
    macs: &[u8],
    out: &mut [u8],
) -> u64
    ensures { on_area result out.new ≡ area_as write_word (flush_written nicknames.now vlans.now fine.now macs.now out.old) }
{
    written_word(flush_write_call::write_flush(nicknames, vlans, fine, macs, out))
}

// The length of a Smart-Hello, or of its contents, has 56 bits in the word.
fn hello_word(a: Result<usize, Refusal>) -> u64
    ensures { result ≡ hello_word a }
{
    match a {
        Err(r) => u64::from(r),
        Ok(k) => 64 + k as u64 % 0x100_0000_0000_0000 * 0x100,
    }
}

#[unsafe(no_mangle)]
pub extern "C" fn shinglebar_hello_read(payload: &[u8], contents: &mut [u8]) -> u64
    ensures { on_area result contents.new ≡ area_as hello_word (read_call payload.now contents.old) }
{
    hello_word(hello_read::hello_read(payload, contents))
}

#[unsafe(no_mangle)]
pub extern "C" fn shinglebar_hello_write(contents: &[u8], out: &mut [u8]) -> u64
    ensures { on_area result out.new ≡ area_as hello_word (write_call contents.now out.old) }
{
    hello_word(hello_write::hello_write(contents, out))
}
