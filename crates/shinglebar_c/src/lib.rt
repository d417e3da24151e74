// The static library: each public call of the library `shinglebar`, exported under its name and with its clauses. The library's own
// definitions export nothing, since it is built as a library.
#![tactic(auto)]

ghost use Rattle.std.specs.Prelude.{◌≡◌};
ghost use Rattle.numbers.specs.After.{on_table, table_as, on_area, area_as, on_both, both_as};
ghost use Rattle.table.specs.FreeSlot.{free_answered};
ghost use Rattle.table.specs.Table.{looked_up, aged, lowest_spoilt};
ghost use Rattle.table.specs.Widening.{widened};
ghost use Rattle.table.specs.Words.{lookup_word, age_word, spoilt_word, free_word, widen_word};
ghost use Rattle.report.specs.Report.{report_word, reported_to};
ghost use Rattle.flush.specs.Flush.{flushed};
ghost use Rattle.flush.specs.Words.{flush_word};
ghost use Rattle.models.specs.Models.{flushed_vlan_only};
ghost use Rattle.portions.specs.Portion.{portioned};
ghost use Rattle.portions.specs.Words.{portion_word};
ghost use Rattle.why.specs.Why.{why};
ghost use Rattle.why.specs.Words.{why_word};
ghost use Rattle.flush_write.specs.Areas.{flush_written};
ghost use Rattle.flush_write.specs.Words.{write_word};
ghost use Rattle.hello.specs.Calls.{read_call, write_call};
ghost use Rattle.hello.specs.Words.{hello_word};
ghost use Rattle.receive.specs.Receive.{port_received, received};
ghost use Rattle.receive.specs.Words.{read_word};
ghost use Rattle.convert.specs.Compaction.{compacted};
ghost use Rattle.convert.specs.Expansion.{expanded};
ghost use Rattle.convert.specs.Sending.{sent};
ghost use Rattle.ingress.specs.Ingress.{ingressed};
ghost use Rattle.convert.specs.Words.{convert_word, send_word};
ghost use Rattle.shinglebar.specs.Arguments.{port_settings_of, settings_of, outer_of, given_of};
ghost use Rattle.watch.specs.Events.{on_watch, watch_as, reset_to, ticked_to, evented};
ghost use Rattle.watch.specs.Sending.{on_watched, watched_as, sent_watched};
ghost use Rattle.watch.specs.Words.{watch_word};

use watch::Watch;

#[unsafe(no_mangle)]
pub extern "C" fn shinglebar_lookup(kind: u32, label: u32, mac: u64, table: &[u8]) -> u64
    ensures { result ≡ lookup_word (looked_up kind label mac table.now) }
{
    shinglebar::shinglebar_lookup(kind, label, mac, table)
}

#[unsafe(no_mangle)]
pub extern "C" fn shinglebar_age(seconds: u16, table: &mut [u8]) -> u64
    ensures { on_table result table.new ≡ table_as age_word (aged seconds table.old) }
{
    shinglebar::shinglebar_age(seconds, table)
}

#[unsafe(no_mangle)]
pub extern "C" fn shinglebar_spoilt(table: &[u8]) -> u64
    ensures { result ≡ spoilt_word (lowest_spoilt table.now) }
{
    shinglebar::shinglebar_spoilt(table)
}

#[unsafe(no_mangle)]
pub extern "C" fn shinglebar_free_slot(table: &[u8]) -> u64
    ensures { result ≡ free_word (free_answered table.now) }
{
    shinglebar::shinglebar_free_slot(table)
}

#[unsafe(no_mangle)]
pub extern "C" fn shinglebar_widen(old: &[u8], out: &mut [u8]) -> u64
    ensures { on_area result out.new ≡ area_as widen_word (widened old.now out.old) }
{
    shinglebar::shinglebar_widen(old, out)
}

#[unsafe(no_mangle)]
pub extern "C" fn shinglebar_report(table: &[u8], out: &mut [u8]) -> u64
    ensures { on_area result out.new ≡ area_as report_word (reported_to table.now out.old) }
{
    shinglebar::shinglebar_report(table, out)
}

#[unsafe(no_mangle)]
pub extern "C" fn shinglebar_flush(ingress: u32, payload: &[u8], table: &mut [u8]) -> u64
    ensures { on_table result table.new ≡ table_as flush_word (flushed ingress payload.now table.old) }
{
    shinglebar::shinglebar_flush(ingress, payload, table)
}

#[unsafe(no_mangle)]
pub extern "C" fn shinglebar_flush_vlan_only(ingress: u32, payload: &[u8], table: &mut [u8]) -> u64
    ensures { on_table result table.new ≡ table_as flush_word (flushed_vlan_only ingress payload.now table.old) }
{
    shinglebar::shinglebar_flush_vlan_only(ingress, payload, table)
}

#[unsafe(no_mangle)]
pub extern "C" fn shinglebar_flush_portion(
    ingress: u32,
    payload: &[u8],
    slot: u64,
    k: u64,
    table: &mut [u8],
) -> u64
    ensures { on_table result table.new ≡ table_as portion_word (portioned ingress payload.now slot k table.old) }
{
    shinglebar::shinglebar_flush_portion(ingress, payload, slot, k, table)
}

#[unsafe(no_mangle)]
pub extern "C" fn shinglebar_why(ingress: u32, payload: &[u8], slot: u64, table: &[u8]) -> u64
    ensures { result ≡ why_word (why ingress payload.now slot table.now) }
{
    shinglebar::shinglebar_why(ingress, payload, slot, table)
}

#[unsafe(no_mangle)]
pub extern "C" fn shinglebar_receive(
    port: u64,
    inner: u64,
    nickname: u32,
    compact: u32,
    confidence: u32,
    seconds: u32,
    frame: &[u8],
    table: &mut [u8],
    out: &mut [u8],
) -> u64
    ensures { on_both result table.new out.new ≡ both_as read_word (received (settings_of port inner nickname compact confidence seconds) frame.now table.old out.old) }
{
    shinglebar::shinglebar_receive(
        port, inner, nickname, compact, confidence, seconds, frame, table, out,
    )
}

#[unsafe(no_mangle)]
pub extern "C" fn shinglebar_receive_port(
    port: u64,
    inner: u64,
    nickname: u32,
    compact: u32,
    confidence: u32,
    seconds: u32,
    multihomed: u32,
    smart: u32,
    map: &[u8],
    frame: &[u8],
    table: &mut [u8],
    out: &mut [u8],
) -> u64
    ensures { on_both result table.new out.new ≡ both_as read_word (port_received (port_settings_of port inner nickname compact confidence seconds multihomed smart) map.now frame.now table.old out.old) }
{
    shinglebar::shinglebar_receive_port(
        port, inner, nickname, compact, confidence, seconds, multihomed, smart, map, frame, table,
        out,
    )
}

#[unsafe(no_mangle)]
pub extern "C" fn shinglebar_compact(
    port: u64,
    inner: u64,
    nickname: u32,
    compact: u32,
    confidence: u32,
    seconds: u32,
    frame: &[u8],
    out: &mut [u8],
) -> u64
    ensures { on_area result out.new ≡ area_as convert_word (compacted (settings_of port inner nickname compact confidence seconds) frame.now out.old) }
{
    shinglebar::shinglebar_compact(
        port, inner, nickname, compact, confidence, seconds, frame, out,
    )
}

#[unsafe(no_mangle)]
pub extern "C" fn shinglebar_expand(
    port: u64,
    inner: u64,
    nickname: u32,
    compact: u32,
    confidence: u32,
    seconds: u32,
    source: u64,
    tagged: u32,
    tag: u32,
    frame: &[u8],
    out: &mut [u8],
) -> u64
    ensures { on_area result out.new ≡ area_as convert_word (expanded (settings_of port inner nickname compact confidence seconds) (outer_of source tagged tag) frame.now out.old) }
{
    shinglebar::shinglebar_expand(
        port, inner, nickname, compact, confidence, seconds, source, tagged, tag, frame, out,
    )
}

#[unsafe(no_mangle)]
pub extern "C" fn shinglebar_ingress(
    port: u64,
    inner: u64,
    nickname: u32,
    compact: u32,
    confidence: u32,
    seconds: u32,
    map: &[u8],
    destination: u64,
    source: u64,
    m: u32,
    hops: u32,
    egress: u32,
    ingress: u32,
    frame: &[u8],
    out: &mut [u8],
) -> u64
    ensures { on_area result out.new ≡ area_as convert_word (ingressed (settings_of port inner nickname compact confidence seconds) map.now (given_of destination source m hops egress ingress) frame.now out.old) }
{
    shinglebar::shinglebar_ingress(
        port,
        inner,
        nickname,
        compact,
        confidence,
        seconds,
        map,
        destination,
        source,
        m,
        hops,
        egress,
        ingress,
        frame,
        out,
    )
}

#[unsafe(no_mangle)]
pub extern "C" fn shinglebar_send(
    port: u64,
    inner: u64,
    nickname: u32,
    compact: u32,
    confidence: u32,
    seconds: u32,
    frame: &[u8],
    work: &mut [u8],
) -> u64
    ensures { on_area result work.new ≡ area_as send_word (sent (settings_of port inner nickname compact confidence seconds) frame.now work.old) }
{
    shinglebar::shinglebar_send(
        port, inner, nickname, compact, confidence, seconds, frame, work,
    )
}

#[unsafe(no_mangle)]
pub extern "C" fn shinglebar_write_flush(
    nicknames: &[u8],
    vlans: &[u8],
    fine: &[u8],
    macs: &[u8],
    out: &mut [u8],
) -> u64
    ensures { on_area result out.new ≡ area_as write_word (flush_written nicknames.now vlans.now fine.now macs.now out.old) }
{
    shinglebar::shinglebar_write_flush(nicknames, vlans, fine, macs, out)
}

#[unsafe(no_mangle)]
pub extern "C" fn shinglebar_hello_read(payload: &[u8], contents: &mut [u8]) -> u64
    ensures { on_area result contents.new ≡ area_as hello_word (read_call payload.now contents.old) }
{
    shinglebar::shinglebar_hello_read(payload, contents)
}

#[unsafe(no_mangle)]
pub extern "C" fn shinglebar_hello_write(contents: &[u8], out: &mut [u8]) -> u64
    ensures { on_area result out.new ≡ area_as hello_word (write_call contents.now out.old) }
{
    shinglebar::shinglebar_hello_write(contents, out)
}

#[unsafe(no_mangle)]
pub extern "C" fn shinglebar_watch_reset(watch: &mut Watch, clock: u32) -> u64
    ensures { on_watch result watch.new ≡ watch_as watch_word (reset_to clock) }
{
    shinglebar::watched::shinglebar_watch_reset(watch, clock)
}

#[unsafe(no_mangle)]
pub extern "C" fn shinglebar_watch_tick(watch: &mut Watch, clock: u32) -> u64
    ensures { on_watch result watch.new ≡ watch_as watch_word (ticked_to clock watch.old) }
{
    shinglebar::watched::shinglebar_watch_tick(watch, clock)
}

#[unsafe(no_mangle)]
pub extern "C" fn shinglebar_watch_event(watch: &mut Watch, clock: u32, kind: u32, time: u16) -> u64
    ensures { on_watch result watch.new ≡ watch_as watch_word (evented clock kind time watch.old) }
{
    shinglebar::watched::shinglebar_watch_event(watch, clock, kind, time)
}

#[unsafe(no_mangle)]
pub extern "C" fn shinglebar_send_watched(
    port: u64,
    inner: u64,
    nickname: u32,
    compact: u32,
    confidence: u32,
    seconds: u32,
    watch: &mut Watch,
    clock: u32,
    frame: &[u8],
    work: &mut [u8],
) -> u64
    ensures { on_watched result watch.new work.new ≡ watched_as send_word (sent_watched (settings_of port inner nickname compact confidence seconds) clock watch.old frame.now work.old) }
{
    shinglebar::watched::shinglebar_send_watched(
        port, inner, nickname, compact, confidence, seconds, watch, clock, frame, work,
    )
}
