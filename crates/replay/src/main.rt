#![tactic(auto)]

ghost use Rattle.std.specs.Prelude.{◌+◌, ◌/◌, ◌≤◌, true, ◌≡◌, length, IfSome, IfOk};

use frame::Settings;
use ingress::Given;
use port_map::PAIR_BYTES;
use std::io;
use std::io::{Read, Write};

mod watched;

// Replays calls on one table: reads them from standard input in hex, and writes each answer and the bytes it left. docs/REPLAY.md
// describes the form.

// The number of the call that writes a flush.
const WRITE: u64 = 0x13;

// The first byte of an area; 256 where it has none.
fn first(b: &[u8]) -> u64 {
    if b.len() < 1 {
        return 256;
    }
    numbers::wide(b[0])
}

// A character of standard input; 256 at its end.
fn next_char(from: &mut impl Read) -> io::Result<u64> {
    let mut one = [0u8; 1];
    let n = from.read(&mut one)?;
    Ok(first(&one[..n]))
}

// The value of a hex digit; 16 for any other character, 17 at the end of the input.
fn digit_of(c: u64) -> u64
    ensures { result ≤ 17 }
{
    if 255 < c {
        return 17;
    }
    if c < 48 {
        return 16;
    }
    if c <= 57 {
        return c - 48;
    }
    if c < 97 {
        return 16;
    }
    if c <= 102 {
        return c - 87;
    }
    16
}

// The next hex digit; 17 at the end of the input. The turns are more than any input has characters: a proved loop has to end.
fn next_digit(from: &mut impl Read) -> io::Result<u64>
    ensures { IfOk result (λ d. d ≤ 17) }
{
    for _ in 0..u64::MAX {
        let d = digit_of(next_char(from)?);
        if d != 16 {
            return Ok(d);
        }
    }
    Ok(17)
}

// The next byte; 256 at the end of the input.
fn next_byte(from: &mut impl Read) -> io::Result<u64> {
    let a = next_digit(from)?;
    let b = next_digit(from)?;
    if (15 < a) | (15 < b) {
        return Ok(256);
    }
    Ok(a * 16 + b)
}

// Fills an area, and answers whether the input held it all.
fn fill(from: &mut impl Read, area: &mut [u8]) -> io::Result<bool> {
    for x in area.iter_mut() {
        let b = next_byte(from)?;
        if 255 < b {
            return Ok(false);
        }
        *x = b as u8;
    }
    Ok(true)
}

fn print_bytes(to: &mut impl Write, b: &[u8]) -> io::Result<()> {
    to.write_all(&[b' '])?;
    for x in b {
        write!(to, "{x:02x}")?;
    }
    Ok(())
}

// Writes a line: the answer's word, the table, and the area that was lent.
fn print_areas(to: &mut impl Write, word: u64, table: &[u8], out: &[u8]) -> io::Result<()> {
    write!(to, "{word:016x}")?;
    print_bytes(to, table)?;
    print_bytes(to, out)
}

fn print_call(to: &mut impl Write, word: u64, table: &[u8], out: &[u8]) -> io::Result<()> {
    print_areas(to, word, table, out)?;
    to.write_all(&[b'\n'])
}

// The six settings, at the start of a call's bytes.
fn settings_in(b: &[u8]) -> Settings
    requires { 32 ≤ length b.now }
{
    shinglebar::settings(
        numbers::be8(b, 0),
        numbers::be8(b, 8),
        numbers::be4(b, 16) as u32,
        numbers::be4(b, 20) as u32,
        numbers::be4(b, 24) as u32,
        numbers::be4(b, 28) as u32,
    )
}

// The output area of a call, whose length stands in two bytes at an offset; none where the call or the area is too short for it.
fn out_area<'a>(b: &[u8], at: usize, area: &'a mut [u8]) -> Option<&'a mut [u8]>
    requires { at ≤ 1024 }
    ensures { IfSome result (λ _. at + 2 ≤ length b.now) }
{
    if b.len() < at + 2 {
        return None;
    }
    let n = numbers::be2(b, at) as usize;
    if area.len() < n {
        return None;
    }
    Some(&mut area[0..n])
}

// 01: settings, the output area's length, the frame.
fn read_frame(to: &mut impl Write, b: &[u8], table: &mut [u8], out: &mut [u8]) -> io::Result<()>
    requires { 34 ≤ length b.now }
{
    let s = settings_in(b);
    let word = shinglebar::shinglebar_receive(
        s.port,
        s.inner,
        s.nickname,
        s.compact,
        s.confidence,
        s.seconds,
        &b[34..],
        table,
        out,
    );
    print_call(to, word, table, out)
}

fn replay_receive(
    to: &mut impl Write,
    b: &[u8],
    table: &mut [u8],
    area: &mut [u8],
) -> io::Result<bool> {
    let Some(out) = out_area(b, 32, area) else {
        return Ok(false);
    };
    read_frame(to, b, table, out)?;
    Ok(true)
}

// 02: the ingress nickname, the payload.
fn replay_flush(to: &mut impl Write, b: &[u8], table: &mut [u8]) -> io::Result<bool> {
    if b.len() < 4 {
        return Ok(false);
    }
    let word = shinglebar::shinglebar_flush(numbers::be4(b, 0) as u32, &b[4..], table);
    print_call(to, word, table, &b[..0])?;
    Ok(true)
}

// 03: seconds.
fn replay_age(to: &mut impl Write, b: &[u8], table: &mut [u8]) -> io::Result<bool> {
    if b.len() < 2 {
        return Ok(false);
    }
    let word = shinglebar::shinglebar_age(numbers::be2(b, 0) as u16, table);
    print_call(to, word, table, &b[..0])?;
    Ok(true)
}

// 04: label kind, label, address.
fn replay_lookup(to: &mut impl Write, b: &[u8], table: &[u8]) -> io::Result<bool> {
    if b.len() < 16 {
        return Ok(false);
    }
    let word = shinglebar::shinglebar_lookup(
        numbers::be4(b, 0) as u32,
        numbers::be4(b, 4) as u32,
        numbers::be8(b, 8),
        table,
    );
    print_call(to, word, table, &b[..0])?;
    Ok(true)
}

// 05.
fn replay_spoilt(to: &mut impl Write, b: &[u8], table: &[u8]) -> io::Result<bool> {
    let word = shinglebar::shinglebar_spoilt(table);
    print_call(to, word, table, &b[..0])?;
    Ok(true)
}

// 06: settings, the output area's length, the frame.
fn compact_frame(to: &mut impl Write, b: &[u8], table: &[u8], out: &mut [u8]) -> io::Result<()>
    requires { 34 ≤ length b.now }
{
    let s = settings_in(b);
    let word = shinglebar::shinglebar_compact(
        s.port,
        s.inner,
        s.nickname,
        s.compact,
        s.confidence,
        s.seconds,
        &b[34..],
        out,
    );
    print_call(to, word, table, out)
}

fn replay_compact(
    to: &mut impl Write,
    b: &[u8],
    table: &[u8],
    area: &mut [u8],
) -> io::Result<bool> {
    let Some(out) = out_area(b, 32, area) else {
        return Ok(false);
    };
    compact_frame(to, b, table, out)?;
    Ok(true)
}

// 07: settings, the outer source, whether it is tagged, the tag, the output area's length, the frame.
fn expand_frame(to: &mut impl Write, b: &[u8], table: &[u8], out: &mut [u8]) -> io::Result<()>
    requires { 50 ≤ length b.now }
{
    let s = settings_in(b);
    let word = shinglebar::shinglebar_expand(
        s.port,
        s.inner,
        s.nickname,
        s.compact,
        s.confidence,
        s.seconds,
        numbers::be8(b, 32),
        numbers::be4(b, 40) as u32,
        numbers::be4(b, 44) as u32,
        &b[50..],
        out,
    );
    print_call(to, word, table, out)
}

fn replay_expand(to: &mut impl Write, b: &[u8], table: &[u8], area: &mut [u8]) -> io::Result<bool> {
    let Some(out) = out_area(b, 48, area) else {
        return Ok(false);
    };
    expand_frame(to, b, table, out)?;
    Ok(true)
}

// 08: settings, the working area's length, the frame. What the choosing function returns ends the line.
fn send_frame(to: &mut impl Write, b: &[u8], table: &[u8], work: &mut [u8]) -> io::Result<()>
    requires { 34 ≤ length b.now }
{
    let s = settings_in(b);
    let frame = &b[34..];
    let answer = convert_send::send(s, frame, work);
    print_areas(to, shinglebar::found_word(answer), table, work)?;
    print_bytes(to, convert_send::choose(answer, work, frame))?;
    to.write_all(&[b'\n'])
}

fn replay_send(to: &mut impl Write, b: &[u8], table: &[u8], area: &mut [u8]) -> io::Result<bool> {
    let Some(out) = out_area(b, 32, area) else {
        return Ok(false);
    };
    send_frame(to, b, table, out)?;
    Ok(true)
}

// 24.
fn replay_free_slot(to: &mut impl Write, b: &[u8], table: &[u8]) -> io::Result<bool> {
    let word = shinglebar::shinglebar_free_slot(table);
    print_call(to, word, table, &b[..0])?;
    Ok(true)
}

// 12: the output area's length, the old table.
fn widen_table(to: &mut impl Write, b: &[u8], table: &[u8], out: &mut [u8]) -> io::Result<()>
    requires { 2 ≤ length b.now }
{
    let word = shinglebar::shinglebar_widen(&b[2..], out);
    print_call(to, word, table, out)
}

fn replay_widen(to: &mut impl Write, b: &[u8], table: &[u8], area: &mut [u8]) -> io::Result<bool> {
    let Some(out) = out_area(b, 0, area) else {
        return Ok(false);
    };
    widen_table(to, b, table, out)?;
    Ok(true)
}

// 25: the ingress nickname, the slot, k, the payload.
fn replay_portion(to: &mut impl Write, b: &[u8], table: &mut [u8]) -> io::Result<bool> {
    if b.len() < 20 {
        return Ok(false);
    }
    let word = shinglebar::shinglebar_flush_portion(
        numbers::be4(b, 0) as u32,
        &b[20..],
        numbers::be8(b, 4),
        numbers::be8(b, 12),
        table,
    );
    print_call(to, word, table, &b[..0])?;
    Ok(true)
}

// 28: the ingress nickname, the slot, the payload.
fn replay_why(to: &mut impl Write, b: &[u8], table: &[u8]) -> io::Result<bool> {
    if b.len() < 12 {
        return Ok(false);
    }
    let word = shinglebar::shinglebar_why(
        numbers::be4(b, 0) as u32,
        &b[12..],
        numbers::be8(b, 4),
        table,
    );
    print_call(to, word, table, &b[..0])?;
    Ok(true)
}

// 13: the lengths of the lists of nicknames, VLAN blocks and fine-grained blocks, the output area's length, the four lists.
fn write_lists(
    to: &mut impl Write,
    b: &[u8],
    n: usize,
    v: usize,
    f: usize,
    table: &[u8],
    out: &mut [u8],
) -> io::Result<()>
    requires { ((8 ≤ n) × (n ≤ v)) × ((v ≤ f) × (f ≤ length b.now)) }
{
    let word = shinglebar::shinglebar_write_flush(&b[8..n], &b[n..v], &b[v..f], &b[f..], out);
    print_call(to, word, table, out)
}

fn replay_write(to: &mut impl Write, b: &[u8], table: &[u8], area: &mut [u8]) -> io::Result<bool> {
    if b.len() < 8 {
        return Ok(false);
    }
    let n = 8 + numbers::be2(b, 0) as usize;
    let v = n + numbers::be2(b, 2) as usize;
    let f = v + numbers::be2(b, 4) as usize;
    let room = numbers::be2(b, 6) as usize;
    if b.len() < f {
        return Ok(false);
    }
    if area.len() < room {
        return Ok(false);
    }
    write_lists(to, b, n, v, f, table, &mut area[0..room])?;
    Ok(true)
}

// 27: the ingress nickname, the payload.
fn replay_vlan_only(to: &mut impl Write, b: &[u8], table: &mut [u8]) -> io::Result<bool> {
    if b.len() < 4 {
        return Ok(false);
    }
    let word = shinglebar::shinglebar_flush_vlan_only(numbers::be4(b, 0) as u32, &b[4..], table);
    print_call(to, word, table, &b[..0])?;
    Ok(true)
}

// The settings of a call with a map of whole pairs, and what it gives of the outer part.
fn port_settings_in(b: &[u8]) -> Settings
    requires { 40 ≤ length b.now }
{
    shinglebar::port_settings(
        numbers::be8(b, 0),
        numbers::be8(b, 8),
        numbers::be4(b, 16) as u32,
        numbers::be4(b, 20) as u32,
        numbers::be4(b, 24) as u32,
        numbers::be4(b, 28) as u32,
        numbers::be4(b, 32) as u32,
        numbers::be4(b, 36) as u32,
    )
}

fn given_in(b: &[u8]) -> Given
    requires { 64 ≤ length b.now }
{
    Given {
        destination: numbers::be8(b, 32),
        source: numbers::be8(b, 40),
        multicast: numbers::be4(b, 48) as u32,
        hops: numbers::be4(b, 52) as u32,
        egress: numbers::be4(b, 56) as u32,
        ingress: numbers::be4(b, 60) as u32,
    }
}

// Whether a map is of whole pairs, and of no more than are lent as a slice.
fn whole_pairs(map: &[u8]) -> bool
    ensures { result ≡ true → length map.now / 6 ≤ 164 }
{
    (map.len() % PAIR_BYTES == 0) & (map.len() / PAIR_BYTES <= replay_pairs::MOST_PAIRS)
}

// 09: settings, multihomed, smart, the lengths of the output area and of the map, the map, the frame; the map ends at e.
fn read_bytes(
    to: &mut impl Write,
    b: &[u8],
    e: usize,
    table: &mut [u8],
    out: &mut [u8],
) -> io::Result<()>
    requires { (44 ≤ e) × (e ≤ length b.now) }
{
    let s = port_settings_in(b);
    let word = shinglebar::shinglebar_receive_port(
        s.port,
        s.inner,
        s.nickname,
        s.compact,
        s.confidence,
        s.seconds,
        s.multihomed,
        s.smart,
        &b[44..e],
        &b[e..],
        table,
        out,
    );
    print_call(to, word, table, out)
}

// The same with the map as a slice of pairs, where it is of whole ones.
fn read_mapped(
    to: &mut impl Write,
    b: &[u8],
    e: usize,
    table: &mut [u8],
    out: &mut [u8],
) -> io::Result<()>
    requires { (44 ≤ e) × (e ≤ length b.now) }
{
    let map = &b[44..e];
    if !whole_pairs(map) {
        return read_bytes(to, b, e, table, out);
    }
    let s = port_settings_in(b);
    let pairs = replay_pairs::pairs_in(map);
    let a = replay_pairs::read_pairs(s, pairs, map.len() / PAIR_BYTES, &b[e..], table, out);
    print_call(to, shinglebar::read_word(a), table, out)
}

fn replay_port(
    to: &mut impl Write,
    b: &[u8],
    table: &mut [u8],
    area: &mut [u8],
) -> io::Result<bool> {
    if b.len() < 44 {
        return Ok(false);
    }
    let n = numbers::be2(b, 40) as usize;
    if area.len() < n {
        return Ok(false);
    }
    let e = 44 + numbers::be2(b, 42) as usize;
    if b.len() < e {
        return Ok(false);
    }
    read_mapped(to, b, e, table, &mut area[0..n])?;
    Ok(true)
}

// 0a: settings, outer destination and source, M, hop count, egress and ingress nickname, the lengths of the output area and of the map,
// the map, the frame; the map ends at e.
fn take_bytes(
    to: &mut impl Write,
    b: &[u8],
    e: usize,
    table: &[u8],
    out: &mut [u8],
) -> io::Result<()>
    requires { (68 ≤ e) × (e ≤ length b.now) }
{
    let s = settings_in(b);
    let u = given_in(b);
    let word = shinglebar::shinglebar_ingress(
        s.port,
        s.inner,
        s.nickname,
        s.compact,
        s.confidence,
        s.seconds,
        &b[68..e],
        u.destination,
        u.source,
        u.multicast,
        u.hops,
        u.egress,
        u.ingress,
        &b[e..],
        out,
    );
    print_call(to, word, table, out)
}

// The same with the map as a slice of pairs, where it is of whole ones.
fn take_in(to: &mut impl Write, b: &[u8], e: usize, table: &[u8], out: &mut [u8]) -> io::Result<()>
    requires { (68 ≤ e) × (e ≤ length b.now) }
{
    let map = &b[68..e];
    if !whole_pairs(map) {
        return take_bytes(to, b, e, table, out);
    }
    let s = settings_in(b);
    let u = given_in(b);
    let pairs = replay_pairs::pairs_in(map);
    let a = replay_pairs::take_pairs(s, pairs, map.len() / PAIR_BYTES, u, &b[e..], out);
    print_call(to, shinglebar::written_word(a), table, out)
}

fn replay_ingress(
    to: &mut impl Write,
    b: &[u8],
    table: &[u8],
    area: &mut [u8],
) -> io::Result<bool> {
    if b.len() < 68 {
        return Ok(false);
    }
    let n = numbers::be2(b, 64) as usize;
    if area.len() < n {
        return Ok(false);
    }
    let e = 68 + numbers::be2(b, 66) as usize;
    if b.len() < e {
        return Ok(false);
    }
    take_in(to, b, e, table, &mut area[0..n])?;
    Ok(true)
}

// 2d: the contents area's length, the payload.
fn read_hello(to: &mut impl Write, b: &[u8], table: &[u8], contents: &mut [u8]) -> io::Result<()>
    requires { 2 ≤ length b.now }
{
    let word = shinglebar::shinglebar_hello_read(&b[2..], contents);
    print_call(to, word, table, contents)
}

fn replay_hello(to: &mut impl Write, b: &[u8], table: &[u8], area: &mut [u8]) -> io::Result<bool> {
    let Some(out) = out_area(b, 0, area) else {
        return Ok(false);
    };
    read_hello(to, b, table, out)?;
    Ok(true)
}

// 3d: the output area's length, the contents area.
fn write_hello(to: &mut impl Write, b: &[u8], table: &[u8], out: &mut [u8]) -> io::Result<()>
    requires { 2 ≤ length b.now }
{
    let word = shinglebar::shinglebar_hello_write(&b[2..], out);
    print_call(to, word, table, out)
}

fn replay_hello_write(
    to: &mut impl Write,
    b: &[u8],
    table: &[u8],
    area: &mut [u8],
) -> io::Result<bool> {
    let Some(out) = out_area(b, 0, area) else {
        return Ok(false);
    };
    write_hello(to, b, table, out)?;
    Ok(true)
}

// 2e: the output area's length.
fn write_report(to: &mut impl Write, table: &[u8], out: &mut [u8]) -> io::Result<()> {
    let word = shinglebar::shinglebar_report(table, out);
    print_call(to, word, table, out)
}

fn replay_report(to: &mut impl Write, b: &[u8], table: &[u8], area: &mut [u8]) -> io::Result<bool> {
    let Some(out) = out_area(b, 0, area) else {
        return Ok(false);
    };
    write_report(to, table, out)?;
    Ok(true)
}

// The calls of document 02 that are numbered 20 and the request, a second one of it 30 and the request.
fn replay_numbered(
    to: &mut impl Write,
    kind: u64,
    b: &[u8],
    table: &mut [u8],
    area: &mut [u8],
) -> io::Result<bool> {
    if kind == WRITE {
        return replay_write(to, b, table, area);
    }
    if kind == 0x24 {
        return replay_free_slot(to, b, table);
    }
    if kind == 0x25 {
        return replay_portion(to, b, table);
    }
    if kind == 0x27 {
        return replay_vlan_only(to, b, table);
    }
    if kind == 0x28 {
        return replay_why(to, b, table);
    }
    if kind == 0x2d {
        return replay_hello(to, b, table, area);
    }
    if kind == 0x2e {
        return replay_report(to, b, table, area);
    }
    if kind == 0x3d {
        return replay_hello_write(to, b, table, area);
    }
    Ok(false)
}

// The calls of document 02.
fn replay_later(
    to: &mut impl Write,
    kind: u64,
    b: &[u8],
    table: &mut [u8],
    area: &mut [u8],
) -> io::Result<bool> {
    if kind == 0x09 {
        return replay_port(to, b, table, area);
    }
    if kind == 0x0a {
        return replay_ingress(to, b, table, area);
    }
    if kind == 0x12 {
        return replay_widen(to, b, table, area);
    }
    if kind == 0x60 {
        return watched::replay_watch(to, b, table);
    }
    if kind == 0x61 {
        return watched::replay_send(to, b, table, area);
    }
    replay_numbered(to, kind, b, table, area)
}

// Makes a call and writes what it gave; false where there is no such call.
fn replay_call(
    to: &mut impl Write,
    kind: u64,
    b: &[u8],
    table: &mut [u8],
    area: &mut [u8],
) -> io::Result<bool> {
    if kind == 1 {
        return replay_receive(to, b, table, area);
    }
    if kind == 2 {
        return replay_flush(to, b, table);
    }
    if kind == 3 {
        return replay_age(to, b, table);
    }
    if kind == 4 {
        return replay_lookup(to, b, table);
    }
    if kind == 5 {
        return replay_spoilt(to, b, table);
    }
    if kind == 6 {
        return replay_compact(to, b, table, area);
    }
    if kind == 7 {
        return replay_expand(to, b, table, area);
    }
    if kind == 8 {
        return replay_send(to, b, table, area);
    }
    replay_later(to, kind, b, table, area)
}

// The length of the next call's numbers and bytes; the largest number where the input ended.
fn next_length(from: &mut impl Read) -> io::Result<usize> {
    let a = next_byte(from)?;
    let b = next_byte(from)?;
    if 255 < a {
        return Ok(usize::MAX);
    }
    if 255 < b {
        return Ok(usize::MAX);
    }
    Ok(a as usize * 0x100 + b as usize)
}

// Makes a call on the table's first bytes, or makes the table these bytes (00), and answers the table's length then; the largest number
// where there is no such call.
fn step(
    to: &mut impl Write,
    kind: u64,
    b: &[u8],
    table: &mut [u8],
    size: usize,
    area: &mut [u8],
) -> io::Result<usize>
    requires { (length b.now ≤ length table.old) × (size ≤ length table.old) }
{
    if kind == 0 {
        frame_copy::copy_at(b, table, 0);
        return Ok(b.len());
    }
    if replay_call(to, kind, b, &mut table[0..size], area)? {
        return Ok(size);
    }
    Ok(usize::MAX)
}

// Replays the calls up to the end of the input, or up to one that is in no form.
fn replay(
    from: &mut impl Read,
    to: &mut impl Write,
    body: &mut [u8],
    table: &mut [u8],
    area: &mut [u8],
) -> io::Result<()> {
    let mut size = 0;
    for _ in 0..u64::MAX {
        let kind = next_byte(from)?;
        let n = next_length(from)?;
        if body.len() < n {
            return Ok(());
        }
        if table.len() < n {
            return Ok(());
        }
        if !fill(from, &mut body[0..n])? {
            return Ok(());
        }
        size = step(to, kind, &body[0..n], table, size, area)?;
        if table.len() < size {
            return Ok(());
        }
    }
    Ok(())
}

fn main(rt: HostRuntime) -> io::Result<()> {
    let mut body = [0u8; 1024];
    let mut table = [0u8; 1024];
    let mut area = [0u8; 9216];
    replay(
        &mut rt.stdin(),
        &mut rt.stdout(),
        &mut body,
        &mut table,
        &mut area,
    )
}
