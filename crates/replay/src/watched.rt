// The calls on a watch, by value: a line brings the watch, and what is written ends with the watch after the call.
ghost use Rattle.std.specs.Prelude.{◌≤◌, length};

use shinglebar::watched::Held;
use std::io;
use std::io::Write;

// The two numbers of a watch end the line.
fn print_watch(to: &mut impl Write, h: Held) -> io::Result<()> {
    to.write_all(&[b' '])?;
    write!(to, "{:08x}", h.left)?;
    write!(to, "{:08x}", h.reading)?;
    to.write_all(&[b'\n'])
}

// The watch, the reading brought, which call it is, the kind of event and its time.
fn watch_call(b: &[u8]) -> Held
    requires { 19 ≤ length b.now }
{
    let left = numbers::be4(b, 0) as u32;
    let reading = numbers::be4(b, 4) as u32;
    let clock = numbers::be4(b, 8) as u32;
    let call = b[12];
    if call == 0 {
        return shinglebar::watched::reset(clock);
    }
    if call == 1 {
        return shinglebar::watched::tick(left, reading, clock);
    }
    shinglebar::watched::event(
        left,
        reading,
        clock,
        numbers::be4(b, 13) as u32,
        numbers::be2(b, 17) as u16,
    )
}

// 60: reset, tick or event.
pub fn replay_watch(to: &mut impl Write, b: &[u8], table: &[u8]) -> io::Result<bool> {
    if b.len() < 19 {
        return Ok(false);
    }
    let h = watch_call(b);
    crate::print_areas(to, h.word, table, &b[..0])?;
    print_watch(to, h)?;
    Ok(true)
}

// 61: the watch, the reading brought, settings, the working area's length, the frame.
fn send_frame(to: &mut impl Write, b: &[u8], table: &[u8], work: &mut [u8]) -> io::Result<()>
    requires { 46 ≤ length b.now }
{
    let s = crate::settings_in(&b[12..]);
    let h = shinglebar::watched::send(
        s.port,
        s.inner,
        s.nickname,
        s.compact,
        s.confidence,
        s.seconds,
        numbers::be4(b, 0) as u32,
        numbers::be4(b, 4) as u32,
        numbers::be4(b, 8) as u32,
        &b[46..],
        work,
    );
    crate::print_areas(to, h.word, table, work)?;
    print_watch(to, h)
}

pub fn replay_send(
    to: &mut impl Write,
    b: &[u8],
    table: &[u8],
    area: &mut [u8],
) -> io::Result<bool> {
    let Some(out) = crate::out_area(b, 44, area) else {
        return Ok(false);
    };
    send_frame(to, b, table, out)?;
    Ok(true)
}
