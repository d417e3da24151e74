// The calls on a watch that the port lends (2026-06). A watch is changed where it lies: each export takes its two numbers out, makes one call
// on numbers, and puts the two numbers of the result back.
ghost use Rattle.std.specs.Prelude.{◌≡◌, Ok};
ghost use Rattle.watch.specs.Time.{watch_of};
ghost use Rattle.watch.specs.Events.{on_watch, watch_as, reset_to, ticked_to, evented};
ghost use Rattle.watch.specs.Sending.{on_watched, watched_as, sent_watched};
ghost use Rattle.watch.specs.Words.{watch_word};
ghost use Rattle.convert.specs.Words.{send_word};
ghost use Rattle.shinglebar.specs.Arguments.{settings_of};

use numbers::refusals::Refusal;
use watch::Watch;

// The word of an answer, with the watch after the call.
#[derive(Clone, Copy)]
pub struct Held {
    pub word: u64,
    pub left: u32,
    pub reading: u32,
}

fn watch_word(a: Result<u32, Refusal>) -> u64
    ensures { result ≡ watch_word a }
{
    match a {
        Err(r) => u64::from(r),
        Ok(seconds) => 64 + seconds as u64 * 0x100,
    }
}

// A watch with the seconds that it has left.
fn shown(left: u32, reading: u32) -> Held
    ensures { on_watch result.word (watch_of result.left result.reading) ≡ on_watch (watch_word (Ok left)) (watch_of left reading) }
{
    Held {
        word: watch_word(Ok(left)),
        left: left,
        reading: reading,
    }
}

pub fn reset(clock: u32) -> Held
    ensures { on_watch result.word (watch_of result.left result.reading) ≡ watch_as watch_word (reset_to clock) }
{
    shown(0, clock)
}

#[unsafe(no_mangle)]
pub extern "C" fn shinglebar_watch_reset(watch: &mut Watch, clock: u32) -> u64
    ensures { on_watch result watch.new ≡ watch_as watch_word (reset_to clock) }
{
    let t = reset(clock);
    watch.left = t.left;
    watch.reading = t.reading;
    t.word
}

pub fn tick(left: u32, reading: u32, clock: u32) -> Held
    ensures { on_watch result.word (watch_of result.left result.reading) ≡ watch_as watch_word (ticked_to clock (watch_of left reading)) }
{
    let w = watch_time::tick(left, reading, clock);
    shown(w.left, w.reading)
}

#[unsafe(no_mangle)]
pub extern "C" fn shinglebar_watch_tick(watch: &mut Watch, clock: u32) -> u64
    ensures { on_watch result watch.new ≡ watch_as watch_word (ticked_to clock watch.old) }
{
    let t = tick(watch.left, watch.reading, clock);
    watch.left = t.left;
    watch.reading = t.reading;
    t.word
}

pub fn event(left: u32, reading: u32, clock: u32, kind: u32, time: u16) -> Held
    ensures { on_watch result.word (watch_of result.left result.reading) ≡ watch_as watch_word (evented clock kind time (watch_of left reading)) }
{
    let k = watch_time::event(left, reading, clock, kind, time);
    let answer = k.answer;
    Held {
        word: watch_word(answer),
        left: k.left,
        reading: k.reading,
    }
}

#[unsafe(no_mangle)]
pub extern "C" fn shinglebar_watch_event(watch: &mut Watch, clock: u32, kind: u32, time: u16) -> u64
    ensures { on_watch result watch.new ≡ watch_as watch_word (evented clock kind time watch.old) }
{
    let t = event(watch.left, watch.reading, clock, kind, time);
    watch.left = t.left;
    watch.reading = t.reading;
    t.word
}

pub fn send(
    port: u64,
    inner: u64,
    nickname: u32,
    compact: u32,
    confidence: u32,
    seconds: u32,
    left: u32,
    reading: u32,
    clock: u32,
    frame: &[u8],
    work: &mut [u8],
) -> Held
    ensures { on_watched result.word (watch_of result.left result.reading) work.new ≡ watched_as send_word (sent_watched (settings_of port inner nickname compact confidence seconds) clock (watch_of left reading) frame.now work.old) }
{
    let s = crate::settings(port, inner, nickname, compact, confidence, seconds);
    let k = watch_send::send(s, left, reading, clock, frame, work);
    let answer = k.answer;
    Held {
        word: crate::found_word(answer),
        left: k.left,
        reading: k.reading,
    }
}

#[unsafe(no_mangle)]
pub extern "C" fn shinglebar_send_watched(
    port: u64,
    inner: u64,
    nickname: u32,
    compact: u32,
    confidence: u32,
    seconds: u32,
    watch: &mut Watch,
    clock: u32,
    frame: &[u8],
    work: &mut [u8],
) -> u64
    ensures { on_watched result watch.new work.new ≡ watched_as send_word (sent_watched (settings_of port inner nickname compact confidence seconds) clock watch.old frame.now work.old) }
{
    let t = send(
        port,
        inner,
        nickname,
        compact,
        confidence,
        seconds,
        watch.left,
        watch.reading,
        clock,
        frame,
        work,
    );
    watch.left = t.left;
    watch.reading = t.reading;
    t.word
}
