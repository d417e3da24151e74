// Sending with a watch, by value: compacting where it may and no stop is left.
#![tactic(auto)]

ghost use Rattle.std.specs.Prelude.{◌≡◌};
ghost use Rattle.numbers.specs.After.{on_area};
ghost use Rattle.convert_send.specs.Meaning.{sent_where};
ghost use Rattle.watch.specs.Time.{watch_of};
ghost use Rattle.watch.specs.Sending.{on_watched, sent_watched};

use convert::COMPACT_ROOM;
use frame::{COMPACT_ON, Settings};
use numbers::refusals::Refusal;

// What sending answers, with the watch after it.
#[derive(Clone, Copy)]
pub struct SentBy {
    pub answer: Result<Option<u16>, Refusal>,
    pub left: u32,
    pub reading: u32,
}

// `convert_send::send_where` once more, under its contract and by its laws: a function that two calls share is not made a part of
// either, and then both take twice their time. While a stop is left the inner destination is not read.
fn send_where(on: bool, s: Settings, frame: &[u8], work: &mut [u8]) -> Result<Option<u16>, Refusal>
    ensures { on_area result work.new ≡ sent_where on s frame.now work.old }
{
    if !frame_settings::settings_good(s) {
        return Err(Refusal::SettingsBad);
    }
    if work.len() < COMPACT_ROOM {
        return Err(Refusal::AreaShort);
    }
    let p = convert_compact::general_fields(s.port, frame)?;
    if !on {
        return Ok(None);
    }
    if convert_compact::stays_general(s, numbers::be6(frame, p.dst_offset)) {
        return Ok(None);
    }
    Ok(Some(convert_compact::fill_compact(frame, p, work)))
}

// The watched sending call, with the far port's settings as they arrive.
pub fn send(
    s: Settings,
    left: u32,
    reading: u32,
    clock: u32,
    frame: &[u8],
    work: &mut [u8],
) -> SentBy
    ensures { on_watched result.answer (watch_of result.left result.reading) work.new ≡ sent_watched s clock (watch_of left reading) frame.now work.old }
{
    let w = watch_time::tick(left, reading, clock);
    let on = (s.compact == COMPACT_ON) & (w.left == 0);
    match send_where(on, s, frame, work) {
        Err(n) => SentBy {
            answer: Err(n),
            left: left,
            reading: reading,
        },
        Ok(sent) => SentBy {
            answer: Ok(sent),
            left: w.left,
            reading: w.reading,
        },
    }
}
