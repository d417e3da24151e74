// Sending: compacting where it may, and the choice between the working area and the received frame.
#![tactic(auto)]

ghost use Rattle.std.specs.Prelude.{not, ◌≡◌, take};
ghost use Rattle.numbers.specs.Tests.{both};
ghost use Rattle.numbers.specs.After.{on_area};
ghost use Rattle.convert.specs.Compaction.{stays_general};
ghost use Rattle.convert.specs.Sending.{sent, chosen};
ghost use Rattle.convert_send.specs.Meaning.{sent_where};

use convert::COMPACT_ROOM;
use frame::{COMPACT_ON, Settings};
use numbers::refusals::Refusal;

// Whether a frame with this inner destination is compacted, `on` being whether the far port has Compact on.
fn may_compact(on: bool, s: Settings, a: u64) -> bool
    ensures { result ≡ both on (not (stays_general s a)) }
{
    on & !convert_compact::stays_general(s, a)
}

// Sends, `on` being whether the far port has Compact on.
pub fn send_where(
    on: bool,
    s: Settings,
    frame: &[u8],
    work: &mut [u8],
) -> Result<Option<u16>, Refusal>
    ensures { on_area result work.new ≡ sent_where on s frame.now work.old }
{
    if !frame_settings::settings_good(s) {
        return Err(Refusal::SettingsBad);
    }
    if work.len() < COMPACT_ROOM {
        return Err(Refusal::AreaShort);
    }
    // No `?`: the edit compact_in_front changes an arm.
    let p = match convert_compact::general_fields(s.port, frame) {
        Ok(p) => p,
        Err(r) => return Err(r),
    };
    if !may_compact(on, s, numbers::be6(frame, p.dst_offset)) {
        return Ok(None);
    }
    Ok(Some(convert_compact::fill_compact(frame, p, work)))
}

// The sending call, with the far port's settings.
pub fn send(s: Settings, frame: &[u8], work: &mut [u8]) -> Result<Option<u16>, Refusal>
    ensures { on_area result work.new ≡ sent s frame.now work.old }
{
    send_where(s.compact == COMPACT_ON, s, frame, work)
}

// The first n bytes, or all where there are fewer.
fn first<'a>(l: &'a [u8], n: usize) -> &'a [u8]
    ensures { result.now ≡ take n l.now }
{
    if l.len() < n {
        return l;
    }
    &l[..n]
}

// What to send after an answer of sending: a part of the working area or the received frame itself; nothing after a refusal.
#[tactic(auto, unfolding(convert::specs::Sending::chosen))]
pub fn choose<'a>(answer: Result<Option<u16>, Refusal>, work: &'a [u8], frame: &'a [u8]) -> &'a [u8]
    ensures { result.now ≡ chosen answer work.now frame.now }
{
    match answer {
        Err(_) => first(work, 0),
        Ok(Some(n)) => first(work, n as usize),
        Ok(None) => frame,
    }
}
