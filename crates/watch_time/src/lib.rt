// The watch's arithmetic, by value: the time passed, a reading, the stop of an event, an event.
#![tactic(auto)]

ghost use Rattle.std.specs.Prelude.{◌≡◌, ◌-◌};
ghost use Rattle.numbers.specs.Numberings.{at_least};
ghost use Rattle.watch.specs.Time.{watch_of, passed, ticked};
ghost use Rattle.watch.specs.Events.{on_watch, twice_stop, bpdu_stop, stop_of, evented};

use numbers::refusals::Refusal;
use watch::{BRIDGE_BPDU, CLOCK_GONE_BACK, LEAST_STOP_SECONDS, LLDP_NOTICE, NATIVE_FRAME, Watch};

// What a call on a watch answers, with the watch after it.
#[derive(Clone, Copy)]
pub struct Kept {
    pub answer: Result<u32, Refusal>,
    pub left: u32,
    pub reading: u32,
}

// Seconds from one reading to the next; none where the clock has gone back.
fn elapsed(last: u32, clock: u32) -> u32
    ensures { result ≡ passed last clock }
{
    let seconds = std::num::wrapping_sub_u32(clock, last);
    if seconds < CLOCK_GONE_BACK {
        return seconds;
    }
    0
}

// Seconds taken off, not below 0.
fn less(left: u32, seconds: u32) -> u32
    ensures { result ≡ left - seconds }
{
    if seconds < left {
        return left - seconds;
    }
    0
}

// The watch after a reading: the time passed is taken off, and the reading kept.
pub fn tick(left: u32, reading: u32, clock: u32) -> Watch
    ensures { result ≡ ticked clock (watch_of left reading) }
{
    Watch {
        left: less(left, elapsed(reading, clock)),
        reading: clock,
    }
}

// The larger of two numbers of seconds.
fn larger(m: u32, n: u32) -> u32
    ensures { result ≡ at_least m n }
{
    if m <= n {
        return n;
    }
    m
}

// Twice the holding time of a Hello, or the TTL of an LLDP notice; ten seconds or more.
fn twice_stop(time: u16) -> u32
    ensures { result ≡ twice_stop time }
{
    larger(LEAST_STOP_SECONDS, 2 * time as u32)
}

// Four times the Hello Time of a BPDU, which is in 1/256 second, rounded up; ten seconds or more.
fn bpdu_stop(time: u16) -> u32
    ensures { result ≡ bpdu_stop time }
{
    larger(LEAST_STOP_SECONDS, (4 * time as u32 + 255) / 256)
}

// The stop of an event whose kind is known.
fn stop_of(kind: u32, time: u16) -> u32
    ensures { result ≡ stop_of kind time }
{
    if kind == NATIVE_FRAME {
        return LEAST_STOP_SECONDS;
    }
    if kind == BRIDGE_BPDU {
        return bpdu_stop(time);
    }
    twice_stop(time)
}

// An event: the larger of what is left after the reading and the event's stop.
pub fn event(left: u32, reading: u32, clock: u32, kind: u32, time: u16) -> Kept
    ensures { on_watch result.answer (watch_of result.left result.reading) ≡ evented clock kind time (watch_of left reading) }
{
    if kind > LLDP_NOTICE {
        return Kept {
            answer: Err(Refusal::SettingsBad),
            left: left,
            reading: reading,
        };
    }
    let w = tick(left, reading, clock);
    let seconds = larger(w.left, stop_of(kind, time));
    Kept {
        answer: Ok(seconds),
        left: seconds,
        reading: w.reading,
    }
}
