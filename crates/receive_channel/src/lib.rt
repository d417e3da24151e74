// A channel frame for this switch: 6, 14, another protocol, 15, or the flush that it carries.
#![tactic(auto)]

ghost use Rattle.std.specs.Prelude.{ℕ, ◌≤◌, true, List, ◌≡◌, length, Err};
ghost use Rattle.numbers.specs.Result.{settled};
ghost use Rattle.numbers.specs.After.{on_both};
ghost use Rattle.table.specs.Slots.{table_good};
ghost use Rattle.receive.specs.Deciding.{channel_bytes, channel_version, channel_protocol, channel_error};
ghost use Rattle.receive.specs.Receive.{channel};
ghost use Rattle.frame_parse.specs.Meaning.{fields_in, PartsOf};
ghost use Rattle.receive_decide.specs.Meaning.{ValuesOf};
ghost use Rattle.receive_channel.specs.Meaning.{channel_of};

use frame::{ALL_EGRESS_RBRIDGES, Settings};
use frame_parse::Parts;
use numbers::refusals::Refusal;
use receive::{
    CHANNEL_BYTES, CHANNEL_ERROR_OFFSET, CHANNEL_ERROR_VALUES, CHANNEL_PROTOCOL_OFFSET,
    CHANNEL_PROTOCOL_VALUES, CHANNEL_VERSION_BIT, CHANNEL_VERSION_VALUES, FLUSH_PROTOCOL,
    ReadAnswer,
};
use receive_decide::FieldValues;

// The fields of a channel header.
fn channel_version(c: &[u8]) -> u64
    requires { channel_bytes ≤ length c.now }
    ensures { result ≡ channel_version c.now }
{
    numbers::be2(c, CHANNEL_PROTOCOL_OFFSET) / CHANNEL_VERSION_BIT % CHANNEL_VERSION_VALUES
}

fn channel_protocol(c: &[u8]) -> u64
    requires { channel_bytes ≤ length c.now }
    ensures { result ≡ channel_protocol c.now }
{
    numbers::be2(c, CHANNEL_PROTOCOL_OFFSET) % CHANNEL_PROTOCOL_VALUES
}

fn channel_error(c: &[u8]) -> u64
    requires { channel_bytes ≤ length c.now }
    ensures { result ≡ channel_error c.now }
{
    numbers::be2(c, CHANNEL_ERROR_OFFSET) % CHANNEL_ERROR_VALUES
}

// Refusal 14, of the content and the inner destination.
fn channel_good(inner: u64, c: &[u8], dst: u64) -> bool
    requires { channel_bytes ≤ length c.now }
    ensures { result ≡ channel_of inner c.now dst }
{
    (channel_version(c) == 0)
        & ((channel_error(c) == 0) & ((dst == inner) | (dst == ALL_EGRESS_RBRIDGES)))
}

// Handles a channel frame. No output area is lent: channel frames write no native frame.
pub fn handle(
    s: Settings,
    v: FieldValues,
    f: &[u8],
    p: Parts,
    table: &mut [u8],
) -> Result<ReadAnswer, Refusal>
    requires { PartsOf f.now p × (ValuesOf (fields_in f.now p) v × (table_good table.old ≡ true)) }
    ensures { (o : List ℕ) → on_both result table.new o ≡ settled (λ n. on_both (Err n) table.old o) (channel s (fields_in f.now p) table.old o) }
{
    let c = frame_fields::after(f, p.content_offset);
    if c.len() < CHANNEL_BYTES {
        return Err(Refusal::CutShort);
    }
    if !channel_good(s.inner, c, v.dst) {
        return Err(Refusal::ChannelBad);
    }
    if channel_protocol(c) != FLUSH_PROTOCOL {
        return Ok(ReadAnswer::OtherChannel);
    }
    let payload = frame_fields::after(c, CHANNEL_BYTES);
    let n = flush_call::clear_meant(v.ingress as u32, payload, table)?;
    Ok(ReadAnswer::Flushed(n as u16))
}
