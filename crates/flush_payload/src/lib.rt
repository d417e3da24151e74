// The payload of an Address Flush: judging it whole, and membership in the three sets that it means.
#![tactic(auto)]

ghost use Rattle.std.specs.Prelude.{◌+◌, ◌*◌, ◌<◌, ◌≤◌, ◌≡◌, length, drop};
ghost use Rattle.numbers.specs.Tests.{any_of};
ghost use Rattle.table.specs.Record.{label_from};
ghost use Rattle.flush.specs.Payload.{every_type, types_of, is_padding, tlvs, length_good, nick_bytes, block_count, block_bytes, pieces_of};
ghost use Rattle.flush.specs.Meaning.{gathers_mac, nickname_meant, label_meant, mac_meant};
ghost use Rattle.flush_payload.specs.Judging.{ruled, EmptyPassed, NotedMore, Nothing, JudgedTlvs, JudgedPayload};

use flush::Model;
use numbers::refusals::Refusal;

// The last type that document 01's table has.
const LAST_TYPE: u8 = 8;

// What a good payload has: how many VLAN blocks (K-VLBs), or which kinds of TLVs.
#[derive(Clone, Copy)]
pub struct Kinds {
    pub blocks: usize,
    pub every: bool,
    pub vlans: bool,
    pub lists: bool,
    pub maps: bool,
    pub macs: bool,
}

// The bytes of the nicknames.
pub fn nick_bytes(p: &[u8]) -> usize
    requires { 1 ≤ length p.now }
    ensures { (result ≡ nick_bytes p.now) × (result < 512) }
{
    2 * numbers::wide(p[0]) as usize
}

// K-VLBs, the byte behind them.
pub fn block_count(p: &[u8]) -> usize
    requires { 2 + nick_bytes p.now ≤ length p.now }
    ensures { (result ≡ block_count p.now) × (result < 256) }
{
    let k = nick_bytes(p);
    numbers::wide(p[1 + k]) as usize
}

// Whether a type is implemented and has a length rule.
fn ruled_type(model: Model, k: u8) -> bool
    ensures { result ≡ ruled (types_of model) k }
{
    match model {
        Model::Full => (1 <= k) & (k <= LAST_TYPE),
        Model::VlanOnly => (k == 1) | ((k == 2) | (k == 6)),
    }
}

// The column "Length rule".
fn length_good(k: u8, n: usize) -> bool
    ensures { result ≡ length_good k n }
{
    match k {
        1 => n % 4 == 0,
        2 => 2 <= n,
        3 => n % 6 == 0,
        4 => n % 3 == 0,
        5 => 3 <= n,
        6 => n == 0,
        7 => n % 6 == 0,
        8 => n % 12 == 0,
        _ => true,
    }
}

// What was noted, and the kind of one TLV more.
fn note(f: Kinds, k: u8) -> Kinds
    ensures { NotedMore k f result }
{
    Kinds {
        blocks: f.blocks,
        every: f.every | (k == 6),
        vlans: f.vlans | ((k == 1) | (k == 2)),
        lists: f.lists | ((k == 3) | (k == 4)),
        maps: f.maps | (k == 5),
        macs: f.macs | ((k == 7) | (k == 8)),
    }
}

// A message with this many VLAN blocks, and no TLVs yet.
fn blocks_alone(blocks: usize) -> Kinds
    ensures { Nothing blocks result }
{
    Kinds {
        blocks,
        every: false,
        vlans: false,
        lists: false,
        maps: false,
        macs: false,
    }
}

// Passes over empty TLVs of types that have no length rule, from an offset on. The next of them lies two bytes on whatever its length byte
// says, so that the loop does not wait for it.
fn pass_empty(l: &[u8], from: usize) -> usize
    requires { from ≤ length l.now }
    ensures { EmptyPassed l.now from result }
{
    let mut at = from;
    // A `while`: the place where it stops is the answer, at the end of the bytes too, where a `for` would reckon it once more.
    while 2 <= l.len() - at {
        if l[at + 1] != 0 {
            return at;
        }
        let k = l[at];
        if (1 <= k) & (k <= LAST_TYPE) {
            return at;
        }
        at += 2;
    }
    at
}

// Whether a lone zero is left, which is padding.
fn is_padding(l: &[u8], at: usize) -> bool
    requires { at < length l.now }
    ensures { result ≡ is_padding (drop at l.now) }
{
    (l.len() - at == 1) & (l[at] == 0)
}

// Judges TLVs to their end. Bytes that make no TLV are corrupt unless they are padding, and so is a broken length rule of a type that is
// implemented.
fn judge_tlvs(model: Model, l: &[u8]) -> Result<Kinds, Refusal>
    ensures { JudgedTlvs (types_of model) (tlvs l.now) result }
{
    let mut f = blocks_alone(0);
    let mut at = 0;
    // A `while`: the step is the length of the TLV, and of the empty ones behind it.
    while at < l.len() {
        let e = flush_tlvs::end_of(l, at);
        if l.len() < e {
            if is_padding(l, at) {
                return Ok(f);
            }
            return Err(Refusal::PayloadCorrupt);
        }
        let k = l[at];
        if ruled_type(model, k) {
            if !length_good(k, e - (at + 2)) {
                return Err(Refusal::PayloadCorrupt);
            }
            f = note(f, k);
            at = e;
        } else {
            at = pass_empty(l, e);
        }
    }
    Ok(f)
}

// Judges a payload, from its first byte to its last, before any record is touched, and notes what it has.
pub fn judge(model: Model, p: &[u8]) -> Result<Kinds, Refusal>
    ensures { JudgedPayload (types_of model) p.now result }
{
    if p.len() < 2 {
        return Err(Refusal::PayloadCorrupt);
    }
    let s = 2 + nick_bytes(p);
    if p.len() < s {
        return Err(Refusal::PayloadCorrupt);
    }
    let blocks = block_count(p);
    if p.len() - s < 4 * blocks {
        return Err(Refusal::PayloadCorrupt);
    }
    if blocks != 0 {
        return Ok(blocks_alone(blocks));
    }
    judge_tlvs(model, &p[s..])
}

// Whether some piece behind K-VLBs gathers a MAC.
pub fn some_mac(rest: &[u8], blocks: usize) -> bool
    ensures { result ≡ any_of (gathers_mac every_type) (pieces_of blocks rest.now) }
{
    if blocks != 0 {
        return false;
    }
    flush_tlvs::some_gathers(rest)
}

// Whether a nickname is meant: without a list only the ingress nickname is.
pub fn nickname_meant(nicks: &[u8], ingress: u32, x: u64) -> bool
    ensures { result ≡ nickname_meant ingress nicks.now x }
{
    if nicks.len() == 0 {
        return x == ingress as u64;
    }
    flush_members::in_nicknames(nicks, x)
}

// Whether a label is meant, which is given by its kind and its number.
pub fn label_meant(rest: &[u8], blocks: usize, kind: u64, x: u64) -> bool
    requires { block_bytes * blocks ≤ length rest.now }
    ensures { result ≡ label_meant every_type (pieces_of blocks rest.now) (label_from kind x) }
{
    if blocks == 0 {
        return flush_tlvs::some_label(rest, kind, x);
    }
    if kind != 0 {
        return false;
    }
    let e = 4 * blocks;
    flush_members::in_vlan_blocks(&rest[..e], x)
}

// Whether a MAC is meant: where none was gathered every MAC is. `gathered` is found once for the message.
pub fn mac_meant(rest: &[u8], blocks: usize, gathered: bool, m: u64) -> bool
    requires { gathered ≡ any_of (gathers_mac every_type) (pieces_of blocks rest.now) }
    ensures { result ≡ mac_meant every_type (pieces_of blocks rest.now) m }
{
    if !gathered {
        return true;
    }
    flush_tlvs::some_mac(rest, m)
}
