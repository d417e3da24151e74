// The call that writes a flush: the lists are judged, then the room, and then the message is written.
#![tactic(auto)]

ghost use Rattle.std.specs.Prelude.{◌+◌, ◌<◌, ◌≤◌, ◌≡◌, length};
ghost use Rattle.numbers.specs.After.{on_area};
ghost use Rattle.numbers.specs.Bytes.{laid};
ghost use Rattle.frame_copy.specs.Areas.{pasted};
ghost use Rattle.flush_write.specs.Writing.{flush_bytes};
ghost use Rattle.flush_write.specs.Areas.{asked_in, flush_written};
ghost use Rattle.flush_write.specs.Claims.{tlvs_length};
ghost use Rattle.flush_write_call.specs.Steps.{lists_good, nicks_good, Sized, front_bytes, lists_bytes};

use flush_write::MOST_LISTED;
use numbers::refusals::Refusal;
use numbers::{FIRST_VLAN, LAST_ADDRESS, LAST_FINE, LAST_VLAN};

// The bytes of a number in its list, and in the message.
const NICK_ITEM: usize = 2;

const VLAN_ITEM: usize = 2;

const FINE_ITEM: usize = 4;

const MAC_ITEM: usize = 8;

const VLAN_SIZE: usize = 2;

const FINE_SIZE: usize = 3;

const MAC_SIZE: usize = 6;

// The bytes of a block in the message.
const VLAN_BLOCK: usize = 4;

const FINE_BLOCK: usize = 6;

const MAC_BLOCK: usize = 12;

// The blocks that fill a TLV, and their bytes in the list.
const VLANS_PER_TLV: usize = 63;

const FINES_PER_TLV: usize = 42;

const MACS_PER_TLV: usize = 21;

const VLAN_FULL: usize = 252;

const FINE_FULL: usize = 336;

const MAC_FULL: usize = 336;

// The types of the TLVs.
const VLAN_BLOCKS: u64 = 1;

const FINE_BLOCKS: u64 = 3;

const MAC_BLOCKS: u64 = 8;

fn nicks_good(nicks: &[u8]) -> bool
    ensures { result ≡ nicks_good nicks.now }
{
    (nicks.len() % NICK_ITEM == 0) & (nicks.len() / NICK_ITEM <= MOST_LISTED)
}

// Whether the lists can be written.
fn lists_good(nicks: &[u8], vlans: &[u8], fines: &[u8], macs: &[u8]) -> bool
    ensures { result ≡ lists_good nicks.now vlans.now fines.now macs.now }
{
    if (vlans.len() == 0) & (fines.len() == 0) {
        return false;
    }
    nicks_good(nicks)
        & (flush_write_lists::list_good(vlans, VLAN_ITEM, FIRST_VLAN, LAST_VLAN)
            & (flush_write_lists::list_good(fines, FINE_ITEM, 0, LAST_FINE)
                & flush_write_lists::list_good(macs, MAC_ITEM, 0, LAST_ADDRESS)))
}

// The bytes of so many VLAN, fine-grained and MAC blocks in TLVs, with type and length of each TLV.
fn tlvs_length(v: usize, f: usize, m: usize) -> usize
    requires { (v ≤ 255) × ((f ≤ 255) × (m ≤ 255)) }
    ensures { (result ≡ tlvs_length 2 v + (tlvs_length 3 f + tlvs_length 6 m)) × (result ≤ 5660) }
{
    let a = VLAN_BLOCK * v + 2 * v.div_ceil(VLANS_PER_TLV);
    let b = FINE_BLOCK * f + 2 * f.div_ceil(FINES_PER_TLV);
    let c = MAC_BLOCK * m + 2 * m.div_ceil(MACS_PER_TLV);
    a + (b + c)
}

// The length of the message.
fn flush_length(nicks: &[u8], vlans: &[u8], fines: &[u8], macs: &[u8]) -> usize
    requires { Sized nicks.now vlans.now fines.now macs.now }
    ensures { result ≡ length (flush_bytes (asked_in nicks.now vlans.now fines.now macs.now)) }
{
    let n = 2 + nicks.len();
    if (fines.len() == 0) & (macs.len() == 0) {
        return n + vlans.len();
    }
    let v = vlans.len() / (2 * VLAN_ITEM);
    let f = fines.len() / (2 * FINE_ITEM);
    let m = macs.len() / (2 * MAC_ITEM);
    n + tlvs_length(v, f, m)
}

// Writes K-nicks, the nicknames and K-VLBs, and gives where they end.
fn put_front(nicks: &[u8], count: u64, out: &mut [u8]) -> usize
    requires { ((length nicks.now ≤ 510) × (count < 256)) × (2 + length nicks.now ≤ length out.old) }
    ensures { (out.new ≡ pasted out.old 0 (front_bytes nicks.now count)) × (result ≡ 2 + length nicks.now) }
{
    let n = nicks.len();
    frame_copy::put_number((n / NICK_ITEM) as u64, 1, out, 0);
    frame_copy::copy_block(nicks, out, 1);
    frame_copy::put_number(count, 1, out, 1 + n);
    2 + n
}

// Writes the lists as TLVs of types 1, 3 and 8.
fn put_lists(vlans: &[u8], fines: &[u8], macs: &[u8], out: &mut [u8], at: usize)
    requires { at + length (lists_bytes vlans.now fines.now macs.now) ≤ length out.old }
    ensures { out.new ≡ pasted out.old at (lists_bytes vlans.now fines.now macs.now) }
{
    let a = flush_write_lists::put_tlvs(
        vlans,
        VLAN_ITEM,
        VLAN_SIZE,
        VLAN_FULL,
        VLAN_BLOCKS,
        out,
        at,
    );
    let b = flush_write_lists::put_tlvs(
        fines,
        FINE_ITEM,
        FINE_SIZE,
        FINE_FULL,
        FINE_BLOCKS,
        out,
        a,
    );
    flush_write_lists::put_tlvs(macs, MAC_ITEM, MAC_SIZE, MAC_FULL, MAC_BLOCKS, out, b);
}

// Writes the message: the VLAN block form without fine-grained and MAC blocks, TLVs otherwise.
fn put_flush(nicks: &[u8], vlans: &[u8], fines: &[u8], macs: &[u8], out: &mut [u8])
    requires { Sized nicks.now vlans.now fines.now macs.now × (length (flush_bytes (asked_in nicks.now vlans.now fines.now macs.now)) ≤ length out.old) }
    ensures { out.new ≡ laid (flush_bytes (asked_in nicks.now vlans.now fines.now macs.now)) out.old }
{
    if (fines.len() == 0) & (macs.len() == 0) {
        let a = put_front(nicks, (vlans.len() / (2 * VLAN_ITEM)) as u64, out);
        flush_write_lists::put_blocks(vlans, VLAN_ITEM, VLAN_SIZE, out, a);
        return;
    }
    let b = put_front(nicks, 0, out);
    put_lists(vlans, fines, macs, out, b);
}

// The writing call.
pub fn write_flush(
    nicks: &[u8],
    vlans: &[u8],
    fines: &[u8],
    macs: &[u8],
    out: &mut [u8],
) -> Result<u16, Refusal>
    ensures { on_area result out.new ≡ flush_written nicks.now vlans.now fines.now macs.now out.old }
{
    if !lists_good(nicks, vlans, fines, macs) {
        return Err(Refusal::ListsBad);
    }
    let n = flush_length(nicks, vlans, fines, macs);
    if out.len() < n {
        return Err(Refusal::AreaShort);
    }
    put_flush(nicks, vlans, fines, macs, out);
    Ok(n as u16)
}
