// The reason as the word of the C boundary.
#![tactic(auto)]

ghost use Rattle.std.specs.Prelude.{◌^◌, ◌<◌, ◌≤◌, ◌≡◌, Ok};
ghost use Rattle.why.specs.Words.{most_shown, shown, nickname_bits, label_bits, mac_bits, why_word};
ghost use Rattle.why.specs.declared.Reason.TheVariants.{Cleared};

use numbers::refusals::Refusal;
use why::{LabelMatch, MacMatch, NicknameMatch, Places, Reason};

// The kind of each reason, in their order.
const FREE: u64 = 64;

const SPOILT: u64 = 65;

const CONFIGURED: u64 = 66;

const NICKNAME_NOT_MEANT: u64 = 67;

const LABEL_NOT_MEANT: u64 = 68;

const MAC_NOT_MEANT: u64 = 69;

const CLEARED: u64 = 70;

// Where the bits of a place begin, and the bits that stand alone.
const NICKNAME_PLACE: u64 = 0x100;

const SENDER: u64 = 0x1_0000;

const COUNTS_TLVS: u64 = 0x2_0000;

const LABEL_PLACE: u64 = 0x4_0000;

const MAC_PLACE: u64 = 0x100_0000_0000;

const EVERY_MAC: u64 = 0x8000_0000_0000_0000;

// The largest place that is shown.
const MOST_SHOWN: u64 = 0x3f_ffff;

// A place as it is shown.
fn shown_place(k: usize) -> u64
    ensures { (result ≡ shown k) × (result ≤ most_shown) }
{
    numbers::at_most(MOST_SHOWN, k as u64)
}

fn nickname_bits(m: NicknameMatch) -> u64
    ensures { (result ≡ nickname_bits m) × (result ≤ 2 ^ 16) }
{
    match m {
        NicknameMatch::Sender => SENDER,
        NicknameMatch::Listed(k) => k as u64 * NICKNAME_PLACE,
    }
}

fn label_bits(m: LabelMatch) -> u64
    ensures { (result ≡ label_bits m) × (result < 2 ^ 40) }
{
    match m {
        LabelMatch::Block(k) => shown_place(k) * LABEL_PLACE,
        LabelMatch::Tlv(k) => COUNTS_TLVS + shown_place(k) * LABEL_PLACE,
    }
}

fn mac_bits(m: MacMatch) -> u64
    ensures { (result ≡ mac_bits m) × (result ≤ 2 ^ 63) }
{
    match m {
        MacMatch::Every => EVERY_MAC,
        MacMatch::Tlv(k) => shown_place(k) * MAC_PLACE,
    }
}

// What brought a record that is cleared.
fn places_word(w: Places) -> u64
    ensures { result ≡ why_word (Ok (Cleared w)) }
{
    let nickname = w.nickname;
    let label = w.label;
    let mac = w.mac;
    CLEARED + nickname_bits(nickname) + label_bits(label) + mac_bits(mac)
}

fn reason_word(r: Reason) -> u64
    ensures { result ≡ why_word (Ok r) }
{
    match r {
        Reason::Free => FREE,
        Reason::Spoilt => SPOILT,
        Reason::Configured => CONFIGURED,
        Reason::NicknameNotMeant => NICKNAME_NOT_MEANT,
        Reason::LabelNotMeant => LABEL_NOT_MEANT,
        Reason::MacNotMeant => MAC_NOT_MEANT,
        Reason::Cleared(w) => places_word(w),
    }
}

pub fn why_word(a: Result<Reason, Refusal>) -> u64
    ensures { result ≡ why_word a }
{
    match a {
        Err(r) => u64::from(r),
        Ok(r) => reason_word(r),
    }
}
