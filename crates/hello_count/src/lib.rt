// How many numbers a sub-TLV of a Smart-Hello brings to the contents area, and where the sub-TLVs of a TLV start.
#![tactic(auto)]

ghost use Rattle.std.specs.Prelude.{◌+◌, ◌≤◌, ◌≡◌, length};
ghost use Rattle.hello.specs.Tlvs.{tlv};
ghost use Rattle.hello.specs.Pieces.{parameters_type, smart_mac_type, nickname_type, trees_type};
ghost use Rattle.hello_count.specs.Sections.{body_at, sub_numbers};

use hello_judge::{CAPABILITY_HEAD, GENINFO_HEAD, TRILL_APPLICATION};

// Where the sub-TLVs of a TLV 242 start.
pub fn capability_at(v: &[u8]) -> usize
    ensures { (result ≡ body_at 242 v.now) × (result ≤ length v.now) }
{
    if v.len() < CAPABILITY_HEAD {
        return v.len();
    }
    CAPABILITY_HEAD
}

// Where the APPsub-TLVs of a TLV 251 start.
pub fn geninfo_at(v: &[u8]) -> usize
    ensures { (result ≡ body_at 251 v.now) × (result ≤ length v.now) }
{
    if v.len() < GENINFO_HEAD {
        return v.len();
    }
    if numbers::be2(v, 1) != TRILL_APPLICATION {
        return v.len();
    }
    let s = hello_judge::geninfo_head(v[0]);
    if v.len() < s {
        return v.len();
    }
    s
}

// The numbers of a sub-TLV by its length; 0 where its type does not allow it.
pub fn parameters_numbers(v: &[u8]) -> usize
    ensures { (result ≡ length (sub_numbers parameters_type (tlv parameters_type v.now))) × (result ≤ 2 + length v.now) }
{
    if v.len() == 4 {
        return 2;
    }
    0
}

pub fn nickname_numbers(v: &[u8]) -> usize
    ensures { (result ≡ length (sub_numbers nickname_type (tlv nickname_type v.now))) × (result ≤ 2 + length v.now) }
{
    let n = v.len();
    if n % 5 == 0 {
        return 1 + 3 * (n / 5);
    }
    0
}

pub fn trees_numbers(v: &[u8]) -> usize
    ensures { (result ≡ length (sub_numbers trees_type (tlv trees_type v.now))) × (result ≤ 2 + length v.now) }
{
    let n = v.len();
    if n < 2 {
        return 0;
    }
    if n % 2 == 0 {
        return 2 + (n - 2) / 2;
    }
    0
}

pub fn smart_mac_numbers(v: &[u8]) -> usize
    ensures { (result ≡ length (sub_numbers smart_mac_type (tlv smart_mac_type v.now))) × (result ≤ 2 + length v.now) }
{
    let n = v.len();
    if n < 4 {
        return 0;
    }
    if (n - 4) % 6 == 0 {
        return 4 + (n - 4) / 6;
    }
    0
}
