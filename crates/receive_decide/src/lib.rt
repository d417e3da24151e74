// What the fields of a frame lead to, alike for both formats: 8, 9, 11; onward; a channel frame, or one to deliver.
#![tactic(auto)]

ghost use Rattle.std.specs.Prelude.{◌≡◌};
ghost use Rattle.numbers.specs.Result.{Outcome};
ghost use Rattle.numbers.specs.After.{OnBoth};
ghost use Rattle.frame.specs.Fields.{Fields};
ghost use Rattle.frame.specs.Labels.{is_channel};
ghost use Rattle.receive.specs.declared.ReadAnswer.{ReadAnswer};
ghost use Rattle.frame_parse.specs.Meaning.{fields_in, PartsOf};
ghost use Rattle.receive_decide.specs.Meaning.{ValuesOf, deciding, step_as, nicknames_of, onward_of};

use frame::{ADDRESS_BYTES, SMART_ON, Settings};
use frame_parse::Parts;
use numbers::refusals::Refusal;

// The values of a frame's fields, each read once: of the header M, hop count and nicknames, and the inner addresses.
#[derive(Clone, Copy)]
pub struct FieldValues {
    pub multicast: u64,
    pub hops: u64,
    pub egress: u64,
    pub ingress: u64,
    pub dst: u64,
    pub src: u64,
}

#[derive(Clone, Copy)]
pub enum Step {
    Onward,
    Channel,
    Native,
}

// Reads them.
pub fn read_values(f: &[u8], p: Parts) -> FieldValues
    requires { PartsOf f.now p }
    ensures { ValuesOf (fields_in f.now p) result }
{
    let h = p.header_offset;
    let d = p.dst_offset;
    FieldValues {
        multicast: frame_fields::multicast(f, h),
        hops: frame_fields::hop_count(f, h),
        egress: frame_fields::egress(f, h),
        ingress: frame_fields::ingress(f, h),
        dst: numbers::be6(f, d),
        src: numbers::be6(f, d + ADDRESS_BYTES),
    }
}

// Refusal 9; with Smart Endnodes on our own ingress nickname is good too.
fn nicknames_good(smart: u32, nickname: u32, egress: u64, ingress: u64) -> bool
    ensures { result ≡ nicknames_of smart nickname egress ingress }
{
    numbers::nickname_good(egress)
        & (numbers::nickname_good(ingress) & ((smart == SMART_ON) | (ingress != nickname as u64)))
}

// M is 0 and egress is not our nickname.
fn is_onward(nickname: u32, multicast: u64, egress: u64) -> bool
    ensures { result ≡ onward_of nickname multicast egress }
{
    (multicast == 0) & (egress != nickname as u64)
}

// The decision, `channel` being whether the content starts 8946.
pub fn decide(s: Settings, v: FieldValues, channel: bool) -> Result<Step, Refusal>
    ensures { (p : Fields) → ValuesOf p v → channel ≡ is_channel p.content → (a b c : Outcome (OnBoth (Outcome ReadAnswer))) → step_as result a b c ≡ deciding s p a b c }
{
    if v.hops == 0 {
        return Err(Refusal::HopsSpent);
    }
    if !nicknames_good(s.smart, s.nickname, v.egress, v.ingress) {
        return Err(Refusal::NicknameBad);
    }
    if !numbers::is_individual(v.src) {
        return Err(Refusal::SourceGroup);
    }
    if is_onward(s.nickname, v.multicast, v.egress) {
        return Ok(Step::Onward);
    }
    if channel {
        return Ok(Step::Channel);
    }
    Ok(Step::Native)
}
