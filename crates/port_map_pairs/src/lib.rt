// A port's map as a lent slice of two-field structs: the two searches and the judge. Each function that is lent the slice is thin; what is
// asked of a pair, and what follows, are functions on the pair by value.
#![tactic(auto)]

ghost use Rattle.std.specs.Prelude.{◌≡◌, ◌<◌, ltb, length, drop};
ghost use Rattle.numbers.specs.Tests.{both};
ghost use Rattle.port_map.specs.Maps.{pairs_good, label_for, vlan_for};
ghost use Rattle.port_map_search.specs.Meaning.{label_as, vlan_as};
ghost use Rattle.port_map_pairs.specs.Pairs.{as_pairs, PairBytes};
ghost use Rattle.port_map_pairs.specs.Scan.{are_twins, asked_of, goes_on, scanned, is_nothing, label_in, vlan_in, numbers_good, judged_of, good_at};

use numbers::LAST_FINE;
use port_map::{CampusLabel, PortVlan};

// A pair of a port's map.
#[derive(Clone, Copy)]
pub struct MapPair {
    pub vlan: PortVlan,
    pub label: CampusLabel,
}

// What is asked of the pairs one after the other: the VLAN of a label, the label of a VLAN, a pair with the VLAN or the label of this one.
#[derive(Clone, Copy)]
pub enum Question {
    VlanOf(CampusLabel),
    LabelOf(PortVlan),
    TwinOf(MapPair),
}

// What is found.
#[derive(Clone, Copy)]
pub enum Found {
    Nothing,
    Vlan(PortVlan),
    Label(CampusLabel),
    Twin,
}

// What holds of the bytes of a slice's pairs.
pub fn claims()
    ensures { PairBytes }
{}

// ---- a pair by value

pub fn none() -> Found
    ensures { result ≡ Found.Nothing }
{
    Found::Nothing
}

// The VLAN or the label is the same.
fn twins(t: MapPair, p: MapPair) -> bool
    ensures { result ≡ are_twins t p }
{
    if t.vlan.0 == p.vlan.0 {
        return true;
    }
    t.label.0 == p.label.0
}

// What a pair answers.
pub fn asked(q: Question, p: MapPair) -> Found
    ensures { result ≡ asked_of q p }
{
    let vlan = p.vlan;
    let label = p.label;
    match q {
        Question::VlanOf(w) => {
            if label.0 == w.0 {
                Found::Vlan(vlan)
            } else {
                Found::Nothing
            }
        }
        Question::LabelOf(w) => {
            if vlan.0 == w.0 {
                Found::Label(label)
            } else {
                Found::Nothing
            }
        }
        Question::TwinOf(t) => {
            if twins(t, p) {
                Found::Twin
            } else {
                Found::Nothing
            }
        }
    }
}

// Whether the search goes on: nothing is found, and a pair is left.
pub fn goes_on(f: Found, i: usize, n: usize) -> bool
    ensures { result ≡ goes_on f i n }
{
    match f {
        Found::Nothing => i < n,
        Found::Vlan(_) => false,
        Found::Label(_) => false,
        Found::Twin => false,
    }
}

pub fn of_label(l: CampusLabel) -> Question
    ensures { result ≡ Question.VlanOf l }
{
    Question::VlanOf(l)
}

pub fn of_vlan(v: PortVlan) -> Question
    ensures { result ≡ Question.LabelOf v }
{
    Question::LabelOf(v)
}

pub fn twin_of(p: MapPair) -> Question
    ensures { result ≡ Question.TwinOf p }
{
    Question::TwinOf(p)
}

pub fn vlan_in(f: Found) -> Option<PortVlan>
    ensures { result ≡ vlan_in f }
{
    match f {
        Found::Nothing => None,
        Found::Vlan(v) => Some(v),
        Found::Label(_) => None,
        Found::Twin => None,
    }
}

pub fn label_in(f: Found) -> Option<CampusLabel>
    ensures { result ≡ label_in f }
{
    match f {
        Found::Nothing => None,
        Found::Vlan(_) => None,
        Found::Label(l) => Some(l),
        Found::Twin => None,
    }
}

fn alone(f: Found) -> bool
    ensures { result ≡ is_nothing f }
{
    match f {
        Found::Nothing => true,
        Found::Vlan(_) => false,
        Found::Label(_) => false,
        Found::Twin => false,
    }
}

// The numbers of a pair are good.
fn numbers_good(p: MapPair) -> bool
    ensures { result ≡ numbers_good p }
{
    if numbers::vlan_good(p.vlan.0 as u64) {
        return p.label.0 as u64 <= LAST_FINE;
    }
    false
}

// Whether a pair is good, from what was found after it.
pub fn judged(p: MapPair, f: Found) -> bool
    ensures { result ≡ judged_of p f }
{
    if alone(f) {
        return numbers_good(p);
    }
    false
}

// Whether the judgement goes on: all is good so far, and a pair is left.
pub fn keeps_on(good: bool, i: usize, n: usize) -> bool
    ensures { result ≡ both good (ltb i n) }
{
    good & (i < n)
}

// ---- the slice

// The first answer of the pairs from an index on.
pub fn scan(map: &[MapPair], from: usize, q: Question) -> Found
    ensures { result ≡ scanned q (drop from map.now) }
{
    let mut f = none();
    let mut i = from;
    // A `while`: the answer so far is part of the condition.
    while goes_on(f, i, map.len()) {
        f = asked(q, map[i]);
        i += 1;
    }
    f
}

// The VLAN of a label.
pub fn vlan_for(map: &[MapPair], l: CampusLabel) -> Option<PortVlan>
    ensures { vlan_as result ≡ vlan_for (as_pairs map.now) l }
{
    let q = of_label(l);
    let f = scan(map, 0, q);
    vlan_in(f)
}

// The label of a VLAN.
pub fn label_for(map: &[MapPair], v: PortVlan) -> Option<CampusLabel>
    ensures { label_as result ≡ label_for (as_pairs map.now) v }
{
    let q = of_vlan(v);
    let f = scan(map, 0, q);
    label_in(f)
}

// Whether the pair at an index is good: its numbers, and no later pair has its VLAN or its label.
pub fn pair_good_at(map: &[MapPair], i: usize) -> bool
    requires { i < length map.now }
    ensures { result ≡ good_at map.now i }
{
    let p = map[i];
    let q = twin_of(p);
    let f = scan(map, i + 1, q);
    judged(p, f)
}

// Whether the map is good.
pub fn map_good(map: &[MapPair]) -> bool
    ensures { result ≡ pairs_good (as_pairs map.now) }
{
    let mut good = true;
    let mut i = 0;
    // A `while`: the answer so far is part of the condition.
    while keeps_on(good, i, map.len()) {
        good = pair_good_at(map, i);
        i += 1;
    }
    good
}
