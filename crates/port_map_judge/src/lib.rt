// Judging a port's map, which is done at every call. In short maps each pair is compared with those after it. In longer ones VLANs go by a bit
// for each, and labels by bits too, so that only labels whose bits are set are compared; where a long map has many of these, by sorted keys.
#![tactic(auto)]

ghost use Rattle.std.specs.Prelude.{ℕ, ◌+◌, ◌*◌, ◌%◌, ◌≤◌, ◌<◌, true, false, List, ◌≡◌, eqb, length, drop};
ghost use Rattle.numbers.specs.Tests.{any_of};
ghost use Rattle.numbers.specs.Numberings.{bit_at};
ghost use Rattle.numbers.specs.Ranges.{vlan_good};
ghost use Rattle.flush_bits.specs.Ranged.{Ranged};
ghost use Rattle.flush_sort.specs.Sorting.{Sorted};
ghost use Rattle.port_map.specs.Maps.{pair_bytes, good_once, vlan_of, label_of, fine_good, map_good};
ghost use Rattle.port_map_search.specs.Meaning.{pair_at};
ghost use Rattle.port_map_judge.specs.Meaning.{vlans_in, labels_in, alone_at, seen_bytes, Noted, met_bytes, Met, LabelNoted, low_bytes, high_bytes, low_of, high_of, MetAt, LabelNotedTwice};
ghost use Rattle.port_map_judge.specs.Apart.{most_keys, Parted, Keyed};

use numbers::LAST_FINE;
use port_map::{CampusLabel, PAIR_BYTES, PortVlan};

// Adds a number to a set of bits, as `flush_bits::add_one` does, by one shift.
fn add_number(s: &mut [u8], x: usize)
    requires { x < 8 * length s.old }
    ensures { Ranged s.old s.new x (x + 1) }
{
    let k = (x % 8) as u8;
    flush_bits::add_byte(s, x / 8, 0x80u8 >> k);
}

const SEEN_BYTES: usize = 512;

// Notes the VLAN of the pair at an offset, unless it is a bad one or was noted.
fn note_vlan(map: &[u8], at: usize, seen: &mut [u8]) -> bool
    requires { (at + pair_bytes ≤ length map.now) × (length seen.old ≡ seen_bytes) }
    ensures { Noted (pair_at map.now at).vlan.0 seen.old seen.new result }
{
    let p = port_map_search::vlan_at(map, at);
    let v = p.0 as u64;
    if !numbers::vlan_good(v) {
        return false;
    }
    if flush_bits::has(seen, v) {
        return false;
    }
    add_number(seen, v as usize);
    true
}

// Whether each VLAN is good and stands once, from the last pair to the first.
fn vlans_noted(map: &[u8], seen: &mut [u8]) -> bool
    requires { (length map.now % pair_bytes ≡ 0) × ((length seen.old ≡ seen_bytes) × ((x : ℕ) → bit_at x seen.old ≡ false)) }
    ensures { result ≡ good_once vlan_good (vlans_in map.now) }
{
    for i in (0..map.len() / PAIR_BYTES).rev() {
        if !note_vlan(map, PAIR_BYTES * i, seen) {
            return false;
        }
    }
    true
}

fn vlans_good(map: &[u8]) -> bool
    requires { length map.now % pair_bytes ≡ 0 }
    ensures { result ≡ good_once vlan_good (vlans_in map.now) }
{
    let mut seen = [0u8; SEEN_BYTES];
    vlans_noted(map, &mut seen)
}

// Whether a VLAN stands in the pairs from an offset on.
fn vlan_again(map: &[u8], from: usize, v: PortVlan) -> bool
    requires { from ≤ length map.now }
    ensures { result ≡ any_of (eqb v.0) (vlans_in (drop from map.now)) }
{
    port_map_search::label_for(&map[from..], v).is_some()
}

// Whether the VLAN of the pair at an offset is good, and stands in none of those after it.
fn vlan_alone(map: &[u8], at: usize) -> bool
    requires { at + pair_bytes ≤ length map.now }
    ensures { result ≡ alone_at vlan_good vlan_of map.now at }
{
    let v = port_map_search::vlan_at(map, at);
    if !numbers::vlan_good(v.0 as u64) {
        return false;
    }
    !vlan_again(map, at + PAIR_BYTES, v)
}

// Whether each VLAN is good and stands once, each compared with those after it.
fn vlans_apart(map: &[u8]) -> bool
    ensures { result ≡ good_once vlan_good (vlans_in map.now) }
{
    (0..map.len() / PAIR_BYTES).all(|i| vlan_alone(map, PAIR_BYTES * i))
}

// Whether a label stands in the pairs from an offset on.
fn label_again(map: &[u8], from: usize, l: CampusLabel) -> bool
    requires { from ≤ length map.now }
    ensures { result ≡ any_of (eqb l.0) (labels_in (drop from map.now)) }
{
    port_map_search::vlan_for(&map[from..], l).is_some()
}

// Whether the label of the pair at an offset is good, and stands in none of those after it.
fn label_alone(map: &[u8], at: usize) -> bool
    requires { at + pair_bytes ≤ length map.now }
    ensures { result ≡ alone_at fine_good label_of map.now at }
{
    let l = port_map_search::label_at(map, at);
    if LAST_FINE < l.0 as u64 {
        return false;
    }
    !label_again(map, at + PAIR_BYTES, l)
}

// Whether each label is good and stands once, each compared with those after it.
fn labels_apart(map: &[u8]) -> bool
    ensures { result ≡ good_once fine_good (labels_in map.now) }
{
    (0..map.len() / PAIR_BYTES).all(|i| label_alone(map, PAIR_BYTES * i))
}

// The bits of a middling map's labels: one for each number of 14 bits.
const MET_BYTES: usize = 2048;

const MET_NUMBERS: u64 = 0x4000;

// Whether a label stands in the pairs from an offset on, whose bits are set.
fn label_met(map: &[u8], from: usize, l: CampusLabel, met: &[u8]) -> bool
    requires { (from ≤ length map.now) × ((length met.now ≡ met_bytes) × Met (labels_in (drop from map.now)) met.now) }
    ensures { result ≡ any_of (eqb l.0) (labels_in (drop from map.now)) }
{
    if !flush_bits::has(met, l.0 as u64 % MET_NUMBERS) {
        return false;
    }
    label_again(map, from, l)
}

// Notes the label of the pair at an offset, unless it is a bad one or stands in the pairs after it.
fn note_label(map: &[u8], at: usize, met: &mut [u8]) -> bool
    requires { (at + pair_bytes ≤ length map.now) × ((length met.old ≡ met_bytes) × Met (labels_in (drop (at + pair_bytes) map.now)) met.old) }
    ensures { LabelNoted (pair_at map.now at).label.0 (labels_in (drop (at + pair_bytes) map.now)) met.old met.new result }
{
    let l = port_map_search::label_at(map, at);
    if LAST_FINE < l.0 as u64 {
        return false;
    }
    if label_met(map, at + PAIR_BYTES, l, met) {
        return false;
    }
    add_number(met, (l.0 as u64 % MET_NUMBERS) as usize);
    true
}

// Whether each label is good and stands once, from the last pair to the first.
fn labels_noted(map: &[u8], met: &mut [u8]) -> bool
    requires { (length map.now % pair_bytes ≡ 0) × (length met.old ≡ met_bytes) }
    ensures { result ≡ good_once fine_good (labels_in map.now) }
{
    for i in (0..map.len() / PAIR_BYTES).rev() {
        if !note_label(map, PAIR_BYTES * i, met) {
            return false;
        }
    }
    true
}

// The labels of so few pairs are compared one with another: 32.
const FEW_BYTES: usize = 32 * PAIR_BYTES;

fn labels_good(map: &[u8]) -> bool
    requires { length map.now % pair_bytes ≡ 0 }
    ensures { result ≡ good_once fine_good (labels_in map.now) }
{
    if map.len() <= FEW_BYTES {
        return labels_apart(map);
    }
    let mut met = [0u8; MET_BYTES];
    labels_noted(map, &mut met)
}

// A key is a label, times this, and the number of its pair.
const KEY_PAIRS: u64 = 4096;

// So many keys at most. A map of more pairs has a VLAN twice.
const MOST_KEYS: usize = 4096;

// Makes the keys of all labels, unless one is bad.
fn make_keys(map: &[u8], keys: &mut [u64]) -> bool
    requires { (length map.now ≡ pair_bytes * length keys.old) × (length keys.old ≤ most_keys) }
    ensures { Keyed map.now keys.new result }
{
    for i in (0..keys.len()).rev() {
        let l = port_map_search::label_at(map, PAIR_BYTES * i);
        if LAST_FINE < l.0 as u64 {
            return false;
        }
        keys[i] = l.0 as u64 * KEY_PAIRS + i as u64;
    }
    true
}

// Whether keys in order are of different labels: two of one label stand side by side somewhere.
fn keys_apart(keys: &[u64]) -> bool
    requires { Sorted keys.now }
    ensures { Parted keys.now result }
{
    for i in 1..keys.len() {
        let a = keys[i - 1];
        let b = keys[i];
        if (a / KEY_PAIRS == b / KEY_PAIRS) & (a != b) {
            return false;
        }
    }
    true
}

// Whether each label is good and stands once, by keys that are sorted. No map makes it cost a square.
fn labels_sorted(map: &[u8], keys: &mut [u64], work: &mut [u64]) -> bool
    requires { (length map.now ≡ pair_bytes * length keys.old) × ((length keys.old ≤ most_keys) × (length keys.old ≤ length work.old)) }
    ensures { result ≡ good_once fine_good (labels_in map.now) }
{
    if !make_keys(map, keys) {
        return false;
    }
    flush_sort::sort(keys, work);
    keys_apart(keys)
}

fn labels_by_keys(map: &[u8]) -> bool
    requires { (length map.now % pair_bytes ≡ 0) × (length map.now ≤ pair_bytes * most_keys) }
    ensures { result ≡ good_once fine_good (labels_in map.now) }
{
    let n = map.len() / PAIR_BYTES;
    let mut keys = [0u64; MOST_KEYS];
    let mut work = [0u64; MOST_KEYS];
    labels_sorted(map, &mut keys[..n], &mut work)
}

// The bits of a long map's labels, in two sets: a bit for each number of their low 17 bits, and one for each of their high 16.
const LOW_BYTES: usize = 16384;

const LOW_NUMBERS: u64 = 0x2_0000;

const HIGH_BYTES: usize = 8192;

const HIGH_NUMBERS: u64 = 0x1_0000;

const HIGH_STEP: u64 = 0x100;

// Whether both bits of a label are set. Otherwise it is none of the labels whose bits are.
fn is_doubtful(l: CampusLabel, low: &[u8], high: &[u8]) -> bool
    requires { (length low.now ≡ low_bytes) × (length high.now ≡ high_bytes) }
    ensures { (s : List ℕ) → MetAt low_of s low.now → MetAt high_of s high.now → result ≡ false → false ≡ any_of (eqb l.0) s }
{
    if !flush_bits::has(low, l.0 as u64 % LOW_NUMBERS) {
        return false;
    }
    flush_bits::has(high, l.0 as u64 / HIGH_STEP % HIGH_NUMBERS)
}

// Whether a label stands in the pairs from an offset on, whose bits are set.
fn label_met_twice(map: &[u8], from: usize, l: CampusLabel, low: &[u8], high: &[u8]) -> bool
    requires { (from ≤ length map.now) × (((length low.now ≡ low_bytes) × (length high.now ≡ high_bytes)) × (MetAt low_of (labels_in (drop from map.now)) low.now × MetAt high_of (labels_in (drop from map.now)) high.now)) }
    ensures { result ≡ any_of (eqb l.0) (labels_in (drop from map.now)) }
{
    if !is_doubtful(l, low, high) {
        return false;
    }
    label_again(map, from, l)
}

// Notes the label of the pair at an offset in both sets, unless it is a bad one or stands in the pairs after it.
fn note_label_twice(map: &[u8], at: usize, low: &mut [u8], high: &mut [u8]) -> bool
    requires { (at + pair_bytes ≤ length map.now) × (((length low.old ≡ low_bytes) × (length high.old ≡ high_bytes)) × (MetAt low_of (labels_in (drop (at + pair_bytes) map.now)) low.old × MetAt high_of (labels_in (drop (at + pair_bytes) map.now)) high.old)) }
    ensures { LabelNotedTwice (pair_at map.now at).label.0 (labels_in (drop (at + pair_bytes) map.now)) low.old low.new high.old high.new result }
{
    let l = port_map_search::label_at(map, at);
    if LAST_FINE < l.0 as u64 {
        return false;
    }
    if label_met_twice(map, at + PAIR_BYTES, l, low, high) {
        return false;
    }
    add_number(low, (l.0 as u64 % LOW_NUMBERS) as usize);
    add_number(high, (l.0 as u64 / HIGH_STEP % HIGH_NUMBERS) as usize);
    true
}

// So many labels are compared with all after them; a map with more is judged by its keys.
const MOST_DOUBTS: usize = 64;

// Whether each label is good and stands once, from the last pair to the first.
fn labels_noted_twice(map: &[u8], low: &mut [u8], high: &mut [u8]) -> bool
    requires { ((length map.now % pair_bytes ≡ 0) × (length map.now ≤ pair_bytes * most_keys)) × ((length low.old ≡ low_bytes) × (length high.old ≡ high_bytes)) }
    ensures { result ≡ good_once fine_good (labels_in map.now) }
{
    let mut doubts = 0;
    for i in (0..map.len() / PAIR_BYTES).rev() {
        if MOST_DOUBTS < doubts {
            return labels_by_keys(map);
        }
        let at = PAIR_BYTES * i;
        let l = port_map_search::label_at(map, at);
        doubts += flush_sort::one(is_doubtful(l, low, high));
        if !note_label_twice(map, at, low, high) {
            return false;
        }
    }
    true
}

fn labels_long(map: &[u8]) -> bool
    requires { (length map.now % pair_bytes ≡ 0) × (length map.now ≤ pair_bytes * most_keys) }
    ensures { result ≡ good_once fine_good (labels_in map.now) }
{
    let mut low = [0u8; LOW_BYTES];
    let mut high = [0u8; HIGH_BYTES];
    labels_noted_twice(map, &mut low, &mut high)
}

// The three judges of a map. Each is right for any map that it takes; they differ in time.
pub fn short_good(map: &[u8]) -> bool
    ensures { result ≡ map_good map.now }
{
    if map.len() == 0 {
        return true;
    }
    if map.len() % PAIR_BYTES != 0 {
        return false;
    }
    if !vlans_apart(map) {
        return false;
    }
    labels_apart(map)
}

pub fn middling_good(map: &[u8]) -> bool
    ensures { result ≡ map_good map.now }
{
    if map.len() % PAIR_BYTES != 0 {
        return false;
    }
    if !vlans_good(map) {
        return false;
    }
    labels_good(map)
}

pub fn long_good(map: &[u8]) -> bool
    requires { length map.now ≤ pair_bytes * most_keys }
    ensures { result ≡ map_good map.now }
{
    if map.len() % PAIR_BYTES != 0 {
        return false;
    }
    if !vlans_good(map) {
        return false;
    }
    labels_long(map)
}

// A short map: 8 pairs. A middling one: 128, or so many that it has a VLAN twice.
const SHORT_BYTES: usize = 8 * PAIR_BYTES;

const MIDDLING_BYTES: usize = 128 * PAIR_BYTES;

const LONGEST_BYTES: usize = MOST_KEYS * PAIR_BYTES;

// Refusal 21: whether a map is good. An empty one is none, and good.
pub fn map_good(map: &[u8]) -> bool
    ensures { result ≡ map_good map.now }
{
    if map.len() <= SHORT_BYTES {
        return short_good(map);
    }
    if map.len() <= MIDDLING_BYTES {
        return middling_good(map);
    }
    if LONGEST_BYTES < map.len() {
        return middling_good(map);
    }
    long_good(map)
}

// The same for reading. With two callers the judges of longer maps stay calls, and only a call with such a map pays for their areas on the
// stack: the one above is a part of ingress, this one of reading.
pub fn map_good_for_reading(map: &[u8]) -> bool
    ensures { result ≡ map_good map.now }
{
    if map.len() <= SHORT_BYTES {
        return short_good(map);
    }
    if map.len() <= MIDDLING_BYTES {
        return middling_good(map);
    }
    if LONGEST_BYTES < map.len() {
        return middling_good(map);
    }
    long_good(map)
}
