// Whether an entry of a contents area is good, and where it ends. Places are counted in numbers of 8 bytes.
#![tactic(auto)]

ghost use Rattle.std.specs.Prelude.{◌+◌, ◌*◌, ◌<◌, ◌≤◌, true, ◌≡◌, leb, ltb, length, get_or};
ghost use Rattle.numbers.specs.Tests.{both};
ghost use Rattle.hello.specs.Pieces.{parameters_type, smart_mac_type, nickname_type, trees_type};
ghost use Rattle.hello.specs.Writing.{most_nicknames, most_trees, label_top};
ghost use Rattle.hello.specs.Area.{take_many};
ghost use Rattle.hello_area.specs.Entries.{numbers_in, take_item, take_sub, reach};
ghost use Rattle.hello_ends.specs.Below.{take_below, field_top, Over, entry_good};

// The most elements of the lists.
const MOST_NICKNAMES: u64 = 49;

const MOST_TREES: u64 = 123;

const MOST_MACS: u64 = 41;

// What a number of two bytes is below, and one of six.
const TWO_BYTES: u64 = 0x1_0000;

const SIX_BYTES: u64 = 0x1_0000_0000_0000;

// How many numbers an area has.
pub fn size(area: &[u8]) -> usize
    ensures { (result ≡ length (numbers_in area.now)) × (8 * result ≤ length area.now) }
{
    area.len() / 8
}

// The number at a place.
pub fn number(area: &[u8], i: usize) -> u64
    requires { i < length (numbers_in area.now) }
    ensures { result ≡ get_or (numbers_in area.now) i 0 }
{
    numbers::be8(area, 8 * i)
}

// Three numbers, each below its limit.
fn three_good(a: u64, b: u64, c: u64, top: u64, second: u64, third: u64) -> bool
    ensures { result ≡ both (ltb a top) (both (ltb b second) (ltb c third)) }
{
    (a < top) & ((b < second) & (c < third))
}

// The record of a nickname.
fn record_good(area: &[u8], i: usize) -> bool
    requires { i + 3 ≤ length (numbers_in area.now) }
    ensures { result ≡ both (ltb (get_or (numbers_in area.now) i 0) 0x100) (both (ltb (get_or (numbers_in area.now) (i + 1) 0) 0x1_0000) (ltb (get_or (numbers_in area.now) (i + 2) 0) 0x1_0000)) }
{
    three_good(
        number(area, i),
        number(area, i + 1),
        number(area, i + 2),
        0x100,
        0x1_0000,
        0x1_0000,
    )
}

// So many records of nicknames.
fn records_end(area: &[u8], i: usize, m: usize) -> usize
    requires { (i ≤ length (numbers_in area.now)) × (m ≤ most_nicknames) }
    ensures { result ≡ reach (take_many (take_item nickname_type) m) (numbers_in area.now) i }
{
    let n = size(area);
    if n < i + 3 * m {
        return n + 1;
    }
    for j in 0..m {
        if !record_good(area, i + 3 * j) {
            return n + 1;
        }
    }
    i + 3 * m
}

// The bytes of a number that are over its field, of two bytes or of six, with the first one lowest: 0 where the number is below its limit.
fn number_over(area: &[u8], i: usize, top: u64) -> u64
    requires { (i < length (numbers_in area.now)) × (field_top top ≡ true) }
    ensures { Over top (get_or (numbers_in area.now) i 0) result }
{
    let w = numbers::le4(area, 8 * i) + numbers::le4(area, 8 * i + 4) * 0x1_0000_0000;
    if top == 0x1_0000 {
        return w % 0x1_0000_0000_0000;
    }
    w % 0x1_0000
}

// So many numbers are below a limit. Their bytes over the field are added up, so that the list has one test.
fn numbers_good(area: &[u8], i: usize, m: usize, top: u64) -> bool
    requires { (i + m ≤ length (numbers_in area.now)) × ((m ≤ most_trees) × (field_top top ≡ true)) }
    ensures { result ≡ leb (reach (take_many (take_below top) m) (numbers_in area.now) i) (length (numbers_in area.now)) }
{
    let mut sum = 0;
    for j in 0..m {
        sum += number_over(area, i + j, top);
    }
    sum == 0
}

fn label_top(f: u64) -> u64
    ensures { result ≡ label_top f }
{
    if f == 1 {
        return 0x100_0000;
    }
    0x1000
}

// F, M and the label of a Smart-MAC.
fn label_good(area: &[u8], i: usize) -> bool
    requires { i + 3 ≤ length (numbers_in area.now) }
    ensures { result ≡ both (ltb (get_or (numbers_in area.now) i 0) 2) (both (ltb (get_or (numbers_in area.now) (i + 1) 0) 2) (ltb (get_or (numbers_in area.now) (i + 2) 0) (label_top (get_or (numbers_in area.now) i 0)))) }
{
    let f = number(area, i);
    three_good(
        f,
        number(area, i + 1),
        number(area, i + 2),
        2,
        2,
        label_top(f),
    )
}

// The entries of a section, each by its type: whether it is good, one test for all numbers in front of its list.
pub fn parameters_good(area: &[u8], i: usize) -> bool
    requires { i ≤ length (numbers_in area.now) }
    ensures { result ≡ entry_good parameters_type (numbers_in area.now) i }
{
    if size(area) < i + 2 {
        return false;
    }
    if TWO_BYTES <= number(area, i) {
        return false;
    }
    number(area, i + 1) < TWO_BYTES
}

pub fn trees_good(area: &[u8], i: usize) -> bool
    requires { i ≤ length (numbers_in area.now) }
    ensures { result ≡ entry_good trees_type (numbers_in area.now) i }
{
    let n = size(area);
    if n < i + 2 {
        return false;
    }
    let m = number(area, i + 1);
    if MOST_TREES < m {
        return false;
    }
    if n < i + 2 + m as usize {
        return false;
    }
    if TWO_BYTES <= number(area, i) {
        return false;
    }
    numbers_good(area, i + 2, m as usize, TWO_BYTES)
}

pub fn macs_good(area: &[u8], i: usize) -> bool
    requires { i ≤ length (numbers_in area.now) }
    ensures { result ≡ entry_good smart_mac_type (numbers_in area.now) i }
{
    let n = size(area);
    if n < i + 4 {
        return false;
    }
    let m = number(area, i + 3);
    if MOST_MACS < m {
        return false;
    }
    if n < i + 4 + m as usize {
        return false;
    }
    if !label_good(area, i) {
        return false;
    }
    numbers_good(area, i + 4, m as usize, SIX_BYTES)
}

// Where an entry of nicknames ends; past the area's end where it is malformed. So entries without one follow without waiting for a count.
pub fn nicknames_end(area: &[u8], i: usize) -> usize
    requires { i ≤ length (numbers_in area.now) }
    ensures { result ≡ reach (take_sub nickname_type) (numbers_in area.now) i }
{
    let n = size(area);
    if n <= i {
        return n + 1;
    }
    let m = number(area, i);
    if MOST_NICKNAMES < m {
        return n + 1;
    }
    records_end(area, i + 1, m as usize)
}
