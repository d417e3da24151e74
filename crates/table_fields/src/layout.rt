// How a record lies in its bytes, most significant bit first: state 2 bits, label kind 1, label 24, MAC 48, nickname 16, confidence 8,
// seconds 13, multihomed 1, then 7 bits that are 0. An offset counts the bytes of the record before those that a field is read from; a unit is the weight of the field's
// lowest bit in the number of these.

// How many values a field has.
pub const KINDS: u64 = 2;

pub const LABELS: u64 = 0x100_0000;

pub const MACS: u64 = 0x1_0000_0000_0000;

pub const NICKNAMES: u64 = 0x1_0000;

pub const CONFIDENCES: u64 = 0x100;

pub const SECONDS: u64 = 0x2000;

// The front, a record's first four bytes: state, kind, label and five bits of the address.
pub const FRONT_STATE: u64 = 0x4000_0000;

pub const FRONT_KIND: u64 = 0x2000_0000;

pub const FRONT_LABEL: u64 = 0x20;

// What follows the front: eight bytes, and two whose low bits are the seconds.
pub const MIDDLE_OFFSET: usize = 4;

pub const SECONDS_OFFSET: usize = 12;

// The head, its first eight bytes: state, kind, label and 37 bits of the address.
pub const HEAD_STATE: u64 = 0x4000_0000_0000_0000;

pub const HEAD_KIND: u64 = 0x2000_0000_0000_0000;

pub const HEAD_LABEL: u64 = 0x20_0000_0000;

pub const HEAD_GROUP: u64 = 0x2000_0000;

// The tail, its last six bytes: the other 11 bits of the address, nickname, confidence, seconds.
pub const TAIL_OFFSET: usize = 8;

pub const TAIL_MACS: u64 = 0x800;

pub const TAIL_MAC: u64 = 0x20_0000_0000;

pub const TAIL_NICKNAME: u64 = 0x20_0000;

pub const TAIL_CONFIDENCE: u64 = 0x2000;

// The state and the kind in the first byte, the group bit in the fifth, the last three bits of the address in the tenth, those of the
// nickname in the twelfth.
pub const BYTE_STATE: u64 = 0x40;

pub const BYTE_KIND: u64 = 0x20;

pub const GROUP_OFFSET: usize = 4;

pub const BYTE_GROUP: u64 = 0x20;

pub const MAC_LOW_OFFSET: usize = 9;

pub const NICKNAME_LOW_OFFSET: usize = 11;

pub const BYTE_LOW: u64 = 0x20;

pub const LOWS: u64 = 8;

// The address in eight bytes, the nickname in three, and all but its last three bits in two.
pub const MAC_OFFSET: usize = 3;

pub const MAC_UNIT: u64 = 0x2000;

pub const NICKNAME_OFFSET: usize = 9;

pub const NICKNAME_UNIT: u64 = 0x20;

pub const NICKNAME_HIGHS: u64 = 0x2000;

// The byte with bits 3 to 10 of the address and the one before it, with bits 11 to 18; the byte with bits 3 to 10 of the nickname.
pub const KEY_OFFSET: usize = 8;

pub const NEXT_KEY_OFFSET: usize = 7;

pub const KEYS: u64 = 0x100;

pub const NICKNAME_MIDDLE_OFFSET: usize = 10;

// The confidence in three bytes; the byte of the mark, and the multihomed bit in it.
pub const CONFIDENCE_OFFSET: usize = 11;

pub const CONFIDENCE_UNIT: u64 = 0x2000;

pub const MARK_OFFSET: usize = 14;

pub const BYTE_MULTIHOMED: u64 = 0x80;
