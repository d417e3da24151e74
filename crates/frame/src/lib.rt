// Frames of both formats: settings, the destination in front, header, label, fields. The definitions are in specs/.
#![tactic(auto)]

ghost use Rattle.frame.specs.Claims.{HeaderLocal, LabelLocal, LabelsGood};

// The eight numbers of a port's settings, as they arrive: the six of document 01, then that of two homes, and that of Smart Endnodes,
// which is 0 until its request lands.
#[derive(Clone, Copy)]
pub struct Settings {
    pub port: u64,
    pub inner: u64,
    pub nickname: u32,
    pub compact: u32,
    pub confidence: u32,
    pub seconds: u32,
    pub multihomed: u32,
    pub smart: u32,
}

// Compact on, as a setting.
pub const COMPACT_ON: u32 = 1;

// Which R bit of the header marks a frame: none (0), the first, the second.
pub const FIRST_BIT: u32 = 1;

pub const SECOND_BIT: u32 = 2;

pub const MOST_MULTIHOMED: u32 = SECOND_BIT;

// Smart Endnodes: 0, which is off, until their request lands.
pub const SMART_ON: u32 = 1;

pub const MOST_SMART: u32 = SMART_ON;

// The greatest confidence; the learning seconds, and those that 0 stands for.
pub const MOST_CONFIDENCE: u32 = 255;

pub const LEAST_SECONDS: u32 = 10;

pub const MOST_SECONDS: u32 = 8191;

pub const DEFAULT_LIFE_SECONDS: u32 = 1200;

// 01-80-C2-00-00-40 All-RBridges, :42 All-Egress-RBridges, :4F the last address that TRILL has.
pub const ALL_RBRIDGES: u64 = 0x0180_c200_0040;

pub const ALL_EGRESS_RBRIDGES: u64 = 0x0180_c200_0042;

pub const LAST_TRILL_GROUP: u64 = 0x0180_c200_004f;

// Control addresses: 01-80-C2-00-00-00 to 0F, which bridges keep for themselves, and :21, that of VLAN registration.
pub const FIRST_CONTROL: u64 = 0x0180_c200_0000;

pub const LAST_CONTROL: u64 = 0x0180_c200_000f;

pub const VLAN_REGISTRATION: u64 = 0x0180_c200_0021;

// Ethertypes: TRILL, C-VLAN tag, fine-grained label, RBridge Channel.
pub const TRILL_ETHERTYPE: u64 = 0x22f3;

pub const TAG_ETHERTYPE: u64 = 0x8100;

pub const FINE_ETHERTYPE: u64 = 0x893b;

pub const CHANNEL_ETHERTYPE: u64 = 0x8946;

// The lengths of frames.
pub const SHORTEST_FRAME: usize = 14;

pub const LONGEST_FRAME: usize = 9216;

// The lengths of parts: an address, a destination with its source, an Ethertype, a tag (also a label that is a VLAN), a fine-grained
// label, two addresses with a tag after them, the outer part without a tag and with one, the least content.
pub const ADDRESS_BYTES: usize = 6;

pub const ADDRESSES_BYTES: usize = 2 * ADDRESS_BYTES;

pub const ETHERTYPE_BYTES: usize = 2;

pub const TAG_BYTES: usize = 4;

pub const FINE_BYTES: usize = 2 * TAG_BYTES;

pub const TAGGED_ADDRESSES_BYTES: usize = ADDRESSES_BYTES + TAG_BYTES;

pub const UNTAGGED_OUTER_BYTES: usize = ADDRESSES_BYTES + ETHERTYPE_BYTES;

pub const TAGGED_OUTER_BYTES: usize = TAGGED_ADDRESSES_BYTES + ETHERTYPE_BYTES;

pub const LEAST_CONTENT: usize = 2;

// A part of a label holds 12 bits: a VLAN is one, a fine-grained label two.
pub const LABEL_PART: u64 = 0x1000;

// The header: six bytes and four for each unit of Op-Length; egress and ingress nickname at these offsets.
pub const FIXED_HEADER_BYTES: usize = 6;

pub const OPTION_BYTES: usize = 4;

pub const EGRESS_OFFSET: usize = 2;

pub const INGRESS_OFFSET: usize = 4;

// The header's first word, from its low bit on: Hop Count 6 bits, Op-Length 5, M 1, R 2, V 2. Each field has its lowest bit and the
// number of its values.
pub const HOP_COUNT_VALUES: u64 = 0x40;

pub const OPTION_LENGTH_BIT: u64 = 0x40;

pub const OPTION_LENGTH_VALUES: u64 = 0x20;

pub const MULTICAST_BIT: u64 = 0x800;

pub const MULTICAST_VALUES: u64 = 2;

pub const FIRST_RESERVED_BIT: u64 = 0x2000;

pub const SECOND_RESERVED_BIT: u64 = 0x1000;

pub const RESERVED_VALUES: u64 = 2;

pub const VERSION_BIT: u64 = 0x4000;

pub const VERSION_VALUES: u64 = 4;

// What holds of the definitions of frames.
pub fn claims()
    ensures { HeaderLocal × LabelLocal × LabelsGood }
{}
