// Why a flush clears a slot or leaves it. The definitions are in specs/.
#![tactic(auto)]

ghost use Rattle.why.specs.Claims.{WhyExact, WhyFirst, WhyPlaces, WhyRefusals};
ghost use Rattle.why.specs.Cases.{WhyCases};

// What brought the nickname: no list, so that the sender is meant; or the listed nickname at a place.
#[derive(Clone, Copy)]
pub enum NicknameMatch {
    Sender,
    Listed(u8),
}

// What brought the label: the VLAN block at a place, or the TLV at a place.
#[derive(Clone, Copy)]
pub enum LabelMatch {
    Block(usize),
    Tlv(usize),
}

// What brought the MAC: none was gathered, so that every MAC is meant; or the TLV at a place.
#[derive(Clone, Copy)]
pub enum MacMatch {
    Every,
    Tlv(usize),
}

// What brought a record into each of the three sets.
#[derive(Clone, Copy)]
pub struct Places {
    pub nickname: NicknameMatch,
    pub label: LabelMatch,
    pub mac: MacMatch,
}

// The reasons in the order in which they are judged.
#[derive(Clone, Copy)]
pub enum Reason {
    Free,
    Spoilt,
    Configured,
    NicknameNotMeant,
    LabelNotMeant,
    MacNotMeant,
    Cleared(Places),
}

// What holds of the definitions of the reason.
pub fn claims()
    ensures { WhyExact × WhyFirst × WhyPlaces × WhyRefusals × WhyCases }
{}
