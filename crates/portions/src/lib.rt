// Flush in portions: at most k slots per call. The definitions are in specs/.
#![tactic(auto)]

ghost use Rattle.portions.specs.Claims.{PortionExact, PortionRefusal, PortionsWhole, PortionsReach, PortionsEnd, PortionKeepsApart, PortionLeavesAlone};
ghost use Rattle.portions.specs.Between.{Later, Passed};

// What a portion did: records cleared, the slot to go on from, slots examined.
#[derive(Clone, Copy)]
pub struct Portion {
    pub cleared: u16,
    pub next: u16,
    pub examined: u16,
}

// What holds of the definitions of a flush in portions.
pub fn claims()
    ensures { PortionExact × PortionRefusal × PortionsWhole × PortionsReach × PortionsEnd × PortionKeepsApart × PortionLeavesAlone × Later × Passed }
{}
