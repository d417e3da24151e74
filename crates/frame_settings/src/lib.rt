// Whether settings are good, and which group addresses are TRILL's or a bridge's control addresses.
#![tactic(auto)]

ghost use Rattle.std.specs.Prelude.{◌≡◌};
ghost use Rattle.frame.specs.Front.{trill_group, control_address, reserved_group};
ghost use Rattle.frame.specs.Settings.{addresses_good, seconds_good, numbers_good, later_good, settings_good};

use frame::{
    ALL_RBRIDGES, COMPACT_ON, FIRST_CONTROL, LAST_CONTROL, LAST_TRILL_GROUP, LEAST_SECONDS,
    MOST_CONFIDENCE, MOST_MULTIHOMED, MOST_SECONDS, MOST_SMART, Settings, VLAN_REGISTRATION,
};

fn addresses_good(s: Settings) -> bool
    ensures { result ≡ addresses_good s }
{
    numbers::is_individual(s.port) & (numbers::is_individual(s.inner) & (s.port != s.inner))
}

fn seconds_good(n: u32) -> bool
    ensures { result ≡ seconds_good n }
{
    (n == 0) | ((LEAST_SECONDS <= n) & (n <= MOST_SECONDS))
}

fn numbers_good(s: Settings) -> bool
    ensures { result ≡ numbers_good s }
{
    numbers::nickname_good(s.nickname as u64)
        & ((s.compact <= COMPACT_ON)
            & ((s.confidence <= MOST_CONFIDENCE) & seconds_good(s.seconds)))
}

fn later_good(s: Settings) -> bool
    ensures { result ≡ later_good s }
{
    (s.multihomed <= MOST_MULTIHOMED) & (s.smart <= MOST_SMART)
}

// Refusal 1: whether the settings are within their ranges.
pub fn settings_good(s: Settings) -> bool
    ensures { result ≡ settings_good s }
{
    addresses_good(s) & (numbers_good(s) & later_good(s))
}

// :40 to :4F.
pub fn is_trill_group(a: u64) -> bool
    ensures { result ≡ trill_group a }
{
    (ALL_RBRIDGES <= a) & (a <= LAST_TRILL_GROUP)
}

// 01-80-C2-00-00-00 to 0F, and 21.
fn is_control(a: u64) -> bool
    ensures { result ≡ control_address a }
{
    ((FIRST_CONTROL <= a) & (a <= LAST_CONTROL)) | (a == VLAN_REGISTRATION)
}

// A group that stands in front of no Compact frame: one of TRILL's or a control address.
pub fn is_reserved(a: u64) -> bool
    ensures { result ≡ reserved_group a }
{
    is_trill_group(a) | is_control(a)
}
