// The portion call: the flush's own clearing over at most k slots from a slot on.
#![tactic(auto)]

ghost use Rattle.std.specs.Prelude.{◌≤◌, ◌≡◌};
ghost use Rattle.numbers.specs.After.{on_table};
ghost use Rattle.portions.specs.Portion.{portion_steps, portioned};

use numbers::refusals::Refusal;
use portions::Portion;
use table::SLOT_BYTES;

// The smaller of k and the slots left. The slots left are computed first, so that no k is too large.
fn steps(slot: usize, k: usize, n: usize) -> usize
    requires { slot ≤ n }
    ensures { result ≡ portion_steps slot k n }
{
    k.min(n - slot)
}

// One portion of a flush: 2, then 24, then 15 for the whole payload.
pub fn portion(
    ingress: u32,
    payload: &[u8],
    slot: usize,
    k: usize,
    table: &mut [u8],
) -> Result<Portion, Refusal>
    ensures { on_table result table.new ≡ portioned ingress payload.now slot k table.old }
{
    if !table_records::table_good(table) {
        return Err(Refusal::TableLengthBad);
    }
    let n = table.len() / SLOT_BYTES;
    if (k == 0) | (n <= slot) {
        return Err(Refusal::PortionBad);
    }
    let m = steps(slot, k, n);
    let s = flush_call::clear_portion(ingress, payload, slot, m, table)?;
    let cleared = s.cleared;
    let examined = s.examined;
    Ok(Portion {
        cleared: cleared as u16,
        next: (slot + examined) as u16,
        examined: examined as u16,
    })
}
