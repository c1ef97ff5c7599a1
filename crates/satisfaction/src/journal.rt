// Writes that can be taken back.
ghost use Rattle.std.specs.Prelude.{◌≡◌, ◌<◌, [], ◌∷◌, ◌++◌, length, slice_set, OnOk, OnErr};
ghost use Rattle.satisfaction.specs.Counters.{wait_state_at};
ghost use Rattle.satisfaction.specs.Journal.{undone, AreWithin, IsJournaled};

use super::nodes::WaitState;
use std::alloc::AllocError;

/// Writes what is kept of a node; the journal gets what stood there.
///
/// Refused where the journal's growth was refused; nothing is written then.
pub fn write(
    wait_states: &mut [WaitState],
    journal: &mut Vec<(usize, WaitState)>,
    node: usize,
    new: WaitState,
) -> Result<(), AllocError>
    requires { node < length wait_states.old }
    ensures wait_states { OnOk result (wait_states.new ≡ slice_set wait_states.old node new) }
    ensures noted { OnOk result (journal.new.items ≡ journal.old.items ++ (node, wait_state_at wait_states.old node) ∷ []) }
    ensures unchanged { OnErr result (wait_states.new ≡ wait_states.old) }
    ensures nothing_noted { OnErr result (journal.new.items ≡ journal.old.items) }
    ensures journaled { IsJournaled wait_states.old journal.old.items wait_states.new journal.new.items }
{
    journal.push((node, wait_states[node]))?;
    wait_states[node] = new;
    Ok(())
}

/// Writes what stood at a node before.
fn put(wait_states: &mut [WaitState], node: usize, old: WaitState)
    requires { node < length wait_states.old }
    ensures { wait_states.new ≡ slice_set wait_states.old node old }
{
    wait_states[node] = old;
}

/// Takes back all writes of a journal, the last one first. It takes no memory.
pub fn take_back(wait_states: &mut [WaitState], journal: &mut Vec<(usize, WaitState)>)
    requires within { AreWithin (length wait_states.old) journal.old.items }
    ensures back { wait_states.new ≡ undone journal.old.items wait_states.old }
    ensures empty { journal.new.items ≡ [] }
    ensures size { length wait_states.new ≡ length wait_states.old }
{
    while let Some((node, old)) = journal.pop() {
        put(wait_states, node, old);
    }
}
