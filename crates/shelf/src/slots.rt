// The slots of a shelf: the nodes that they hold, and the tree of a name.
ghost use Rattle.std.specs.Prelude.{◌≡◌, ◌≤◌, ◌<◌, set, replicate};
ghost use Rattle.arithmetic.specs.Refusals.{cause_of};
ghost use Rattle.limits.specs.Limits.{most_steps};
ghost use Rattle.shelf_laws.specs.Shelf.{
  empty_slot,
  awaiting_slot,
  slot_at,
  nodes_of,
  nodes_before,
  status_of,
  ask_number,
};

use arithmetic::Refusal;
use shelf_laws::{Shelf, Shelved, Slot};

// More nodes than the memory has.
const TOO_MANY: usize = shelf_laws::ROOM + 1;

// Zeros, made apart so that no proof above sees them one by one.
fn no_rows() -> [u64; limits::MOST_STEPS]
    ensures { result ≡ replicate most_steps 0 }
{
    [0u64; limits::MOST_STEPS]
}

pub(crate) fn empty_slot() -> Slot
    ensures { result ≡ empty_slot }
{
    let rows = no_rows();
    Slot {
        status: 0,
        steps: 0,
        reversion: 0,
        bound: 0,
        greatest: rows,
    }
}

pub(crate) fn awaiting_slot(steps: usize, reversion: u64) -> Slot
    ensures { result ≡ awaiting_slot steps reversion }
{
    let rows = no_rows();
    Slot {
        status: 1,
        steps,
        reversion,
        bound: 0,
        greatest: rows,
    }
}

// The shelf with another slot, after a call that was accepted.
pub(crate) fn replaced(shelf: Shelf, at: usize, slot: Slot) -> Shelved
    requires { at < 8 }
    ensures { (result.number ≡ 0) × (result.shelf.slots ≡ set shelf.slots at slot) }
{
    let mut next = shelf;
    next.slots[at] = slot;
    Shelved {
        number: 0,
        shelf: next,
    }
}

pub(crate) fn slot_at(shelf: Shelf, at: usize) -> Slot
    requires { at < 8 }
    ensures { result ≡ slot_at shelf.slots at }
{
    shelf.slots[at]
}

// The nodes of a slot's tree. A slot that no call leaves behind counts as more than the memory has.
pub(crate) fn nodes_of(slot: Slot) -> usize
    ensures { result ≡ nodes_of slot }
{
    if slot.status == 0 {
        return 0;
    }
    if 2 < slot.status {
        return TOO_MANY;
    }
    let Ok(needed) = lattice::discounts_needed(slot.steps, slot.reversion) else {
        return TOO_MANY;
    };
    needed as usize
}

// The nodes of the first slots, which is where the next one's stand.
pub(crate) fn nodes_before(shelf: Shelf, count: usize) -> usize
    requires { count ≤ 8 }
    ensures { result ≡ nodes_before shelf.slots count }
{
    let mut nodes: usize = 0;
    for slot in &shelf.slots[..count] {
        nodes += nodes_of(*slot);
    }
    nodes
}

// A name's status; 3 where there is no such name, or the shelf holds more nodes than the memory has, which no calls lead to.
pub(crate) fn status_of(shelf: Shelf, name: usize) -> u64
    ensures { result ≡ status_of shelf.slots name }
{
    if name == 0 {
        return 3;
    }
    if 8 < name {
        return 3;
    }
    if TOO_MANY <= nodes_before(shelf, 8) {
        return 3;
    }
    let slot = slot_at(shelf, name - 1);
    slot.status
}

// The refusal of an asking: the name, the steps, the reversion or the nodes.
pub(crate) fn ask_cause(
    shelf: Shelf,
    name: usize,
    steps: usize,
    reversion: u64,
) -> Result<(), Refusal>
    ensures { cause_of result ≡ ask_number shelf.slots name steps reversion }
{
    if status_of(shelf, name) != 0 {
        return Err(Refusal::Name);
    }
    let needed = lattice::discounts_needed(steps, reversion)?;
    if TOO_MANY <= needed as usize + nodes_before(shelf, 8) {
        return Err(Refusal::Nodes);
    }
    Ok(())
}
