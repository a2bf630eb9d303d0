// A shelf of trees under the names 1 to 8, whose discounts stand in one memory of 3,600 numbers. The trees stand in the order of their names
// without gaps, so where a tree starts follows from the slots before it, and moves when others are asked for or released.
#![tactic(auto)]

mod parts;
mod slots;

ghost use Rattle.std.specs.Prelude.{◌≡◌};
ghost use Rattle.arithmetic.specs.Refusals.{number_of};
ghost use Rattle.shelf_laws.specs.Shelf.{
  empty_slots,
  located_tree,
  part_of,
  ask_number,
  ask_slots,
  ask_memory,
  commit_number,
  commit_slots,
  commit_memory,
  name_cause,
  release_slots,
  release_memory,
};

use arithmetic::Refusal;
use shelf_laws::{Located, Part, Shelf, Shelved};

fn refused(refusal: Refusal, shelf: Shelf) -> Shelved
    ensures { (result.number ≡ number_of refusal) × (result.shelf.slots ≡ shelf.slots) }
{
    let number = refusal.number();
    Shelved { number, shelf }
}

// The empty shelf: no name present, no node held.
pub fn empty_shelf() -> Shelf
    ensures { result.slots ≡ empty_slots }
{
    let slot = slots::empty_slot();
    let slots = [slot; 8];
    Shelf { slots }
}

fn no_tree() -> Located
    ensures { result ≡ record { status = 0; start = 0; count = 0; steps = 0; reversion = 0; bound = 0 } }
{
    Located {
        status: 0,
        start: 0,
        count: 0,
        steps: 0,
        reversion: 0,
        bound: 0,
    }
}

// The tree of a name: where it stands and what it is; zeros for a name outside 1 to 8, one without a tree, or a shelf that no calls lead to.
pub fn tree_of(shelf: Shelf, name: usize) -> Located
    ensures { result ≡ located_tree shelf.slots name }
{
    let status = slots::status_of(shelf, name);
    if status == 0 {
        return no_tree();
    }
    if 2 < status {
        return no_tree();
    }
    let slot = slots::slot_at(shelf, name - 1);
    Located {
        status: slot.status,
        start: slots::nodes_before(shelf, name - 1),
        count: slots::nodes_of(slot),
        steps: slot.steps,
        reversion: slot.reversion,
        bound: slot.bound,
    }
}

// Where the discounts of a name's tree stand.
pub fn part_of(shelf: Shelf, name: usize) -> Part
    ensures { result ≡ part_of shelf.slots name }
{
    let tree = tree_of(shelf, name);
    Part {
        start: tree.start,
        count: tree.count,
    }
}

// Asks for a tree: the nodes that its discounts need are set aside, all 0. 15 a name outside 1 to 8 or already present, 3 the steps, 4 the
// reversion, 14 nodes that pass 3,600 with those held.
pub fn ask(
    shelf: Shelf,
    memory: &mut [u64; shelf_laws::ROOM],
    name: usize,
    steps: usize,
    reversion: u64,
) -> Shelved
    ensures number { result.number ≡ ask_number shelf.slots name steps reversion }
    ensures slots { result.shelf.slots ≡ ask_slots shelf.slots name steps reversion }
    ensures memory { memory.new ≡ ask_memory shelf.slots memory.old name steps reversion }
{
    if let Err(refusal) = slots::ask_cause(shelf, name, steps, reversion) {
        return refused(refusal, shelf);
    }
    let at = slots::nodes_before(shelf, name - 1);
    let needed = lattice::discounts_needed(steps, reversion).unwrap();
    parts::open_part(memory, at, needed as usize);
    let slot = slots::awaiting_slot(steps, reversion);
    slots::replaced(shelf, name - 1, slot)
}

// Commits a tree that awaits it: the fit is run on its discounts, and its bounds are worked out from them. 15 a name without such a tree; then the
// fit's causes, which leave the tree awaiting a commit.
pub fn commit(
    shelf: Shelf,
    memory: &mut [u64; shelf_laws::ROOM],
    name: usize,
    frequency: u64,
    volatility: u64,
    rows: &[u64],
    kinds: &[u8],
    figures: &[f64],
) -> Shelved
    ensures number { result.number ≡ commit_number shelf.slots name frequency volatility
        rows.now kinds.now figures.now }
    ensures slots { result.shelf.slots ≡ commit_slots shelf.slots memory.old name frequency volatility
        rows.now kinds.now figures.now }
    ensures memory { memory.new ≡ commit_memory shelf.slots memory.old name frequency volatility
        rows.now kinds.now figures.now }
{
    let tree = tree_of(shelf, name);
    if tree.status != 1 {
        return refused(Refusal::Name, shelf);
    }
    let fitted = parts::fit_part(memory, tree, frequency, volatility, rows, kinds, figures);
    if let Err(refusal) = fitted {
        return refused(refusal, shelf);
    }
    let slot = parts::fitted_slot(memory, tree);
    slots::replaced(shelf, name - 1, slot)
}

// Releases a tree: its nodes are given back. 15 a name without a tree.
pub fn release(shelf: Shelf, memory: &mut [u64; shelf_laws::ROOM], name: usize) -> Shelved
    ensures number { result.number ≡ name_cause shelf.slots name }
    ensures slots { result.shelf.slots ≡ release_slots shelf.slots name }
    ensures memory { memory.new ≡ release_memory shelf.slots memory.old name }
{
    let tree = tree_of(shelf, name);
    if tree.status == 0 {
        return refused(Refusal::Name, shelf);
    }
    parts::close_part(memory, tree.start, tree.count);
    let slot = slots::empty_slot();
    slots::replaced(shelf, name - 1, slot)
}
