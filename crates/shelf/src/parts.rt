// Parts of the memory: one is opened or closed by moving what stands behind it, and a tree is fitted in one.
ghost use Rattle.std.specs.Prelude.{◌≡◌, ◌++◌, ◌+◌, ◌-◌, ◌≤◌, length, take, drop};
ghost use Rattle.arithmetic.specs.Refusals.{cause_of};
ghost use Rattle.arithmetic.specs.Row.{place};
ghost use Rattle.limits.specs.Limits.{most_state_prices};
ghost use Rattle.spacing.specs.Spacing.{spacing};
ghost use Rattle.fitted_laws.specs.Entry.{fit_number, fit_memory, fit_discounts};
ghost use Rattle.shelf_laws.specs.Parts.{part, opened, closed};
ghost use Rattle.shelf_laws.specs.Shelf.{fitted_slot};

use arithmetic::Refusal;
use price_bound::TreeErrorBounds;
use shelf_laws::{Located, Slot};

// Moves what stands from `at` on up by `count`; the last `count` numbers fall out.
fn move_up(memory: &mut [u64], at: usize, count: usize)
    requires { at + count ≤ length memory.old }
    ensures { memory.new ≡ take (at + count) memory.old
        ++ drop at (take (length memory.old - count) memory.old) }
{
    let end = memory.len() - count;
    memory.copy_within(at..end, at + count);
}

// Moves what stands from `at + count` on down by `count`; the last `count` numbers stay.
fn move_down(memory: &mut [u64], at: usize, count: usize)
    requires { at + count ≤ length memory.old }
    ensures { memory.new ≡ (take at memory.old ++ drop (at + count) memory.old)
        ++ drop (length memory.old - count) memory.old }
{
    memory.copy_within(at + count.., at);
}

// Puts `count` zeros in at `at`.
pub(crate) fn open_part(memory: &mut [u64], at: usize, count: usize)
    requires { at + count ≤ length memory.old }
    ensures { memory.new ≡ opened memory.old at count }
{
    move_up(memory, at, count);
    let end = at + count;
    memory[at..end].fill(0);
}

// Takes the `count` numbers at `at` out.
pub(crate) fn close_part(memory: &mut [u64], at: usize, count: usize)
    requires { at + count ≤ length memory.old }
    ensures { memory.new ≡ closed memory.old at count }
{
    move_down(memory, at, count);
    let from = memory.len() - count;
    memory[from..].fill(0);
}

// The fit of a tree, on the part of the memory where its discounts stand.
pub(crate) fn fit_part(
    memory: &mut [u64],
    tree: Located,
    frequency: u64,
    volatility: u64,
    rows: &[u64],
    kinds: &[u8],
    figures: &[f64],
) -> Result<(), Refusal>
    requires { tree.start + tree.count ≤ length memory.old }
    ensures number { cause_of result ≡ fit_number frequency tree.steps tree.reversion volatility
        rows.now kinds.now figures.now tree.count most_state_prices }
    ensures memory { memory.new ≡ place memory.old tree.start
        (fit_memory (cause_of result) (fit_discounts frequency tree.steps tree.reversion (spacing frequency volatility) kinds.now figures.now)
        (part memory.old tree.start tree.count)) }
{
    let mut state_prices = limits::state_price_room();
    let start = tree.start;
    let end = start + tree.count;
    fitting::fit(
        frequency,
        tree.steps,
        tree.reversion,
        volatility,
        rows,
        kinds,
        figures,
        &mut memory[start..end],
        &mut state_prices,
    )
}

// The slot of a fitted tree, by the discounts that stand in its part of the memory.
pub(crate) fn fitted_slot(memory: &[u64], tree: Located) -> Slot
    requires { tree.start + tree.count ≤ length memory.now }
    ensures { result ≡ fitted_slot tree.steps tree.reversion (part memory.now tree.start tree.count) }
{
    let start = tree.start;
    let end = start + tree.count;
    let found = TreeErrorBounds::from(price_bound::tree_bounds(
        tree.steps,
        tree.reversion,
        &memory[start..end],
    ));
    let rows = found.greatest;
    Slot {
        status: 2,
        steps: tree.steps,
        reversion: tree.reversion,
        bound: found.bound,
        greatest: rows,
    }
}
