// The fit over all rows, in two memories that store their rows one after the other.
ghost use Rattle.std.specs.Prelude.{◌≡◌, true, suc, length};
ghost use Rattle.arithmetic.specs.Row.{values};
ghost use Rattle.row_branches.specs.inside.Transitions.{row_transition};
ghost use Rattle.lattice.specs.Shape.{node_count, row_start};
ghost use Rattle.lattice.specs.RateTree.{rate_tree};
ghost use Rattle.fitting.specs.inside.Rows.{table_factor, RowFitted};
ghost use Rattle.fitting.specs.inside.Preconditions.{RowReady, TreeRowReady, RowsReady};
ghost use Rattle.fitting.specs.inside.TableFit.{table_discount, table_state_price, table_accepted, TreeFitted, PastKept};

use crate::step;

// Where a row starts in both memories, the next row's node count, and the next row's quote.
#[derive(Drop)]
struct RowPlace {
    start: usize,
    next: usize,
    quote: u64,
}

// A row of the tree of so many steps, and the next row's quote.
#[derive(Drop)]
struct TreePlace {
    reversion: u64,
    steps: usize,
    row: usize,
    quote: u64,
}

// A row's discounts, and the next row's state prices where all are accepted.
fn fit_row(
    at: RowPlace,
    factors: &[u64],
    downs: &[u64],
    discounts: &mut [u64],
    state_prices: &mut [u64],
    sums: &mut [u64],
) -> bool
    requires { RowReady at.start at.next at.quote factors.now downs.now discounts.old state_prices.old sums.old }
    ensures { RowFitted at.start (length factors.now) at.next at.quote
        (values factors.now) (row_transition downs.now at.next)
        discounts.old state_prices.old discounts.new state_prices.new result }
{
    let start = at.start;
    let next = at.next;
    let end = start + factors.len();
    let last = end + next;
    if !step::step_row(
        &state_prices[start..end],
        factors,
        downs,
        at.quote,
        &mut discounts[start..end],
        &mut sums[..next],
    ) {
        return false;
    }
    step::divide(&sums[..next], &mut state_prices[end..last]);
    true
}

// The same of a row of the tree, with its parts of the tables.
fn tree_row(
    at: TreePlace,
    factors: &[u64],
    downs: &[u64],
    discounts: &mut [u64],
    state_prices: &mut [u64],
    sums: &mut [u64],
) -> bool
    requires { TreeRowReady at.reversion at.steps at.row at.quote
        factors.now downs.now discounts.old state_prices.old sums.old }
    ensures { RowFitted (row_start at.reversion at.row) (node_count at.reversion at.row)
        (node_count at.reversion (suc at.row)) at.quote
        (table_factor at.reversion at.steps factors.now at.row) ((rate_tree at.reversion).step at.row)
        discounts.old state_prices.old discounts.new state_prices.new result }
{
    let shape = lattice::row_shape(at.reversion, at.steps - 1, at.row);
    let offset = shape.offset;
    let end = offset + shape.count;
    fit_row(
        RowPlace {
            start: shape.start,
            next: shape.next,
            quote: at.quote,
        },
        &factors[offset..end],
        &downs[offset..end],
        discounts,
        state_prices,
        sums,
    )
}

// All rows, up to the first that has a discount that is not accepted.
pub(crate) fn fit_rows(
    reversion: u64,
    quotes: &[u64],
    factors: &[u64],
    downs: &[u64],
    discounts: &mut [u64],
    state_prices: &mut [u64],
    sums: &mut [u64],
) -> bool
    requires { RowsReady reversion quotes.now factors.now downs.now discounts.old state_prices.old sums.old }
    ensures tested { result ≡ table_accepted reversion quotes.now factors.now }
    ensures fitted { result ≡ true → TreeFitted reversion (length quotes.now) true
        (table_discount reversion quotes.now factors.now) (table_state_price reversion quotes.now factors.now)
        discounts.old state_prices.old discounts.new state_prices.new }
    ensures kept { PastKept reversion (length quotes.now)
        discounts.old state_prices.old discounts.new state_prices.new }
{
    state_prices[0] = arithmetic::ONE;
    let steps = quotes.len();
    for (row, quote) in quotes.iter().enumerate() {
        let at = TreePlace {
            reversion: reversion,
            steps: steps,
            row: row,
            quote: *quote,
        };
        if !tree_row(at, factors, downs, discounts, state_prices, sums) {
            return false;
        }
    }
    true
}
