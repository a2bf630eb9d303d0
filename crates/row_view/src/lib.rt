// Either kind of row of a tree, shown as the part of the lent memory that contains it.
#![tactic(auto)]

ghost use Rattle.std.specs.Prelude.{◌≡◌};
ghost use Rattle.row_view.specs.RowView.{
  holds_tree,
  stores_row,
  memory_of,
  PartOf,
  view_start,
  view_count,
  range_of_row,
  range_by_number,
};

// The two kinds of rows that a tree has in memory.
#[derive(Clone, Copy)]
pub enum RowKind {
    Discounts,
    StatePrices,
}

// A row's place in the memory of its kind: where it starts, and how many nodes it has.
#[repr(C)]
#[derive(Drop)]
pub struct RowRange {
    pub start: usize,
    pub count: usize,
}

// Whether the steps and the reversion are within their limits and both memories are long enough for the tree.
fn holds_tree(steps: usize, reversion: u64, discounts: &[u64], state_prices: &[u64]) -> bool
    ensures { result ≡ holds_tree steps reversion discounts.now state_prices.now }
{
    let Ok(discounts_needed) = lattice::discounts_needed(steps, reversion) else {
        return false;
    };
    if (discounts.len() as u64) < discounts_needed {
        return false;
    }
    let state_prices_needed = lattice::state_prices_needed(steps, reversion).unwrap();
    state_prices_needed <= state_prices.len() as u64
}

// Discounts have rows 0 to n - 1, state prices rows 0 to n.
fn stores_row(kind: RowKind, steps: usize, row: usize) -> bool
    ensures { result ≡ stores_row kind steps row }
{
    match kind {
        RowKind::Discounts => row < steps,
        RowKind::StatePrices => row <= steps,
    }
}

// The lent memory of a kind: the caller's own reference.
fn memory_of<'a>(discounts: &'a [u64], state_prices: &'a [u64], kind: RowKind) -> &'a [u64]
    ensures { result ≡ memory_of discounts.entry state_prices.entry kind }
{
    match kind {
        RowKind::Discounts => discounts,
        RowKind::StatePrices => state_prices,
    }
}

// Where a row stands in the memory of its kind, and how many nodes it has. A refusal is 0 and 0.
pub fn row_range(
    steps: usize,
    reversion: u64,
    row: usize,
    kind: RowKind,
    discounts: &[u64],
    state_prices: &[u64],
) -> RowRange
    ensures { result ≡ range_of_row steps reversion row kind discounts.now state_prices.now }
{
    if !holds_tree(steps, reversion, discounts, state_prices) {
        return RowRange { start: 0, count: 0 };
    }
    if !stores_row(kind, steps, row) {
        return RowRange { start: 0, count: 0 };
    }
    let first = lattice::row_start(reversion, row).unwrap();
    let nodes = lattice::node_count(reversion, row).unwrap();
    RowRange {
        start: first as usize,
        count: nodes as usize,
    }
}

// The same, the kind told by its number: 1 discounts, 2 state prices. Any other number is a refusal.
pub fn range_by_number(
    steps: usize,
    reversion: u64,
    row: usize,
    kind: u64,
    discounts: &[u64],
    state_prices: &[u64],
) -> RowRange
    ensures { result ≡ range_by_number steps reversion row kind discounts.now state_prices.now }
{
    if kind == 1 {
        return row_range(
            steps,
            reversion,
            row,
            RowKind::Discounts,
            discounts,
            state_prices,
        );
    }
    if kind == 2 {
        return row_range(
            steps,
            reversion,
            row,
            RowKind::StatePrices,
            discounts,
            state_prices,
        );
    }
    RowRange { start: 0, count: 0 }
}

// The wanted row of the discounts or of the state prices. A refusal is the empty part at the start of the wanted memory.
pub fn row_view<'a>(
    steps: usize,
    reversion: u64,
    row: usize,
    kind: RowKind,
    discounts: &'a [u64],
    state_prices: &'a [u64],
) -> &'a [u64]
    ensures { PartOf (memory_of discounts.entry state_prices.entry kind)
        (view_start steps reversion row kind discounts.now state_prices.now)
        (view_count steps reversion row kind discounts.now state_prices.now) result }
{
    let memory = memory_of(discounts, state_prices, kind);
    let range = row_range(steps, reversion, row, kind, discounts, state_prices);
    let start = range.start;
    let end = start + range.count;
    &memory[start..end]
}
