// The shape of the rate tree: widths of rows and where rows start.
#![tactic(auto)]

ghost use Rattle.std.specs.Prelude.{◌≡◌, ◌+◌, ◌≤◌, ◌<◌, min};
ghost use Rattle.limits.specs.Limits.{most_steps};
ghost use Rattle.lattice.specs.Shape.{highest_node, half_width, row_start};
ghost use Rattle.arithmetic.specs.Refusals.{cause_of, answer_of};
ghost use Rattle.lattice.specs.Entries.{
  about_row,
  about_tree,
  half_width_answer,
  node_count_answer,
  row_start_answer,
  discounts_needed_answer,
  state_prices_needed_answer,
  memory_cause,
  refused_shape,
  shape_of,
  row_shape_answer,
  branches_of,
};

use arithmetic::Refusal;

// Where a node leads: to `lowest` and the two nodes above it, with probabilities up, middle, down over 600,000,000.
#[derive(Clone, Copy, Debug, PartialEq, Eq)]
pub struct Branch {
    pub lowest: i64,
    pub probabilities: [u64; 3],
}

// Where a node leads: to `lowest` and the two nodes above it, with probabilities up, middle, down over 600,000,000.
#[repr(C)]
#[derive(Drop)]
pub struct Branches {
    pub number: u64,
    pub lowest: i64,
    pub probabilities: [u64; 3],
}

impl From<Result<Branch, Refusal>> for Branches {
    ghost from_gives = { λ outcome branches. branches ≡ branches_of outcome };

    fn from(outcome: Result<Branch, Refusal>) -> Branches {
        match outcome {
            Ok(branch) => {
                let probabilities = branch.probabilities;
                Branches {
                    number: 0,
                    lowest: branch.lowest,
                    probabilities,
                }
            }
            Err(refusal) => Branches {
                number: refusal.number(),
                lowest: 0,
                probabilities: [0, 0, 0],
            },
        }
    }
}

// Where a row stands: in a memory that stores row after row, its node count and the next row's, and in a table of a row as wide.
#[derive(Drop)]
pub struct RowShape {
    pub number: u64,
    pub start: usize,
    pub count: usize,
    pub next: usize,
    pub offset: usize,
}

// J. Where rows are narrow a division would cost more than their nodes do, so the least values are told by comparison.
fn highest_node(reversion: u64) -> usize
    requires { 0 < reversion }
    ensures { result ≡ highest_node reversion }
{
    if 1840 < reversion {
        return 1;
    }
    if 920 < reversion {
        return 2;
    }
    if 613 < reversion {
        return 3;
    }
    if 460 < reversion {
        return 4;
    }
    (1840 / reversion + 1) as usize
}

fn half_width_of(reversion: u64, row: usize) -> usize
    ensures { result ≡ half_width reversion row }
{
    if reversion == 0 {
        return row;
    }
    let highest = highest_node(reversion);
    if row < highest { row } else { highest }
}

// Rows that still grow have the odd numbers of nodes, so that they start at squares; later rows are equally wide.
fn row_start_of(reversion: u64, row: usize) -> usize
    requires { row ≤ most_steps + 1 }
    ensures { result ≡ row_start reversion row }
{
    let widest = half_width_of(reversion, row);
    widest * widest + (row - widest) * (2 * widest + 1)
}

// A row or a number of steps for which every size fits.
fn clipped(row: usize) -> usize
    ensures { result ≡ min row most_steps }
{
    row.min(limits::MOST_STEPS)
}

fn about_row(reversion: u64, row: usize, res: usize) -> Result<u64, Refusal>
    ensures { answer_of result ≡ about_row reversion row res }
{
    if limits::MOST_REVERSION < reversion {
        return Err(Refusal::Reversion);
    }
    if limits::MOST_STEPS < row {
        return Err(Refusal::LengthOrRow);
    }
    Ok(res as u64)
}

fn about_tree(steps: usize, reversion: u64, res: usize) -> Result<u64, Refusal>
    ensures { answer_of result ≡ about_tree steps reversion res }
{
    limits::shape_cause(steps, reversion)?;
    Ok(res as u64)
}

// w, the half width of a row.
pub fn half_width(reversion: u64, row: usize) -> Result<u64, Refusal>
    ensures { answer_of result ≡ half_width_answer reversion row }
{
    about_row(reversion, row, half_width_of(reversion, clipped(row)))
}

// The number of nodes of a row.
pub fn node_count(reversion: u64, row: usize) -> Result<u64, Refusal>
    ensures { answer_of result ≡ node_count_answer reversion row }
{
    about_row(
        reversion,
        row,
        2 * half_width_of(reversion, clipped(row)) + 1,
    )
}

// Where a row starts in a memory that stores row after row.
pub fn row_start(reversion: u64, row: usize) -> Result<u64, Refusal>
    ensures { answer_of result ≡ row_start_answer reversion row }
{
    about_row(reversion, row, row_start_of(reversion, clipped(row)))
}

// How many discounts a tree has.
pub fn discounts_needed(steps: usize, reversion: u64) -> Result<u64, Refusal>
    ensures { answer_of result ≡ discounts_needed_answer steps reversion }
{
    about_tree(steps, reversion, row_start_of(reversion, clipped(steps)))
}

// How many state prices a tree has.
pub fn state_prices_needed(steps: usize, reversion: u64) -> Result<u64, Refusal>
    ensures { answer_of result ≡ state_prices_needed_answer steps reversion }
{
    about_tree(
        steps,
        reversion,
        row_start_of(reversion, clipped(steps) + 1),
    )
}

// Refused with 6 where the memories of so many discounts and state prices are too short for a tree; not for a tree that is refused itself.
pub fn memory_cause(
    steps: usize,
    reversion: u64,
    discounts: usize,
    state_prices: usize,
) -> Result<(), Refusal>
    ensures { cause_of result ≡ memory_cause steps reversion discounts state_prices }
{
    let needed = discounts_needed(steps, reversion).unwrap_or(0);
    let all = state_prices_needed(steps, reversion).unwrap_or(0);
    if (discounts as u64) < needed {
        return Err(Refusal::LengthOrRow);
    }
    if (state_prices as u64) < all {
        return Err(Refusal::LengthOrRow);
    }
    Ok(())
}

fn refused_shape(number: u64) -> RowShape
    ensures { result ≡ refused_shape number }
{
    RowShape {
        number,
        start: 0,
        count: 0,
        next: 0,
        offset: 0,
    }
}

fn shape_of(reversion: u64, widest: usize, row: usize) -> RowShape
    requires { (row < most_steps) × (row ≤ widest) }
    ensures { result ≡ shape_of reversion widest row }
{
    let half = half_width_of(reversion, row);
    let next = half_width_of(reversion, row + 1);
    RowShape {
        number: 0,
        start: row_start_of(reversion, row),
        count: 2 * half + 1,
        next: 2 * next + 1,
        offset: half_width_of(reversion, widest) - half,
    }
}

// Where a row stands, in tables of row `widest` too. Row 60 has no next row, and a row past `widest` no place in the tables.
pub fn row_shape(reversion: u64, widest: usize, row: usize) -> RowShape
    ensures { result ≡ row_shape_answer reversion widest row }
{
    if limits::MOST_REVERSION < reversion {
        return refused_shape(4);
    }
    if limits::MOST_STEPS < widest {
        return refused_shape(6);
    }
    if widest < row {
        return refused_shape(6);
    }
    if limits::MOST_STEPS <= row {
        return refused_shape(6);
    }
    shape_of(reversion, widest, row)
}
