// The branches of a row's nodes, from the row's part of the table of down-probabilities.
#![tactic(auto)]

ghost use Rattle.std.specs.Prelude.{◌≡◌, ◌+◌, ◌<◌};
ghost use Rattle.row_branches.specs.RowBranches.{lowest, no_branch, row_branch};

use tree::PROBABILITY_TOTAL;

// The lowest of the three nodes of the next row that a node leads to, and up, middle and down over 600,000,000.
#[derive(Clone, Copy)]
pub struct RowBranch {
    pub low: usize,
    pub probabilities: [u64; 3],
}

// The lowest node of the next row that a node leads to: the row grows, or its edges branch inwards.
fn lowest_target(count: usize, next: usize, index: usize) -> usize
    requires { index < count }
    ensures { result ≡ lowest count next index }
{
    if count < next {
        return index;
    }
    if index < 2 {
        return 0;
    }
    if index + 1 == count {
        return index - 2;
    }
    index - 1
}

fn no_branch() -> RowBranch
    ensures { result ≡ no_branch }
{
    RowBranch {
        low: 0,
        probabilities: [0, 0, 0],
    }
}

// The branch of the node at an index; zeros where the row has no such node or the numbers are no probabilities.
pub fn row_branch(downs: &[u64], next: usize, index: usize) -> RowBranch
    ensures { result ≡ row_branch downs.now next index }
{
    let count = downs.len();
    if count <= index {
        return no_branch();
    }
    let down = downs[index];
    let up = downs[count - 1 - index];
    if PROBABILITY_TOTAL < down {
        return no_branch();
    }
    if PROBABILITY_TOTAL - down < up {
        return no_branch();
    }
    RowBranch {
        low: lowest_target(count, next, index),
        probabilities: [up, PROBABILITY_TOTAL - down - up, down],
    }
}
