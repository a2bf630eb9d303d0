// The branch of a node: where it leads and how likely; and the table of down-probabilities that serves every row.
#![tactic(auto)]

ghost use Rattle.std.specs.Prelude.{Ok, ◌≡◌, ◌+◌, ◌*◌, ◌≤◌, true, pos, nat_abs, length};
ghost use Rattle.std.specs.Int.Signed.{lt_z};
ghost use Rattle.arithmetic.specs.Row.{row};
ghost use Rattle.arithmetic.specs.Refusals.{cause_of};
ghost use Rattle.limits.specs.Limits.{most_steps, most_reversion};
ghost use Rattle.lattice.specs.Branching.{
  ordinary,
  top,
  up_formula,
  middle_formula,
  down_formula,
  probabilities,
  down_probability,
};
ghost use Rattle.lattice.specs.RateTree.{node_of_index};
ghost use Rattle.lattice.specs.Entries.{branches_of, branch_of, branch_answer, table_number, table_of};

use arithmetic::Refusal;
use lattice::Branch;

// The five formulas of the upper side at z; down at the edge is the ordinary up.
fn ordinary_up(z: u64) -> u64
    requires { z ≤ 7840 }
    ensures { result ≡ nat_abs (up_formula ordinary (pos z)) }
{
    100000000 + 3 * (z * z) - 30000 * z
}

fn ordinary_down(z: u64) -> u64
    requires { z ≤ 7840 }
    ensures { result ≡ nat_abs (down_formula ordinary (pos z)) }
{
    100000000 + 3 * (z * z) + 30000 * z
}

fn ordinary_middle(z: u64) -> u64
    requires { z ≤ 1840 }
    ensures { result ≡ nat_abs (middle_formula ordinary (pos z)) }
{
    400000000 - 6 * (z * z)
}

fn edge_up(z: u64) -> u64
    requires { z ≤ 7840 }
    ensures { result ≡ nat_abs (up_formula top (pos z)) }
{
    700000000 + 3 * (z * z) - 90000 * z
}

fn edge_middle(z: u64) -> u64
    requires { (1841 ≤ z) × (z ≤ 7840) }
    ensures { result ≡ nat_abs (middle_formula top (pos z)) }
{
    120000 * z - (200000000 + 6 * (z * z))
}

// Up, middle and down of the node so far above the middle. Whether it is J shows in z: no division.
fn upper(reversion: u64, distance: u64) -> [u64; 3]
    requires { (reversion ≤ most_reversion) × (distance ≤ most_steps) × (distance * reversion ≤ 1840 + reversion) }
    ensures { result ≡ probabilities reversion (pos distance) }
{
    let z = distance * reversion;
    if 1840 < z {
        return [edge_up(z), edge_middle(z), ordinary_up(z)];
    }
    [ordinary_up(z), ordinary_middle(z), ordinary_down(z)]
}

// The branch of a node below the middle: the mirror image of the node so far above it.
fn lower_branch(reversion: u64, node: i64, distance: u64) -> Branch
    requires reversion_le_most_reversion { (reversion ≤ most_reversion) × (distance ≤ most_steps) × (distance * reversion ≤ 1840 + reversion) }
    requires node_value { (nat_abs node ≡ distance) × (lt_z node (pos 0) ≡ true) }
    ensures { branches_of (Ok result) ≡ branch_of reversion node }
{
    let image = upper(reversion, distance);
    let probabilities = [image[2], image[1], image[0]];
    let lowest = if 1840 < distance * reversion {
        node
    } else {
        node - 1
    };
    Branch {
        lowest,
        probabilities,
    }
}

fn upper_branch(reversion: u64, node: i64, distance: u64) -> Branch
    requires reversion_le_most_reversion { (reversion ≤ most_reversion) × (distance ≤ most_steps) × (distance * reversion ≤ 1840 + reversion) }
    requires node_value { node ≡ pos distance }
    ensures { branches_of (Ok result) ≡ branch_of reversion node }
{
    let probabilities = upper(reversion, distance);
    let lowest = if 1840 < distance * reversion {
        node - 2
    } else {
        node - 1
    };
    Branch {
        lowest,
        probabilities,
    }
}

// Where a node of a row leads.
pub fn branch(reversion: u64, row: usize, node: i64) -> Result<Branch, Refusal>
    ensures { branches_of result ≡ branch_answer reversion row node }
{
    if limits::MOST_REVERSION < reversion {
        return Err(Refusal::Reversion);
    }
    if limits::MOST_STEPS <= row {
        return Err(Refusal::LengthOrRow);
    }
    let distance = arithmetic::magnitude(node);
    if (row as u64) < distance {
        return Err(Refusal::LengthOrRow);
    }
    if 1840 + reversion < distance * reversion {
        return Err(Refusal::LengthOrRow);
    }
    if node < 0 {
        return Ok(lower_branch(reversion, node, distance));
    }
    Ok(upper_branch(reversion, node, distance))
}

// The down-probability of the node at an index of a row of this half width.
fn down_of(reversion: u64, half_width: usize, index: usize) -> u64
    requires { (reversion ≤ most_reversion) × (half_width ≤ most_steps) × (half_width * reversion ≤ 1840 + reversion) × (index ≤ 2 * half_width) }
    ensures { result ≡ down_probability reversion (node_of_index half_width index) }
{
    if index < half_width {
        let image = upper(reversion, (half_width - index) as u64);
        return image[0];
    }
    let node = upper(reversion, (index - half_width) as u64);
    node[2]
}

fn fill_table(reversion: u64, half_width: usize, table: &mut [u64])
    requires { (reversion ≤ most_reversion) × (half_width ≤ most_steps) × (half_width * reversion ≤ 1840 + reversion)
        × (length table.old ≡ 2 * half_width + 1) }
    ensures { table.new ≡ row (length table.old) (λ k. down_probability reversion (node_of_index half_width k)) }
{
    for (index, place) in table.iter_mut().enumerate() {
        *place = down_of(reversion, half_width, index);
    }
}

// The down-probabilities of nodes -w to w, worked out once for all rows: the up-probability of a node is the down-probability
// of its mirror image, and the middle one is what is left of 600,000,000.
pub fn down_probabilities(
    reversion: u64,
    half_width: usize,
    table: &mut [u64],
) -> Result<(), Refusal>
    ensures number { cause_of result ≡ table_number reversion half_width (length table.old) }
    ensures memory { table.new ≡ table_of reversion half_width table.old }
{
    if limits::MOST_REVERSION < reversion {
        return Err(Refusal::Reversion);
    }
    if limits::MOST_STEPS < half_width {
        return Err(Refusal::LengthOrRow);
    }
    if 1840 + reversion < (half_width as u64) * reversion {
        return Err(Refusal::LengthOrRow);
    }
    if table.len() != 2 * half_width + 1 {
        return Err(Refusal::LengthOrRow);
    }
    fill_table(reversion, half_width, table);
    Ok(())
}
