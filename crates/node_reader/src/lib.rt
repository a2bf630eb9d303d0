// A reader that keeps the lent discounts and the next node. Who draws through it takes it apart and calls a function on the slice and the
// number, which reads each node by `node_at`.
#![tactic(auto)]

ghost use Rattle.std.specs.Prelude.{◌≡◌};
ghost use Rattle.node_reader.specs.Reading.{node_at, node_of};

use arithmetic::Refusal;

#[derive(Drop)]
pub struct NodeReader<'a> {
    pub discounts: &'a [u64],
    pub next: usize,
}

// A reader of the lent discounts, at a place.
pub fn reader_at<'a>(discounts: &'a [u64], next: usize) -> NodeReader<'a>
    ensures { (result.discounts ≡ discounts.entry) × (result.next ≡ next) }
{
    NodeReader { discounts, next }
}

// The discount of the node at a place, refused with 6 where there is none.
pub fn node_at(discounts: &[u64], next: usize) -> Result<u64, Refusal>
    ensures { node_of result ≡ node_at discounts.now next }
{
    if discounts.len() <= next {
        return Err(Refusal::LengthOrRow);
    }
    Ok(discounts[next])
}
