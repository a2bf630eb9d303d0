// The node lines of a row, put into a lent buffer from its end by a reader that goes down from node to node.
#![tactic(auto)]

ghost use Rattle.std.specs.Prelude.{Ok, ◌≡◌, ◌-◌, ◌≤◌, ◌<◌, length};
ghost use Rattle.arithmetic.specs.Refusals.{cause_of};
ghost use Rattle.text_laws.specs.Lines.{longest_line, line_of_node};
ghost use Rattle.limits.specs.Limits.{most_discount};
ghost use Rattle.lattice.specs.RateTree.{node_of_index};
ghost use Rattle.text_laws.specs.Put.{put_before, with_text};
ghost use Rattle.text_laws.specs.inside.Put.{Put};
ghost use Rattle.node_lines.specs.Rows.{row_text, has_room_for, is_row};
ghost use Rattle.node_lines.specs.Reading.{stand_before, nodes_before, read_number, drawn_by, drawn_of};
ghost use Rattle.node_lines.specs.inside.Preconditions.{Readable};

use arithmetic::Refusal;
use text_laws::LONGEST_LINE;

// Discounts exist for rows 0 to 59.
const LAST_ROW: u64 = 59;

// Where the lines start, and the reader's next place, behind the row before.
#[derive(Drop)]
pub struct Places {
    pub start: usize,
    pub next: usize,
}

fn has_room(count: usize, size: usize, end: usize) -> bool
    ensures { result ≡ has_room_for count size end }
{
    if end / LONGEST_LINE < count {
        return false;
    }
    end <= size
}

// Whether a row with discounts can have so many nodes: an odd number, at most 2 × row + 1.
fn is_row(row: u64, count: usize) -> bool
    ensures { result ≡ is_row row count }
{
    if LAST_ROW < row {
        return false;
    }
    if count % 2 != 1 {
        return false;
    }
    count as u64 <= 2 * row + 1
}

fn stand_before(count: usize, next: usize, size: usize) -> bool
    ensures { result ≡ stand_before count next size }
{
    if next < count {
        return false;
    }
    next <= size
}

// Refused with 6 for a row's nodes' place, its numbers or its room, then with 9 for a discount.
fn row_cause(
    size: usize,
    end: usize,
    row: u64,
    discounts: &[u64],
    next: usize,
    count: usize,
) -> Result<(), Refusal>
    ensures { cause_of result ≡ read_number size end row discounts.now next count }
{
    if !stand_before(count, next, discounts.len()) {
        return Err(Refusal::LengthOrRow);
    }
    if !is_row(row, count) {
        return Err(Refusal::LengthOrRow);
    }
    if !has_room(count, size, end) {
        return Err(Refusal::LengthOrRow);
    }
    if !arithmetic::all_between(1, limits::MOST_DISCOUNT, &discounts[next - count..next]) {
        return Err(Refusal::Discount);
    }
    Ok(())
}

// The line of the node at an index of its row.
fn put_node_line(
    out: &mut [u8],
    end: usize,
    row: u64,
    half_width: usize,
    index: usize,
    discount: u64,
) -> usize
    requires { (half_width < 60) × (index < 119) × (0 < discount) × (discount ≤ most_discount) × (longest_line ≤ end) × (end ≤ length out.old) }
    ensures { Put out.old end (line_of_node row (node_of_index half_width index) discount) result out.new }
{
    let node = index as i64 - half_width as i64;
    text::node_line(out, end, row, node, discount).unwrap()
}

// The last node's line comes first, so that the lines stand in order.
fn put_row_nodes(
    out: &mut [u8],
    end: usize,
    row: u64,
    discounts: &[u64],
    next: usize,
    count: usize,
) -> Places
    requires { Readable discounts.now next count end (length out.old) }
    ensures answer { drawn_by (Ok result) ≡ drawn_of 0 end (row_text row (nodes_before discounts.now next count)) (next - count) }
    ensures memory { out.new ≡ put_before out.old end (row_text row (nodes_before discounts.now next count)) }
{
    let half_width = count / 2;
    let first = next - count;
    let mut start = end;
    for index in (0..count).rev() {
        let discount = node_reader::node_at(discounts, first + index).unwrap();
        start = put_node_line(out, start, row, half_width, index, discount);
    }
    Places { start, next: first }
}

// The lines of a row whose nodes are the last `count` before a place of the lent discounts, lowest node first. Refused with 6 for nodes that do not
// stand there, a row that is none and without room for 128 bytes a line, then with 9 for a discount that is 0 or above 1.1; nothing is put then.
pub fn node_lines(
    out: &mut [u8],
    end: usize,
    row: u64,
    discounts: &[u64],
    next: usize,
    count: usize,
) -> Result<Places, Refusal>
    ensures answer { drawn_by result ≡ drawn_of (read_number (length out.old) end row discounts.now next count) end
        (row_text row (nodes_before discounts.now next count)) (next - count) }
    ensures memory { out.new ≡ with_text (read_number (length out.old) end row discounts.now next count)
        out.old end (row_text row (nodes_before discounts.now next count)) }
{
    row_cause(out.len(), end, row, discounts, next, count)?;
    Ok(put_row_nodes(out, end, row, discounts, next, count))
}
