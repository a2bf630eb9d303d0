// The lines of a priced tree, put into a lent buffer from its end.
ghost use Rattle.std.specs.Prelude.{◌≡◌, suc, ◌+◌, ◌*◌, ◌^◌, ◌≤◌, ◌<◌, sum, length};
ghost use Rattle.sheet_room.specs.Room.{sheet_room};
ghost use Rattle.text_laws.specs.Lines.{longest_line};
ghost use Rattle.arithmetic.specs.Row.{sum_of};
ghost use Rattle.limits.specs.Limits.{sum_limit};
ghost use Rattle.text_laws.specs.inside.Put.{Put};
ghost use Rattle.state_price_bound.specs.ErrorBound.{state_price_error_bound_answer, state_price_error_bounds_answer};
ghost use Rattle.lent_tree.specs.LentTree.{stored_row};
ghost use Rattle.sheet_laws.specs.TreeSheet.{node_lines, line_of_row, row_lines, option_lines, price_lines, tree_sheet};
ghost use Rattle.sheet_laws.specs.inside.Stored.{Drawing, Stored, Summed};

use job_laws::JobPrices;
use node_reader::NodeReader;
use price_laws::Price;
use row_view::RowKind;

// A tree's number of steps and its reversion.
#[derive(Clone, Copy)]
struct TreeShape {
    steps: usize,
    reversion: u64,
}

// A row of it: the row before, which stands for it among the quotes, and its state-price error bound.
#[derive(Drop)]
struct Row {
    before: usize,
    bound: u64,
}

fn row_total(row: &[u64]) -> u64
    requires { sum row.now < 2 ^ 64 }
    ensures { result ≡ sum row.now }
{
    row.iter().sum()
}

// The node lines of all rows, whose nodes stand before `next`. The last row's come first, so that the lines stand in order; the place goes down
// with each node and is handed on from row to row.
fn put_node_rows(
    out: &mut [u8],
    end: usize,
    steps: usize,
    reversion: u64,
    discounts: &[u64],
    next: usize,
) -> usize
    requires { Drawing steps reversion discounts.now next end (length out.old) }
    ensures { Put out.old end (node_lines steps reversion discounts.now) result out.new }
{
    let mut start = end;
    let mut place = next;
    for row in (0..steps).rev() {
        let count = lattice::node_count(reversion, row).unwrap() as usize;
        let lines = node_lines::node_lines(
            out, start, row as u64, discounts, place, count,
        ).unwrap();
        start = lines.start;
        place = lines.next;
    }
    start
}

// The node lines that a reader draws: those of the nodes before its place.
fn draw_nodes<'a>(
    out: &mut [u8],
    end: usize,
    steps: usize,
    reversion: u64,
    reader: NodeReader<'a>,
) -> usize
    requires { Drawing steps reversion reader.discounts.now reader.next end (length out.old) }
    ensures { Put out.old end (node_lines steps reversion reader.entry.discounts.now) result out.new }
{
    put_node_rows(out, end, steps, reversion, reader.discounts, reader.next)
}

// One reader a sheet: it keeps the lent discounts and stands behind the last of them.
fn put_all_nodes(
    out: &mut [u8],
    end: usize,
    steps: usize,
    reversion: u64,
    discounts: &[u64],
    count: usize,
) -> usize
    requires { Drawing steps reversion discounts.now count end (length out.old) }
    ensures { Put out.old end (node_lines steps reversion discounts.now) result out.new }
{
    draw_nodes(
        out,
        end,
        steps,
        reversion,
        node_reader::reader_at(discounts, count),
    )
}

// The line of row `before` + 1.
fn put_row<'a>(
    out: &mut [u8],
    end: usize,
    tree: TreeShape,
    row: Row,
    quotes: &[u64],
    discounts: &'a [u64],
    state_prices: &'a [u64],
) -> usize
    requires before_lt_steps { (row.before < tree.steps) × Stored tree.steps tree.reversion discounts.now state_prices.now
        × (length quotes.now ≡ tree.steps) × (sum_of (stored_row tree.reversion state_prices.now (suc row.before)) ≤ sum_limit)
        × (longest_line ≤ end) × (end ≤ length out.old) }
    requires bound_value { row.bound ≡ (state_price_error_bound_answer tree.steps tree.reversion discounts.now (suc row.before)).value }
    ensures { Put out.old end (line_of_row tree.steps tree.reversion quotes.now discounts.now
        state_prices.now row.before) result out.new }
{
    let before = row.before;
    let number = before + 1;
    let part = row_view::row_view(
        tree.steps,
        tree.reversion,
        number,
        RowKind::StatePrices,
        discounts,
        state_prices,
    );
    let sum = row_total(part);
    text::row_line(out, end, number as u64, quotes[before], sum, row.bound).unwrap()
}

// The lines of rows 1 to n, the last first.
fn put_rows<'a>(
    out: &mut [u8],
    end: usize,
    tree: TreeShape,
    quotes: &[u64],
    discounts: &'a [u64],
    state_prices: &'a [u64],
    bounds: &[u64],
) -> usize
    requires stored { Stored tree.steps tree.reversion discounts.now state_prices.now × (length quotes.now ≡ tree.steps)
        × (longest_line * tree.steps ≤ end) × (end ≤ length out.old) }
    requires summed { Summed tree.steps tree.reversion state_prices.now }
    requires bounds_value { (bounds.now ≡ (state_price_error_bounds_answer tree.steps tree.reversion discounts.now).bounds)
        × (tree.steps < length bounds.now) }
    ensures { Put out.old end (row_lines tree.steps tree.reversion quotes.now discounts.now
        state_prices.now) result out.new }
{
    let mut start = end;
    for index in (0..tree.steps).rev() {
        let row = Row {
            before: index,
            bound: bounds[index + 1],
        };
        start = put_row(out, start, tree, row, quotes, discounts, state_prices);
    }
    start
}

// The price lines; no option, no line.
fn put_prices(out: &mut [u8], end: usize, bond: Price, present: bool, option: Price) -> usize
    requires { (2 * longest_line ≤ end) × (end ≤ length out.old) }
    ensures { Put out.old end (price_lines bond present option) result out.new }
{
    let below = put_option(out, end, present, option);
    text::bond_line(out, below, bond.value, bond.bound).unwrap()
}

fn put_option(out: &mut [u8], end: usize, present: bool, option: Price) -> usize
    requires { (longest_line ≤ end) × (end ≤ length out.old) }
    ensures { Put out.old end (option_lines present option) result out.new }
{
    if present {
        return text::option_line(out, end, option.value, option.bound).unwrap();
    }
    end
}

// The whole sheet, at the end of the buffer.
pub(crate) fn put_sheet<'a>(
    out: &mut [u8],
    steps: usize,
    reversion: u64,
    quotes: &[u64],
    discounts: &'a [u64],
    state_prices: &'a [u64],
    prices: JobPrices,
) -> usize
    requires stored { Stored steps reversion discounts.now state_prices.now × (length quotes.now ≡ steps) × (sheet_room ≤ length out.old) }
    requires summed { Summed steps reversion state_prices.now }
    ensures { Put out.old (length out.old)
        (tree_sheet steps reversion quotes.now discounts.now state_prices.now
        prices.bond prices.has_option prices.option) result out.new }
{
    let end = out.len();
    let bond = prices.bond;
    let option = prices.option;
    let prices_start = put_prices(out, end, bond, prices.has_option, option);
    let bounds = state_price_bound::state_price_error_bounds(steps, reversion, discounts).unwrap();
    let rows_start = put_rows(
        out,
        prices_start,
        TreeShape { steps, reversion },
        quotes,
        discounts,
        state_prices,
        &bounds,
    );
    put_all_nodes(
        out,
        rows_start,
        steps,
        reversion,
        discounts,
        discounts.len(),
    )
}
