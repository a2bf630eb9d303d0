// Prices on the trees of a shelf. Shelf and memory are read and left as they are.
#![tactic(auto)]

ghost use Rattle.std.specs.Prelude.{◌≡◌, ◌≢◌, ◌+◌, ◌-◌, take, drop, MatchOption};
ghost use Rattle.price_laws.specs.Prices.{refused_price, with_bound};
ghost use Rattle.price_laws.specs.Strips.{refused_strip};
ghost use Rattle.shelf_laws.specs.Shelf.{located_tree};
ghost use Rattle.shelf_prices.specs.ShelfPrices.{shelf_bond, shelf_option, shelf_dated, shelf_bond_and_option, shelf_bond_and_dated};
ghost use Rattle.shelf_prices.specs.ShelfPrices.{shelf_dated_strip, shelf_kind_strip};

use arithmetic::Answer;
use price_laws::{BondAndOption, BoundedTree, Price, Strip};
use shelf_laws::{Located, Shelf};

// A name without a tree.
const NO_TREE: u64 = 15;

fn no_price() -> Price
    ensures { result ≡ refused_price 15 }
{
    Price {
        number: NO_TREE,
        value: 0,
        bound: 0,
    }
}

fn no_prices() -> BondAndOption
    ensures { result ≡ record { bond = refused_price 15; option = refused_price 15 } }
{
    let none = no_price();
    BondAndOption {
        bond: none,
        option: none,
    }
}

// A value with the error bound that its tree carries; a refusal as it is.
fn carried(value: Answer, bound: u64) -> Price
    ensures { result ≡ with_bound value bound }
{
    if value.number != 0 {
        return Price {
            number: value.number,
            value: 0,
            bound: 0,
        };
    }
    Price {
        number: 0,
        value: value.value,
        bound,
    }
}

// A name's tree and its discounts; none for a name without a tree.
fn tree_and_discounts(
    shelf: Shelf,
    memory: &[u64; shelf_laws::ROOM],
    name: usize,
) -> Option<(Located, &[u64])>
    ensures { MatchOption result ((located_tree shelf.slots name).status ≡ 0) (λ found. (found.0 ≡ located_tree shelf.slots name)
        × (found.0.status ≢ 0) × (found.1.now ≡ take (found.0.start + found.0.count - found.0.start) (drop found.0.start memory.now))) }
{
    let tree = shelf::tree_of(shelf, name);
    if tree.status == 0 {
        return None;
    }
    let start = tree.start;
    let end = start + tree.count;
    Some((tree, &memory[start..end]))
}

// The price at row 0 of the bond with these flows on a name's tree. 15 a name without a tree; then what `pricing::bond_price` answers for the
// tree's discounts, 9 for a tree that awaits its commit. The error bound is the one that the tree carries.
pub fn bond_price(
    shelf: Shelf,
    memory: &[u64; shelf_laws::ROOM],
    name: usize,
    flows: &[u64],
) -> Price
    ensures { result ≡ shelf_bond shelf.slots memory.now name flows.now }
{
    let Some((tree, discounts)) = tree_and_discounts(shelf, memory, name) else {
        return no_price();
    };
    let value = pricing::bond_value(tree.steps, tree.reversion, discounts, flows);
    carried(value, tree.bound)
}

// The same for an option by its kind, as `pricing::option_price` answers.
pub fn option_price(
    shelf: Shelf,
    memory: &[u64; shelf_laws::ROOM],
    name: usize,
    flows: &[u64],
    kind: u64,
    expiry: usize,
    strike: u64,
) -> Price
    ensures { result ≡ shelf_option shelf.slots memory.now name flows.now kind expiry strike }
{
    bond_and_option(shelf, memory, name, flows, kind, expiry, strike).option
}

// The same for an option on listed rows, as `pricing::dated_option_price` answers.
pub fn dated_option_price(
    shelf: Shelf,
    memory: &[u64; shelf_laws::ROOM],
    name: usize,
    flows: &[u64],
    side: u64,
    dates: &[u8],
    strike: u64,
) -> Price
    ensures { result ≡ shelf_dated shelf.slots memory.now name flows.now side dates.now strike }
{
    bond_and_dated_option(shelf, memory, name, flows, side, dates, strike).option
}

// Bond and option in one roll, each as its own entry answers.
pub fn bond_and_option(
    shelf: Shelf,
    memory: &[u64; shelf_laws::ROOM],
    name: usize,
    flows: &[u64],
    kind: u64,
    expiry: usize,
    strike: u64,
) -> BondAndOption
    ensures { result ≡ shelf_bond_and_option shelf.slots memory.now name flows.now kind expiry strike }
{
    let Some((tree, discounts)) = tree_and_discounts(shelf, memory, name) else {
        return no_prices();
    };
    let values = pricing::bond_and_option_values(
        tree.steps,
        tree.reversion,
        discounts,
        flows,
        kind,
        expiry,
        strike,
    );
    BondAndOption {
        bond: carried(values.bond, tree.bound),
        option: carried(values.option, tree.bound),
    }
}

// The same with an option on listed rows.
pub fn bond_and_dated_option(
    shelf: Shelf,
    memory: &[u64; shelf_laws::ROOM],
    name: usize,
    flows: &[u64],
    side: u64,
    dates: &[u8],
    strike: u64,
) -> BondAndOption
    ensures { result ≡ shelf_bond_and_dated shelf.slots memory.now name flows.now side dates.now strike }
{
    let Some((tree, discounts)) = tree_and_discounts(shelf, memory, name) else {
        return no_prices();
    };
    let values = pricing::bond_and_dated_option_values(
        tree.steps,
        tree.reversion,
        discounts,
        flows,
        side,
        dates,
        strike,
    );
    BondAndOption {
        bond: carried(values.bond, tree.bound),
        option: carried(values.option, tree.bound),
    }
}

fn no_strip() -> Strip
    ensures { result ≡ refused_strip 15 }
{
    let zeros = [0u64; price_laws::MOST_STRIKES];
    Strip {
        number: NO_TREE,
        numbers: zeros,
        values: zeros,
        bounds: zeros,
    }
}

// A strip of strikes on listed rows, each answer as `dated_option_price` gives it. The strip itself is refused with 15 for a name without a tree, then as
// `pricing::option_strip`.
pub fn option_strip(
    shelf: Shelf,
    memory: &[u64; shelf_laws::ROOM],
    name: usize,
    flows: &[u64],
    side: u64,
    dates: &[u8],
    strikes: &[u64],
) -> Strip
    ensures { result ≡ shelf_dated_strip shelf.slots memory.now name flows.now side dates.now strikes.now }
{
    let Some((tree, discounts)) = tree_and_discounts(shelf, memory, name) else {
        return no_strip();
    };
    let known = BoundedTree {
        steps: tree.steps,
        reversion: tree.reversion,
        bound: tree.bound,
    };
    pricing::bounded_strip(known, discounts, flows, side, dates, strikes)
}

// The same for one of the four kinds and an expiry, each answer as `option_price` gives it.
pub fn option_strip_of_kind(
    shelf: Shelf,
    memory: &[u64; shelf_laws::ROOM],
    name: usize,
    flows: &[u64],
    kind: u64,
    expiry: usize,
    strikes: &[u64],
) -> Strip
    ensures { result ≡ shelf_kind_strip shelf.slots memory.now name flows.now kind expiry strikes.now }
{
    let Some((tree, discounts)) = tree_and_discounts(shelf, memory, name) else {
        return no_strip();
    };
    let known = BoundedTree {
        steps: tree.steps,
        reversion: tree.reversion,
        bound: tree.bound,
    };
    pricing::bounded_strip_of_kind(known, discounts, flows, kind, expiry, strikes)
}
