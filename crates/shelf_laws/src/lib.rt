// What a shelf of trees holds, laid out for C, with the definitions and laws of its entries. No code: the entries are in shelf and shelf_prices.
#![tactic(auto)]

// The numbers in the memory of a shelf, which are the nodes that it has for all its trees.
pub const ROOM: usize = 3_600;

// What a shelf keeps of a name: status 0 no tree, 1 a tree that awaits a commit, 2 a fitted tree; then its steps and its reversion. A fitted tree
// carries its price error bound and the greatest discount of each of its rows; all else is 0.
#[repr(C)]
#[derive(Clone, Copy)]
pub struct Slot {
    pub status: u64,
    pub steps: usize,
    pub reversion: u64,
    pub bound: u64,
    pub greatest: [u64; limits::MOST_STEPS],
}

// The slot of name k has index k - 1.
#[repr(C)]
#[derive(Clone, Copy)]
pub struct Shelf {
    pub slots: [Slot; 8],
}

// A call's number, 0 or a refusal's, and the shelf after the call.
#[repr(C)]
#[derive(Drop)]
pub struct Shelved {
    pub number: u64,
    pub shelf: Shelf,
}

// Where a tree's discounts stand in the memory, and how many they are; zeros where there is no tree.
#[repr(C)]
#[derive(Drop)]
pub struct Part {
    pub start: usize,
    pub count: usize,
}

// A name's tree: its status, where its discounts stand, how many they are, its steps, its reversion and its price error bound; zeros where there is none.
#[derive(Clone, Copy)]
pub struct Located {
    pub status: u64,
    pub start: usize,
    pub count: usize,
    pub steps: usize,
    pub reversion: u64,
    pub bound: u64,
}
