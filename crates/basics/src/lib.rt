// The limits of document 01, and the arrays that they give. Definitions and laws that every crate may use are in specs/ and proofs/.
#![tactic(auto)]

// Disks of a unit, blocks of a request, copies of a block, at most.
pub const DISKS: usize = 64;

pub const BLOCKS: usize = 1024;

pub const COPIES: u32 = 8;

// A disk's cost, load and delay, at most.
pub const COST_MOST: u32 = 1000000;

pub const LOAD_MOST: u32 = 100000000;

pub const DELAY_MOST: u32 = 1000000;

// When a disk starts, and the time of a plan, at most.
pub const START_MOST: u32 = 101000000;

pub const TIME_MOST: u32 = 1125000000;

// The longest sheets, in bytes.
pub const SETTINGS_MOST: usize = 717;

pub const REQUEST_MOST: usize = 9234;

pub const PLAN_MOST: usize = 2964;

// Places for blocks: the disks, and none.
pub const PLACES: usize = DISKS + 1;

// What stands in rings: the blocks, and for each place where its ring begins.
pub const NODES: usize = BLOCKS + PLACES;

// Of fixed lengths: the library crates have no heap.
// Copies of each block as a number; the place of each block; a number for each disk, and for each place.
pub type Masks = [u64; BLOCKS];

pub type Seats = [u8; BLOCKS];

pub type Capacities = [u32; DISKS];

pub type Counts = [u32; PLACES];

// The node that a node leads to; the disks that the blocks at each place can bring; the blocks of a search, step by step.
pub type Links = [u16; NODES];

pub type Reaches = [u64; PLACES];

pub type Steps = [u16; PLACES];
