// The entries of form 2's contents: where each starts, and where its stored sum stands, by its number from 1 on. Before
// its sum an entry has all that one of form 1 has.
use saved_layout::places::{ENTRY_ONE_BYTES, ENTRY_TWO_BYTES, FIRST_ENTRY_TWO};

pub const ENTRY_1: usize = FIRST_ENTRY_TWO;

pub const ENTRY_2: usize = ENTRY_1 + ENTRY_TWO_BYTES;

pub const ENTRY_3: usize = ENTRY_2 + ENTRY_TWO_BYTES;

pub const ENTRY_4: usize = ENTRY_3 + ENTRY_TWO_BYTES;

pub const ENTRY_5: usize = ENTRY_4 + ENTRY_TWO_BYTES;

pub const ENTRY_6: usize = ENTRY_5 + ENTRY_TWO_BYTES;

pub const SUM_1: usize = ENTRY_1 + ENTRY_ONE_BYTES;

pub const SUM_2: usize = ENTRY_2 + ENTRY_ONE_BYTES;

pub const SUM_3: usize = ENTRY_3 + ENTRY_ONE_BYTES;

pub const SUM_4: usize = ENTRY_4 + ENTRY_ONE_BYTES;

pub const SUM_5: usize = ENTRY_5 + ENTRY_ONE_BYTES;

pub const SUM_6: usize = ENTRY_6 + ENTRY_ONE_BYTES;
