// Entries read raw and by a cursor: gimli's read/unit.rs, DebuggingInformationEntry, EntriesRaw and
// EntriesCursor. Bytes are a part of a unit that starts at the offset `start` of the state, the same
// part at each call.

#![tactic(auto)]

pub mod cursor; // EntriesCursor
pub mod entry; // Entry
pub mod flat; // items passed one after another
mod kept; // a state that keeps the sizes
pub mod open; // readers opened by a header
mod pass; // items passed without building entries
pub mod raw; // EntriesRaw
mod step; // one step of it
