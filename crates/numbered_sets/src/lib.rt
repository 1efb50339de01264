//! Sets of values by number: each value that a component was seen with has a number, and a set is the bits of its values'
//! numbers. Tables, whose values stand once, in a pool. What such sets and tables mean are the ordered forms of `abstract_state`.
//!
//! ```text
//! Sets of numbers. Each layer is made of those above it.
//!
//!   words          a list of words of 64 bits, with a bit for each number (bit_words)
//!   split_words    the same, of which the first two words stand apart (bit_words)
//!   further        the words past the first two, for each of several components (bit_words)
//!   NumberedSets   a set for each component: owns all their words, and shares the domains with its copies
//!   NumberedSet    a set by itself: owns its domain and its words; made of one of NumberedSets, or put into it
//!   NumberedEntry  what a state at a point can be: owns a NumberedSets, and speaks of components and values
//!
//! What the numbers stand for. Each line owns those that are indented below it.
//!
//!   Table               the rows of points, each with its NumberedEntry, and the pool of their values
//!     Pool              the values of each component
//!       SharedValues    those of one component; copies of the pool share them as long as none comes in
//!         SeenValues    the values, by number in the order of first use: a value is a slot
//!           Loads       what Live tasks and routines have beside their blocks, each once, by number
//!           Slots       the slots by number, and the numbers by slot; slots of one column are a width apart
//!             Column    the number of each slot of one column, by its row
//!         JudgedTests   tests that were asked of these values; not shared
//!           JudgedTest  one test, and the numbers of the values that pass: a NumberedSet
//!         MadeSets      what updates made of sets with many numbers; not shared
//!           MadeSet     one update, a set, and what the update made of it: two NumberedSets
//!
//! Where a slot is, without a search. These own nothing.
//!
//!   BlockColumn    of a block: the column and the row at which its slots begin
//!   SlotPlace      of a slot: the row, and the block by its number among those of its task or routine
//! ```
#![tactic(auto)]

mod column;
mod counts;
mod flat_sets;
mod judged;
pub mod laws;
mod load_updates;
mod loads;
mod made_sets;
mod moving;
mod numbered_entry;
mod numbered_form;
mod numbered_set;
mod passing;
mod plain_form;
mod pool;
mod seen_values;
mod shared_values;
mod slot_values;
mod slots;
mod table;
mod within;

pub use flat_sets::NumberedSets;
pub use numbered_entry::NumberedEntry;
pub use numbered_form::numbered;
pub use numbered_set::NumberedSet;
pub use plain_form::plain;
pub use pool::Pool;
pub use table::{NumberedRow, NumberedRows, Table};
