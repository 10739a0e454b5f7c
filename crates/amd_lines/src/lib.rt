//! Reads a text line by line, and a line word by word.
//!
//! The text is read by blocks, and a line is looked at where it stands in a block. A line ends at a line feed or at the
//! end of the input. The reader is told how many bytes a line may have, with its line feed: a longer one is an error,
//! and no more is read of it than that and a block. Lines count from 1, and an error names the line that was read last
//! or, where that is what is wrong, the one that is too long.
//!
//! Words are parted by ASCII white space, which takes in the line's end. A line says nothing, and may be passed over,
//! where it has no word or is a note: its first word begins with a byte that the caller names. Such a line may have any
//! length: it is passed block by block, and none of it is kept.
#![tactic(auto)]

mod chunks;
pub mod errors;
pub mod lines;
pub mod values;
pub mod words;
