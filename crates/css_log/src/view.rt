//! What each seat at the table of a log knows. No value of these types is made.
use std::collections::LinkedList;

/// What the reader knows: how many words the table has, the greatest count that it was shown, its copy of the
/// first words, and whether it has asked to stop.
pub struct ReaderView {
    pub size: u64,
    pub seen: u64,
    pub copy: LinkedList<u64>,
    pub stops: bool,
}

/// Where the reader is: not yet split from the writer, away in a seat of its own, or joined to the writer
/// again with what it knew.
pub enum ReaderPlace {
    Unsplit,
    Away,
    Joined(ReaderView),
}

/// What the writer knows: how many words the table has, all that it appended, how many of that are published,
/// where the reader is, and whether it found a stop.
pub struct WriterView {
    pub size: u64,
    pub list: LinkedList<u64>,
    pub front: u64,
    pub place: ReaderPlace,
    pub found: bool,
}

/// What a seat knows: nothing any more, or what the writer, the reader or a note of this count does.
pub enum View {
    Spent,
    Writes(WriterView),
    Reads(ReaderView),
    Notes(u64),
}
