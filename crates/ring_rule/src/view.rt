// What each seat of a ring knows. Values of these types occur only in contracts and proofs.
use std::collections::LinkedList;

/// The numbers of a ring and the rows that pass through it, fixed when it is made and the same in every view.
pub struct RingNumbers {
    pub places: u64,
    pub readers: u64,
    /// The number of rows.
    pub total: u64,
    /// The bytes of each row.
    pub row_len: u64,
    /// The bytes of all rows, in order.
    pub rows: LinkedList<LinkedList<u8>>,
}

/// What the writer's seat knows. Each list has one entry per reader.
pub struct WriterView {
    pub ring: RingNumbers,
    /// The number of rows published.
    pub head: u64,
    /// The number of readers that have been given a seat.
    pub made: u64,
    /// The word that the writer last loaded from the reader's cursor.
    pub known: LinkedList<u64>,
    /// How often the writer loaded it.
    pub loads: LinkedList<u64>,
    /// Whether the writer filled the reader's lane with the row numbered head.
    pub filled: LinkedList<bool>,
    /// The reader whose lane for the row numbered head is out with the writer.
    pub hand: Option<u64>,
    /// The content of the note joined last.
    pub told: Option<CursorNoteView>,
}

/// What a reader's seat knows.
pub struct ReaderView {
    pub ring: RingNumbers,
    pub number: u64,
    /// The number of rows that the reader took.
    pub taken: u64,
    pub left: bool,
    /// Whether the lane for the reader's next row is out with it.
    pub out: bool,
    /// The head that the reader last loaded.
    pub seen: u64,
    /// How often the reader loaded the head.
    pub loads: u64,
    /// The content of the note joined last.
    pub told: Option<HeadNoteView>,
}

/// The content of a writer's note: its head, and the words that it knew of the readers' cursors.
pub struct HeadNoteView {
    pub ring: RingNumbers,
    pub head: u64,
    pub known: LinkedList<u64>,
}

/// The content of a reader's note: how many rows it took, and whether it left.
pub struct CursorNoteView {
    pub ring: RingNumbers,
    pub number: u64,
    pub taken: u64,
    pub left: bool,
}

/// What one seat knows, by the seat's actor: the writer, a reader, or a note; `Spent` once the seat was
/// joined to another.
pub enum View {
    Writer(WriterView),
    Reader(ReaderView),
    HeadNote(HeadNoteView),
    CursorNote(CursorNoteView),
    Spent,
}
