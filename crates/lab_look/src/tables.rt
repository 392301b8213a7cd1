// The file of the tables beside the journal.
use lab_base::TextFault;

/// A look at the file of the tables.
#[derive(Clone, Copy)]
pub struct TablesSeen {
    /// It isn't empty.
    pub rows: bool,
    /// The fault of its first line that has another form.
    pub fault: Option<TextFault>,
}
