/// What `LineReader::next_line` found.
#[derive(Clone, Copy, Debug, PartialEq, Eq)]
pub enum NextLine {
    /// A line of at most `MAX_LINE` bytes.
    Line,
    /// A line of more than `MAX_LINE` bytes, which is passed over.
    TooLong,
    /// No line is left.
    End,
}
