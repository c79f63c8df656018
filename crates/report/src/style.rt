// How a report is printed.

/// The style in which rows are printed.
#[derive(Clone, Copy, Debug, PartialEq, Eq)]
pub enum Style {
    /// A line for each row.
    Text,
    /// A line for each row, in columns.
    Table,
    /// The number of rows of each rule.
    Counts,
    /// A line for each of the first rows, up to a limit.
    First(u32),
    /// A style that the listener itself defines.
    Own,
}

/// Whether a listener wants more rows.
#[derive(Clone, Copy, Debug, PartialEq, Eq)]
pub enum More {
    /// It wants the next row.
    Go,
    /// It has heard enough.
    Enough,
}
