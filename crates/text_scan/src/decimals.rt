use thiserror::Error;

/// Which way a decimal is rounded to a whole number, also below 0.
#[derive(Clone, Copy, Debug, PartialEq, Eq)]
pub enum Round {
    /// Towards more.
    Up,
    /// Towards less.
    Down,
}

/// Why no decimal is read.
#[derive(Clone, Copy, Debug, PartialEq, Eq, Error)]
pub enum ScanFault {
    /// No number stands at the cursor.
    #[error("not a number")]
    NotNumber,
    /// The rounded number passes 10^9 either way.
    #[error("out of range")]
    OutOfRange,
}
