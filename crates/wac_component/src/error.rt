//! The error of reading a component.

use crate::fault::TextFault;
use thiserror::Error;

/// Why a component is not read.
#[derive(Clone, Copy, Debug, PartialEq, Eq, Error)]
pub enum ReadReason {
    /// The bytes are not the text of a component, or have what is not supported.
    #[error("{0}")]
    Text(TextFault),
    /// Out of memory.
    #[error("out of memory")]
    OutOfMemory,
}

/// Why a component is not read, and the place in its bytes.
#[derive(Clone, Copy, Debug, PartialEq, Eq, Error)]
#[error("{reason} at byte {at}")]
pub struct ReadError {
    /// The offset of the first byte of the item or the field.
    pub at: usize,
    /// What is wrong there.
    pub reason: ReadReason,
}
