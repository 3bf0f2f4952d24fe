//! Why words are refused.
ghost use Rattle.std.specs.Prelude.{◌≡◌};
ghost use Rattle.wac_script.specs.declared.labels.faults.WordError.TheVariants as word_error;
ghost use Rattle.wac_script.specs.private.Unread.{word_error_of};

use std::alloc::{AllocError, AllocFailed, Global};
use std::fmt;
use thiserror::Error;
use wac_graph::types::ShapeError;

/// What is wrong with a word.
#[derive(Clone, Copy, Debug, Error)]
pub enum WordFault {
    /// The call takes other words.
    #[error("the call takes other words")]
    OtherWords,
    /// Nothing has the label.
    #[error("nothing has this label")]
    UnknownLabel,
    /// The label is used already.
    #[error("the label is used already")]
    LabelTwice,
    /// The label is not that of a resource.
    #[error("expected a resource")]
    NotResource,
    /// The word is not a value type.
    #[error("expected a value type")]
    NotValue,
    /// The label is not that of an interface.
    #[error("expected an interface")]
    NotInterface,
    /// The label is not that of a world.
    #[error("expected a world")]
    NotWorld,
    /// The label is not that of an import or export of a core module.
    #[error("expected a core function, table, memory, global or tag")]
    NotCore,
    /// The word is not an item.
    #[error("expected an item")]
    NotItem,
    /// The label is not that of a package.
    #[error("expected a package")]
    NotPackage,
    /// The label is not that of a node.
    #[error("expected a node")]
    NotNode,
    /// The word is not a name and a word with `=` between them.
    #[error("expected NAME=WORD")]
    NotPair,
    /// The word is not a number, or it is too large.
    #[error("expected a number")]
    NotNumber,
    /// The word is not a type of core modules.
    #[error("expected a core type")]
    NotCoreType,
    /// The word is not a semantic version.
    #[error("expected a version")]
    NotVersion,
    /// The word is not hexadecimal.
    #[error("expected hexadecimal digits")]
    NotHex,
}

/// Why words are refused.
#[derive(Debug, Drop)]
pub enum WordError {
    /// A word is not what the call takes.
    Word {
        /// What is wrong with it.
        fault: WordFault,
        /// The word.
        word: String,
    },
    /// A name occurs twice.
    Shape(ShapeError),
    /// Out of memory.
    OutOfMemory,
}

impl From<AllocError> for WordError {
    ghost from_gives = { λ _ e. e ≡ word_error.OutOfMemory };

    fn from(_e: AllocError) -> WordError {
        WordError::OutOfMemory
    }
}

impl<T: Drop> From<AllocFailed<T>> for WordError {
    ghost from_gives = { λ _ e. e ≡ word_error.OutOfMemory };

    fn from(_e: AllocFailed<T>) -> WordError {
        WordError::OutOfMemory
    }
}

impl From<ShapeError> for WordError {
    ghost from_gives = { λ source e. e ≡ word_error_of source };

    fn from(source: ShapeError) -> WordError {
        match source {
            ShapeError::OutOfMemory => WordError::OutOfMemory,
            ShapeError::NameTwice => WordError::Shape(ShapeError::NameTwice),
        }
    }
}

impl fmt::Display for WordError {
    fn fmt<W: fmt::Write>(&self, f: &mut fmt::Formatter<W>) -> fmt::Result {
        match self {
            WordError::Word { fault, word } => write!(f, "{fault}: `{word}`"),
            WordError::Shape(source) => write!(f, "the type cannot be built: {source}"),
            WordError::OutOfMemory => f.write_str("out of memory"),
        }
    }
}

/// Returns the refusal of a word.
pub(crate) fn refused(alloc: Global, fault: WordFault, word: &str) -> WordError {
    match String::from_str(alloc, word) {
        Ok(word) => WordError::Word { fault, word },
        Err(_) => WordError::OutOfMemory,
    }
}
