//! Why nodes are not a package.

ghost use Rattle.std.specs.Prelude.{◌≡◌};
ghost use Rattle.redl_opc.specs.declared.error.OpcError.TheVariants.{NoMemory};

use std::alloc::{AllocError, AllocFailed};
use thiserror::Error;

/// Why nodes are not a package, in the order in which the causes are tested.
#[derive(Clone, Copy, Debug, PartialEq, Eq, Error)]
pub enum OpcError {
    /// The root is not `package` in the package's namespace.
    #[error("the root is not a package")]
    NotPackage,
    /// A child element of the root is not a part with a name, a content type, and one `binaryData` or one `xmlData` with one
    /// element.
    #[error("the root has a child that is not a part")]
    PartShape,
    /// No part has the root `document`.
    #[error("no part has a document")]
    NoDocument,
    /// An allocation failed. The nodes have the shape of a package.
    #[error("out of memory")]
    NoMemory,
}

impl From<AllocError> for OpcError {
    ghost from_gives = { λ _ error. error ≡ NoMemory };

    fn from(_error: AllocError) -> OpcError {
        OpcError::NoMemory
    }
}

impl<T: Drop> From<AllocFailed<T>> for OpcError {
    ghost from_gives = { λ _ error. error ≡ NoMemory };

    fn from(_error: AllocFailed<T>) -> OpcError {
        OpcError::NoMemory
    }
}
