ghost use Rattle.std.specs.Prelude.{◌≡◌};
ghost use Rattle.dom_arena.specs.declared.refusals.DomError.TheVariants.{NoMemory};

use std::alloc::AllocError;
use thiserror::Error;

/// Why a call on a tree is refused. After each of them the tree is as it was.
#[derive(Debug, Clone, Copy, PartialEq, Eq, Error)]
pub enum DomError {
    #[error("there is no node {0}")]
    NoSuchNode(u32),
    #[error("node {0} is no element")]
    NotElement(u32),
    #[error("node {0} is no text")]
    NotText(u32),
    #[error("there is no place {0} among the children")]
    BadPlace(u32),
    #[error("node {0} would stand below itself")]
    IntoItself(u32),
    #[error("the document stays as it is")]
    IsDocument,
    #[error("a node would stand too deep")]
    TooDeep,
    #[error("the tree would have too many nodes")]
    TooManyNodes,
    #[error("out of memory")]
    NoMemory,
}

impl From<AllocError> for DomError {
    ghost from_gives = { λ _ e. e ≡ NoMemory };

    fn from(_error: AllocError) -> DomError {
        DomError::NoMemory
    }
}
