//! What calls answer where each of their allocations is refused in turn.
ghost use Rattle.std.specs.Prelude.{◌≡◌};

use cbor_edn_parts::base::error::{CallbackError, Fault};
use std::alloc::{AllocError, AllocFailed, Global};

/// Why a call is not done: memory was refused, and it left what it must, or it answered otherwise than it must.
#[derive(Clone, Copy, Debug, PartialEq, Eq)]
pub enum Failure {
    Refused,
    Wrong,
}

impl From<AllocError> for Failure {
    ghost use Rattle.cbor_edn_expect.specs.declared.memory.Failure.TheVariants.{Refused};

    ghost from_gives = { λ _ failure. failure ≡ Refused };

    fn from(_: AllocError) -> Failure {
        Failure::Refused
    }
}

impl<T: Drop> From<AllocFailed<T>> for Failure {
    ghost use Rattle.cbor_edn_expect.specs.declared.memory.Failure.TheVariants.{Refused};

    ghost from_gives = { λ _ failure. failure ≡ Refused };

    fn from(_: AllocFailed<T>) -> Failure {
        Failure::Refused
    }
}

// Where the input is right, only want of memory is an answer beside the right one.
impl<E: Drop> From<Fault<E>> for Failure {
    fn from(fault: Fault<E>) -> Failure {
        match fault {
            Fault::Memory(_) => Failure::Refused,
            Fault::Told(_) => Failure::Wrong,
        }
    }
}

impl From<CallbackError> for Failure {
    fn from(error: CallbackError) -> Failure {
        match error {
            CallbackError::Memory(_) => Failure::Refused,
            CallbackError::Comment(_) => Failure::Wrong,
        }
    }
}

/// The word for what came of a call, by whether its answer is right.
pub fn word(answer: Result<bool, Failure>) -> &'static str {
    match answer {
        Ok(true) => "done",
        Err(Failure::Refused) => "refused",
        Ok(false) | Err(Failure::Wrong) => "wrong",
    }
}

/// A tree in a box: a proof writes out what a function holds, and of a box only that it is one. Fails as the answer does, and where
/// memory is refused.
pub fn boxed<T: Drop, E: Into<Failure>>(
    alloc: Global,
    answer: Result<T, E>,
) -> Result<Box<T>, Failure> {
    match answer {
        Ok(tree) => Ok(Box::new(alloc, tree)?),
        Err(error) => Err(error.into()),
    }
}

/// Whether a text is among these.
pub fn is_one_of(texts: &[&'static str], text: &str) -> bool {
    let mut is_found = false;
    for &one in texts {
        if one == text {
            is_found = true;
        }
    }
    is_found
}
