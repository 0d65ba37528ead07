// Copies of users, paths and what may be missing, and of values side by side.
ghost use Rattle.std.specs.Prelude.{◌≡◌, IfOk};

use crate::{TryCopy, UserSet};
use ae_base::{Path, User};
use std::alloc::{AllocError, Global};

impl TryCopy for User {
    fn copy(&self, alloc: Global) -> Result<User, AllocError> {
        self.copy(alloc)
    }
}

impl TryCopy for UserSet {
    fn copy(&self, alloc: Global) -> Result<UserSet, AllocError> {
        self.copy(alloc)
    }
}

impl TryCopy for Path {
    fn copy(&self, alloc: Global) -> Result<Path, AllocError> {
        self.copy(alloc)
    }
}

impl<T: TryCopy + Drop> TryCopy for Option<T> {
    fn copy(&self, alloc: Global) -> Result<Option<T>, AllocError> {
        match self {
            Some(value) => Ok(Some(value.copy(alloc)?)),
            None => Ok(None),
        }
    }
}

/// Equal ones of both.
pub(crate) fn copy_both<A: TryCopy + Drop, B: TryCopy + Drop>(
    alloc: Global,
    first: &A,
    second: &B,
) -> Result<(A, B), AllocError>
    ensures first { IfOk result (λ copies. copies.0 ≡ first.now) }
    ensures second { IfOk result (λ copies. copies.1 ≡ second.now) }
{
    let first = first.copy(alloc)?;
    let second = second.copy(alloc)?;
    Ok((first, second))
}

/// Equal ones of the three.
pub(crate) fn copy_three<A: TryCopy + Drop, B: TryCopy + Drop, C: TryCopy + Drop>(
    alloc: Global,
    first: &A,
    second: &B,
    third: &C,
) -> Result<(A, B, C), AllocError>
    ensures first { IfOk result (λ copies. copies.0 ≡ first.now) }
    ensures second { IfOk result (λ copies. copies.1 ≡ second.now) }
    ensures third { IfOk result (λ copies. copies.2 ≡ third.now) }
{
    let (first, second) = copy_both(alloc, first, second)?;
    let third = third.copy(alloc)?;
    Ok((first, second, third))
}

/// Equal ones of the five.
pub(crate) fn copy_five<
    A: TryCopy + Drop,
    B: TryCopy + Drop,
    C: TryCopy + Drop,
    D: TryCopy + Drop,
    E: TryCopy + Drop,
>(
    alloc: Global,
    first: &A,
    second: &B,
    third: &C,
    fourth: &D,
    fifth: &E,
) -> Result<(A, B, C, D, E), AllocError>
    ensures first { IfOk result (λ copies. copies.0 ≡ first.now) }
    ensures second { IfOk result (λ copies. copies.1 ≡ second.now) }
    ensures third { IfOk result (λ copies. copies.2 ≡ third.now) }
    ensures fourth { IfOk result (λ copies. copies.3 ≡ fourth.now) }
    ensures fifth { IfOk result (λ copies. copies.4 ≡ fifth.now) }
{
    let (first, second) = copy_both(alloc, first, second)?;
    let (third, fourth, fifth) = copy_three(alloc, third, fourth, fifth)?;
    Ok((first, second, third, fourth, fifth))
}
