//! What comes next beside what was read, and lists of what was read.
ghost use Rattle.std.specs.Prelude.{◌≡◌, ◌++◌, ◌∷◌, [], MatchResult, IfOk, Ok, Err};

use std::alloc::AllocError;

/// What comes next, with what was read before. At an error what was read is dropped.
pub fn keeping<T: Drop, U, E>(next: Result<U, E>, read: T) -> Result<(U, T), E>
    ensures { MatchResult result
        (λ both. (next ≡ Ok both.0) × (both.1 ≡ read))
        (λ error. next ≡ Err error) }
{
    match next {
        Ok(next) => Ok((next, read)),
        Err(error) => Err(error),
    }
}

/// The items and one more. At an error all are dropped.
pub fn pushed<T: Drop>(mut all: Vec<T>, item: T) -> Result<Vec<T>, AllocError>
    ensures { IfOk result (λ more. more.items ≡ all.items ++ item ∷ []) }
{
    all.push(item)?;
    Ok(all)
}
