//! Things that were made, where nothing was refused.
//!
//! A function that makes several things returns early after none of them: at each such return all
//! that was made so far would have to be dropped, and that dropping proved.
ghost use Rattle.std.specs.Prelude.{◌≡◌, IfOk, Ok};

use parking_lot::Fault;
use std::alloc::Global;

/// Both, where both were made.
pub(crate) fn both<A: Drop, B: Drop>(
    one: Result<A, Fault>,
    other: Result<B, Fault>,
) -> Result<(A, B), Fault>
    ensures { IfOk result (λ made. (one ≡ Ok made.0) × (other ≡ Ok made.1)) }
{
    Ok((one?, other?))
}

/// Returns the thing that was made, or why not. A value that was given back is dropped.
pub(crate) fn unless_refused<A: Drop, V: Drop>(made: Result<A, (Fault, V)>) -> Result<A, Fault>
    ensures { IfOk result (λ one. made ≡ Ok one) }
{
    match made {
        Ok(one) => Ok(one),
        Err((fault, _)) => Err(fault),
    }
}

/// Returns the thing that was made, in a box: a local is taken apart wherever it is moved or
/// dropped, and that proved.
pub(crate) fn boxed<A: Drop>(alloc: Global, made: Result<A, Fault>) -> Result<Box<A>, Fault>
    ensures { IfOk result (λ boxed. made ≡ Ok boxed.value) }
{
    match Box::new(alloc, made?) {
        Ok(boxed) => Ok(boxed),
        Err(_) => Err(Fault::NoMemory),
    }
}
