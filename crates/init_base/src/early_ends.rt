//! Values that end in one place where another one is refused.
//!
//! A large value that a caller lets go at an early end is let go in the caller's proof. Behind a type parameter it isn't.

ghost use Rattle.std.specs.Prelude.{◌≡◌, IfErr, IfOk, Err, None, Ok, OnOk, Some};

/// Two values, where the second isn't refused. Else the first one ends here.
pub fn both<A: Drop, B: Drop, E>(first: A, second: Result<B, E>) -> Result<(A, B), E>
    ensures pair { IfOk result (λ pair. (pair.0 ≡ first) × (second ≡ Ok pair.1)) }
    ensures refused { IfErr result (λ why. second ≡ Err why) }
{
    match second {
        Ok(second) => Ok((first, second)),
        Err(why) => Err(why),
    }
}

/// A value, unless it is refused. Then it ends here.
pub fn unless<T: Drop, E>(refusal: Option<E>, value: T) -> Result<T, E>
    ensures value { IfOk result (λ taken. taken ≡ value) }
    ensures taken { OnOk result (refusal ≡ None) }
    ensures refused { IfErr result (λ why. refusal ≡ Some why) }
{
    match refusal {
        None => Ok(value),
        Some(why) => Err(why),
    }
}
