//! What a caller in C gets of a result.

ghost use Rattle.c_handles.specs.Calls.{Numbers, Tells};

/// Why a call of a library was not carried out, as C has it: by a number that is not 0.
pub trait Numbered {
    ghost use Rattle.std.specs.Prelude.{ℕ, ◌≡◌};

    ghost number_of: { Self → ℕ };

    /// Its number.
    fn number(self) -> u32
        ensures { result ≡ number_of self };
}

/// A result as a number alone: 0, or that of the failure.
pub fn status<F: Numbered>(answered: Result<(), F>) -> u32
    ensures { Numbers F.number_of answered result }
{
    match answered {
        Ok(()) => 0,
        Err(failure) => failure.number(),
    }
}

/// A result as a number, and as a row of the caller's, which stays where the call failed.
pub fn tell<R: Copy, F: Numbered>(answered: Result<R, F>, row: &mut R) -> u32
    ensures { Tells F.number_of row.old row.new answered result }
{
    match answered {
        Ok(value) => {
            *row = value;
            0
        }
        Err(failure) => failure.number(),
    }
}
