//! Where the sides of words lie on a table.

ghost use Rattle.std.specs.Prelude.{◌≡◌, ◌<◌, ◌^◌};
ghost use Rattle.pm_board.specs.Table.{cached_at};

/// The number of the table's word that is the cached side of this word, where this number of first words lies apart. The
/// next one is its persisted side.
#[inline(always)]
pub(crate) fn cached_at(apart: usize, word: usize) -> usize
    requires { cached_at apart word < 2 ^ 32 }
    ensures { result ≡ cached_at apart word }
{
    if word < apart {
        8 * word
    } else {
        6 * apart + 2 * word
    }
}
