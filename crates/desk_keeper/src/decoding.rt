// Rows back to the commands that they keep.

ghost use Rattle.std.specs.Prelude.{◌≡◌, ℕ, List, IfOk, IsErrOf, [], ◌∷◌, codes, Some};
ghost use Rattle.desk_keeper.specs.declared.words.Named.{Named};
ghost use Rattle.desk_keeper.specs.Rows.{IsRow};
ghost use Rattle.desk_keeper.specs.Reading.{edit_in};

use crate::reading::kept_in;
use crate::words::{Kept, RowFault};
use std::alloc::Global;

/// The command that a row keeps, and the text of a publish's lottery. A row is a head line and, where its command has a
/// body, exactly as many bytes behind it as the head line says; it is the row of one command alone.
pub fn decode(alloc: Global, row: &[u8]) -> Result<Kept, RowFault>
    ensures found { IfOk result (λ kept. IsRow row.now kept.named kept.lottery) }
    ensures only { IfOk result (λ kept. (named : Named) (lottery : List ℕ) → IsRow row.now named lottery → (named ≡ kept.named) × (lottery ≡ kept.lottery)) }
    ensures none { IsErrOf result RowFault.BadRow → (named : Named) (lottery : List ℕ) → ¬ (IsRow row.now named lottery) }
{
    kept_in(alloc, row)
}
