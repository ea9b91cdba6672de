// Reading a table file.
ghost use Rattle.std.specs.Prelude.{◌≡◌, Some, None, MatchResult};
ghost use Rattle.systems.specs.Model.{Agree};
ghost use Rattle.systems.specs.Written.{table_model};
ghost use Rattle.tables.specs.Conditions.{file_fault};
ghost use Rattle.tables.specs.Files.{file_model};

use crate::contents::Front;
use crate::file::TableFile;
use systems::{Fault, Table};

// The table of a file that meets every condition, or the first condition that fails.
pub fn read(bytes: &[u8]) -> Result<Table, Fault>
    ensures { MatchResult result (λ t. (file_fault bytes.now ≡ None) × Agree (file_model bytes.now) (table_model t)) (λ e. file_fault bytes.now ≡ Some e) }
{
    let bodies = Front::of(bytes)?.bodies()?;
    Ok(Table::copy_of(&TableFile::new(bodies)?))
}
