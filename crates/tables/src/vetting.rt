// Describing a table file by what it holds.
ghost use Rattle.std.specs.Prelude.{◌≡◌, Some, None, MatchResult};
ghost use Rattle.systems.specs.Counted.{Counted};
ghost use Rattle.tables.specs.Conditions.{file_fault};
ghost use Rattle.tables.specs.Files.{file_model};

use crate::reading::read;
use systems::{Census, Fault};

// Counts what the file says, or tells the first condition that it fails.
pub fn vet(bytes: &[u8]) -> Result<Census, Fault>
    ensures { MatchResult result (λ c. (file_fault bytes.now ≡ None) × Counted (file_model bytes.now) c) (λ e. file_fault bytes.now ≡ Some e) }
{
    let table = read(bytes)?;
    Ok(Census::of(&table))
}
