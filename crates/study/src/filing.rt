// The open list: slips that wait for better knowledge.
ghost use Rattle.std.specs.Prelude.{◌≡◌, is_none, position};
ghost use Rattle.study.specs.Filing.{Filed};

use crate::slip::Slip;
use colours::Reason;
use systems::Refusal;

// The first free place of an open list.
fn first_free(list: &[Option<Reason>]) -> Option<usize>
    ensures { result ≡ position is_none list.now }
{
    list.iter().position(|place| place.is_none())
}

// Uses up a slip and writes what it says at the first free place of an open list. Refused with 20 where
// none is free; then the list is as it was, and the slip is handed back, in a pair: an error type that
// holds a slip could not be let go either.
pub fn file(slip: Slip, list: &mut [Option<Reason>]) -> Result<(), (Refusal, Slip)>
    ensures { Filed slip list.old list.new result }
{
    let Some(place) = first_free(list) else {
        return Err((Refusal::OpenListFull, slip));
    };
    list[place] = Some(slip.spend());
    Ok(())
}
