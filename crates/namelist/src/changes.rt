// A name added as the last, and a name removed.
ghost use Rattle.answer.specs.Numbers.{answer_of};
ghost use Rattle.namearea.specs.Calls.{Added, Removed};

use crate::listing::{insert, no_room, unlist};
use answer::Refusal;
use names::search::find;

// Adds a name as the last.
pub fn add(area: &mut [u8], name: &[u8]) -> Result<(), Refusal>
    ensures { Added area.old name.now (answer_of result) area.new }
{
    let Err(refusal) = find(area, name) else {
        return Err(Refusal::Repeated);
    };
    if refusal != Refusal::NotFound {
        return Err(refusal);
    }
    if no_room(area, name.len()) {
        return Err(Refusal::ListFull);
    }
    insert(area, name);
    Ok(())
}

// Removes a name.
pub fn remove(area: &mut [u8], name: &[u8]) -> Result<(), Refusal>
    ensures { Removed area.old name.now (answer_of result) area.new }
{
    let place = find(area, name)?;
    unlist(area, place);
    Ok(())
}
