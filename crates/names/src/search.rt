// The test of an area, and the place of a name.
ghost use Rattle.std.specs.Prelude.{◌≡◌};
ghost use Rattle.namearea.specs.Area.{name_at};
ghost use Rattle.answer.specs.Numbers.{answer_of};
ghost use Rattle.namearea.specs.Calls.{list_answer, finding, found_of};
ghost use Rattle.names.specs.Chains.{Chained, Tested};

use crate::chains::{Chains, hash};
use crate::order::{List, all_placed};
use answer::Refusal;
use namearea::{MOST_NAMES, TEXT_FROM, count_in, good_name};

// Refuses an area with no room for the pairs, and one that is not good; of another the names are chained. No name is
// chained before.
fn tested(area: &[u8], chains: &mut Chains) -> Result<(), Refusal>
    requires { Chained (name_at area.now) 0 chains.old.heads chains.old.links chains.old.tags }
    ensures { Tested area.now (answer_of result) chains.new.heads chains.new.links chains.new.tags }
{
    if area.len() < TEXT_FROM {
        return Err(Refusal::BadArea);
    }
    let count = count_in(area) as usize;
    if MOST_NAMES < count || !all_placed(List { area, count }) || !chains.chain(area, count) {
        return Err(Refusal::NotInOrder);
    }
    Ok(())
}

// What every call on an area refuses first.
pub fn list_answer(area: &[u8]) -> Result<(), Refusal>
    ensures { answer_of result ≡ list_answer area.now }
{
    tested(area, &mut Chains::new())
}

// The place of a name in the list, from 0.
pub fn find(area: &[u8], name: &[u8]) -> Result<usize, Refusal>
    ensures { found_of result ≡ finding area.now name.now }
{
    let mut chains = Chains::new();
    tested(area, &mut chains)?;
    if !good_name(name) {
        return Err(Refusal::BadPayload);
    }
    chains.find(area, name, hash(name)).ok_or(Refusal::NotFound)
}
