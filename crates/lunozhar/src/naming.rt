// The station's own names, in an area that the caller lends.
ghost use Rattle.std.specs.Prelude.{◌≡◌, length};
ghost use Rattle.namearea.specs.Calls.{Added, Removed, finding};
ghost use Rattle.nametable.specs.Table.{table_answer, table_out};

use answer::answer;
use namearea::Found;

// A name is added as the last.
pub fn lunozhar_name_add(area: &mut [u8], name: &[u8]) -> u8
    ensures { Added area.old name.now result area.new }
{
    answer(namelist::changes::add(area, name))
}

// A name is removed.
pub fn lunozhar_name_remove(area: &mut [u8], name: &[u8]) -> u8
    ensures { Removed area.old name.now result area.new }
{
    answer(namelist::changes::remove(area, name))
}

// The place of a name.
pub fn lunozhar_name_find<'a>(area: &'a [u8], name: &'a [u8]) -> Found
    ensures { result ≡ finding area.now name.now }
{
    Found::from(names::search::find(area, name))
}

// The table of the names, at the front of the output.
pub fn lunozhar_name_table(area: &[u8], size: u32, infinity: u8, out: &mut [u8]) -> u8
    ensures answer { result ≡ table_answer area.now size infinity (length out.old) }
    ensures bytes { out.new ≡ table_out area.now size infinity out.old }
{
    answer(nametable::own_table(area, size, infinity, out))
}
