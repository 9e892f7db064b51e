// The station's own names, in an area that the caller lends.
ghost use Rattle.std.specs.Prelude.{◌≡◌, length};
ghost use Rattle.namearea.specs.Calls.{Added, Removed, finding};
ghost use Rattle.nametable.specs.Table.{table_answer, table_out};

use namearea::Found;

// A name is added as the last.
#[unsafe(no_mangle)]
pub extern "C" fn lunozhar_name_add(area: &mut [u8], name: &[u8]) -> u8
    ensures { Added area.old name.now result area.new }
{
    lunozhar::naming::lunozhar_name_add(area, name)
}

// A name is removed.
#[unsafe(no_mangle)]
pub extern "C" fn lunozhar_name_remove(area: &mut [u8], name: &[u8]) -> u8
    ensures { Removed area.old name.now result area.new }
{
    lunozhar::naming::lunozhar_name_remove(area, name)
}

// The place of a name.
#[unsafe(no_mangle)]
pub extern "C" fn lunozhar_name_find<'a>(area: &'a [u8], name: &'a [u8]) -> Found
    ensures { result ≡ finding area.now name.now }
{
    lunozhar::naming::lunozhar_name_find(area, name)
}

// The table of the names, at the front of the output.
#[unsafe(no_mangle)]
pub extern "C" fn lunozhar_name_table(area: &[u8], size: u32, infinity: u8, out: &mut [u8]) -> u8
    ensures answer { result ≡ table_answer area.now size infinity (length out.old) }
    ensures bytes { out.new ≡ table_out area.now size infinity out.old }
{
    lunozhar::naming::lunozhar_name_table(area, size, infinity, out)
}
