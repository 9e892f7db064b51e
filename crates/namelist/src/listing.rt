// A pair listed behind the others, and a pair taken out.
ghost use Rattle.std.specs.Prelude.{◌+◌, ◌-◌, ◌≤◌, ◌<◌, ◌≡◌, true, ◌||◌, ◌++◌, leb, ltb, length, take, drop};
ghost use Rattle.namearea.specs.Area.{most_names, text_from, count_in, names_in, total};
ghost use Rattle.namearea.specs.Calls.{with_last, Relisted};
ghost use Rattle.namelist.specs.Moves.{GoodArea, Insertable};

use crate::gaps::{place_for, total_size};
use crate::moves::{put_count, put_pair, put_text};
use namearea::{MOST_NAMES, Span, TEXT_FROM, count_in};

// One name more, of n bytes, finds no place.
pub(crate) fn no_room(area: &[u8], n: usize) -> bool
    requires { GoodArea area.now × (n ≤ 255) }
    ensures { result ≡ (leb most_names (count_in area.now)
        || ltb (length area.now - text_from) (total (names_in area.now) + n)) }
{
    MOST_NAMES <= count_in(area) as usize || area.len() - TEXT_FROM < total_size(area) + n
}

// The name goes behind those that are listed.
pub(crate) fn insert(area: &mut [u8], name: &[u8])
    requires { Insertable area.old (count_in area.old) name.now }
    ensures { Relisted area.old area.new
        (with_last (names_in area.old) name.now) }
{
    let at = place_for(area, name.len());
    let count = count_in(area);
    put_text(area, at, name);
    put_pair(
        area,
        count as usize,
        Span {
            offset: at as u32,
            size: name.len() as u32,
        },
    );
    put_count(area, count + 1);
}

// The name at a place goes: the pairs behind it move up by one place.
pub(crate) fn unlist(area: &mut [u8], place: usize)
    requires { GoodArea area.old × (place < count_in area.old) }
    ensures { Relisted area.old area.new
        (take place (names_in area.old) ++ drop (place + 1) (names_in area.old)) }
{
    let count = count_in(area);
    let at = 4 + 8 * place;
    area.copy_within(at + 8..4 + 8 * count as usize, at);
    put_count(area, count - 1);
}
