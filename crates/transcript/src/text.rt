// The whole text.
ghost use Rattle.std.specs.Prelude.{◌≡◌, true, ◌++◌, ◌≤◌, length, IfSome};
ghost use Rattle.laws.specs.Parts.{Put};
ghost use Rattle.keeper.specs.Kept.{kept_by};
ghost use Rattle.transcript.specs.Files.{count_of, count_from, good_file};
ghost use Rattle.transcript.specs.Text.{RowsFit, rows_from, all_rows, heading, text_room, session_text, written_of};
ghost use Rattle.transcript.specs.Text.{area_of, handed_back};

use crate::events::act;
use crate::file::{count, event, good_file};
use crate::put::put_text;
use crate::rows::put_row;
use keeper::Keeper;
use wire::LARGEST_MESSAGE;

// A row for each event of a file, each acted on where the one before it left the station and the route area.
fn put_rows(
    file: &[u8],
    station: &mut Keeper,
    area: &mut [u8],
    route: &mut [u8],
    out: &mut [u8],
    at: usize,
) -> usize
    requires { RowsFit file.now (count_of file.now) (length area.old) (length out.old) at }
    ensures { Put at (rows_from file.now (kept_by station.old) route.old
        (count_from 0 (count_of file.now))) out.old out.new result }
{
    let mut end = at;
    for i in 0..count(file) {
        let answered = act(station, event(file, i), area, route);
        end = put_row(out, end, i as u16, answered);
    }
    end
}

// The text of a good file.
fn put_session(file: &[u8], out: &mut [u8]) -> usize
    requires { (good_file file.now ≡ true) × (text_room ≤ length out.old) }
    ensures { Put 0 (heading ++ all_rows file.now) out.old out.new result }
{
    let mut route = [0u8; 16384];
    let mut area = [0u8; LARGEST_MESSAGE];
    let mut station = Keeper::fresh(route.len());
    let at = put_text(out, 0, b"event answer to after\n");
    put_rows(file, &mut station, &mut area, &mut route, out, at)
}

// The text of a session, from the bytes of its event file, and its length. An area that is too short for some text is
// left as it is.
pub fn session_text(file: &[u8], out: &mut [u8]) -> Option<usize>
    ensures result { handed_back result ≡ written_of (length out.old) (session_text file.now) }
    ensures area { out.new ≡ area_of (session_text file.now) out.old }
    ensures inside { IfSome result (λ size. size ≤ length out.old) }
{
    if out.len() < 118784 {
        return None;
    }
    Some(if good_file(file) {
        put_session(file, out)
    } else {
        put_text(out, 0, b"bad file\n")
    })
}
