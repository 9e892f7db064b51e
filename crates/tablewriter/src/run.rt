// The messages of an update: a RESET, and the run of PATCH messages.
ghost use Rattle.std.specs.Prelude.{◌≡◌, ◌+◌, ◌≤◌, ◌<◌, min, length, take, drop};
ghost use Rattle.laws.specs.Parts.{over};
ghost use Rattle.tablemessages.specs.Writer.{update, reset_payload};
ghost use Rattle.tablemessages.specs.Steps.{Sound, Runs, Fits, all_by, bits_by, data_by, patch_with, left_of};

use crate::data::{data_length, put_data};
use crate::{PATCH_HEAD, RESET_SIZE};
use tablemessages::Plan;
use wire::Kind;

// A RESET stands at the front of the part.
fn put_reset(number: [u8; 16], entries: u32, infinity: u8, part: &mut [u8])
    requires { 29 ≤ length part.old }
    ensures { part.new ≡ over 0 (update number (reset_payload entries infinity)) part.old }
{
    let bytes = entries.to_le_bytes();
    wire::put_header(number, Kind::RouteUpdate.into(), 1, 0, 6, &mut *part);
    part[23] = 0;
    part[24] = bytes[0];
    part[25] = bytes[1];
    part[26] = bytes[2];
    part[27] = bytes[3];
    part[28] = infinity;
}

// The bits of a difference.
fn bits_of(plan: Plan) -> u8
    ensures { result ≡ bits_by plan }
{
    if plan.small { 4 } else { 8 }
}

// A PATCH with n bytes of the run's data, from byte `from` on, stands at the front of the part.
fn put_patch<'a>(
    number: [u8; 16],
    plan: Plan,
    place: u8,
    old: &'a [u8],
    new: &'a [u8],
    from: usize,
    n: usize,
    part: &mut [u8],
)
    requires { Sound plan old.now new.now × (from + n ≤ length (data_by plan old.now new.now)) × (n ≤ 4091) × (28 + n ≤ length part.old) }
    ensures { part.new ≡ over 0
        (patch_with number plan place (take n (drop from (data_by plan old.now new.now))))
        part.old }
{
    let size = (5 + n) as u32;
    let bits = bits_of(plan);
    wire::put_header(number, Kind::RouteUpdate.into(), 1, 0, size, &mut *part);
    part[23] = 1;
    part[24] = place;
    part[25] = plan.count;
    part[26] = 0;
    part[27] = bits;
    put_data(plan, old, new, from, n, &mut part[PATCH_HEAD..]);
}

// The whole run stands at the front of `out`.
fn put_run<'a>(number: [u8; 16], plan: Plan, old: &'a [u8], new: &'a [u8], out: &mut [u8])
    requires { Runs number plan old.now new.now (length out.old) }
    ensures { out.new ≡ over 0 (left_of number plan 1 (data_by plan old.now new.now)) out.old }
{
    let data = data_length(plan.small, new.len());
    let mut place: usize = 1;
    let mut from: usize = 0;
    let mut at: usize = 0;
    while from < data {
        let n = plan.size.min(data - from);
        let end = at + PATCH_HEAD + n;
        put_patch(
            number,
            plan,
            place as u8,
            old,
            new,
            from,
            n,
            &mut out[at..end],
        );
        at = end;
        from += n;
        place += 1;
    }
}

// All the messages stand at the front of `out`: a RESET where there was no old table, then the run.
pub(crate) fn put_all<'a>(
    number: [u8; 16],
    plan: Plan,
    old: &'a [u8],
    new: &'a [u8],
    out: &mut [u8],
)
    requires { Fits number plan old.now new.now (length out.old) }
    ensures { out.new ≡ over 0 (all_by number plan old.now new.now) out.old }
{
    if plan.had {
        put_run(number, plan, old, new, out);
    } else {
        put_reset(number, new.len() as u32, plan.infinity, &mut *out);
        put_run(number, plan, old, new, &mut out[RESET_SIZE..]);
    }
}
