// `session LABEL EVENT ..`, whose row is the event file, and `file LABEL BYTES`; the text of either, a row a line.
use crate::print;
use rows::words;
use std::io;

// What stands before a line of the text: a row's beginning, which the first line has already.
fn begun(rt: &impl Print, label: &[u8], i: usize) -> io::Result<()> {
    if 0 < i {
        rt.write_all(b"\nsession")?;
        rt.write_all(label)?;
    }
    print::mark(rt, b' ')
}

// A row for each line of the text of an event file.
pub(crate) fn values(rt: &impl Print, label: &[u8], file: &[u8], out: &mut [u8]) -> io::Result<()> {
    let size = transcript::text::session_text(file, &mut *out).unwrap_or(0);
    let text = words::part(out, 0, size);
    for (i, line) in text.split_inclusive(|b| *b == b'\n').enumerate() {
        begun(rt, label, i)?;
        rt.write_all(line.strip_suffix(b"\n").unwrap_or(line))?;
    }
    Ok(())
}
