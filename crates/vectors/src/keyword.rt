// `place BITS KEYWORD`, `casehash LABEL KEYWORD` and `keywords TEXT`
use crate::print;
use keywords::cut::first_keyword;
use rows::words;
use std::io;

pub(crate) fn place(rt: &impl Print, keyword: &[u8], bits: u32) -> io::Result<()> {
    print::number(rt, keywords::hash::place(keyword, bits))
}

// Where each keyword of the text starts, modulo 256, as a byte of the area; how many there are. Places count modulo
// 4,096, which is more than a query's text has.
fn starts(text: &[u8], area: &mut [u8; 256]) -> usize {
    let mut count = 0;
    let mut at = 0;
    for _ in 0..256 {
        let rest = words::part(text, at, text.len());
        let end = match first_keyword(rest) {
            Some(cut) => {
                let start = at % 4096 + cut.start % 4096;
                if cut.start % 4096 < cut.end % 4096 {
                    count = words::put(&mut *area, count, (start % 256) as u8);
                }
                cut.end
            }
            None => rest.len(),
        };
        at = at % 4096 + end % 4096;
    }
    count
}

pub(crate) fn cuts(rt: &impl Print, text: &[u8]) -> io::Result<()> {
    let mut area = [0u8; 256];
    let n = starts(text, &mut area);
    print::number(rt, n)?;
    print::numbers(rt, words::part(&area, 0, n))
}
