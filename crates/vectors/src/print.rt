// Words, numbers and lists of a row, on standard output, each with a space before it.
use std::fmt::Display;
use std::io;

pub(crate) fn mark(rt: &impl Print, b: u8) -> io::Result<()> {
    rt.write_all(&[b])
}

pub(crate) fn number<N: Display + Drop>(rt: &impl Print, n: N) -> io::Result<()> {
    print!(rt; " {n}")
}

pub(crate) fn flag(rt: &impl Print, set: bool) -> io::Result<()> {
    number(rt, u8::from(set))
}

// What stands before a list of so many items: `-` for none.
pub(crate) fn start(rt: &impl Print, size: usize) -> io::Result<()> {
    rt.write_all(if size == 0 { b" -" } else { b" " })
}

// Each item, with a separator between them.
pub(crate) fn separated<T, F: Fn(&T) -> io::Result<()>>(
    rt: &impl Print,
    items: &[T],
    separator: u8,
    print: F,
) -> io::Result<()>
    requires { F.IsAlwaysCallable print }
{
    for (i, item) in items.iter().enumerate() {
        if 0 < i {
            mark(rt, separator)?;
        }
        print(item)?;
    }
    Ok(())
}

// Bytes in decimal, with a separator between them.
pub(crate) fn joined(rt: &impl Print, bytes: &[u8], separator: u8) -> io::Result<()> {
    separated(rt, bytes, separator, |b| print!(rt; "{b}"))
}

// The same with commas, as a word of its own.
pub(crate) fn numbers(rt: &impl Print, bytes: &[u8]) -> io::Result<()> {
    start(rt, bytes.len())?;
    joined(rt, bytes, b',')
}

// Bytes in hexadecimal, two digits each with nothing between.
pub(crate) fn digits(rt: &impl Print, bytes: &[u8]) -> io::Result<()> {
    for b in bytes {
        print!(rt; "{b:02x}")?;
    }
    Ok(())
}

// The same as a word of its own.
pub(crate) fn hexadecimal(rt: &impl Print, bytes: &[u8]) -> io::Result<()> {
    start(rt, bytes.len())?;
    digits(rt, bytes)
}

// The numbers of the flags that are set.
pub(crate) fn flags(rt: &impl Print, set: [bool; 8]) -> io::Result<()> {
    let mut separator = b' ';
    for (k, flag) in set.iter().enumerate() {
        if *flag {
            mark(rt, separator)?;
            print!(rt; "{k}")?;
            separator = b',';
        }
    }
    if separator == b' ' {
        start(rt, 0)
    } else {
        Ok(())
    }
}
