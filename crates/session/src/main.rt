// Writes the text of a session, whose event file the first argument names, or standard input is where there is none.
#![tactic(auto)]

ghost use Rattle.std.specs.Prelude.{◌≡◌, ◌≤◌, length};

use std::env::{Env, FillError};
use std::fs::File;
use std::io;
use std::io::{Cursor, Read, Write};

// A file that can't be opened, and why, is told on standard error. It is read as a file without bytes, which is no event
// file either.
fn unread(rt: &impl Eprint, name: &str, why: &str) -> usize
    ensures { result ≡ 0 }
{
    eprintln!(rt; "{name}: {why}").unwrap_or(());
    0
}

// The same, with the system's word for the error, which has its number behind it.
fn refused(rt: &impl Eprint, name: &str, error: io::Error) -> usize
    ensures { result ≡ 0 }
{
    let mut room = Cursor::new([0u8; 256]);
    write!(room, "{error}").unwrap_or(());
    let size = (room.position() as usize).min(256);
    let words = room.into_inner();
    match std::str::from_utf8(&words[..size]) {
        Ok(text) => unread(rt, name, text.split(" (os error ").next().unwrap_or("")),
        Err(_) => unread(rt, name, ""),
    }
}

// Reads until the area is full, the input ends or a read fails; how many bytes were read.
fn bytes_of(reader: &mut impl Read, area: &mut [u8]) -> usize
    ensures { result ≤ length area.new }
{
    let mut size = 0;
    while size < area.len() {
        let n = reader.read(&mut area[size..]).unwrap_or(0);
        if n == 0 {
            break;
        }
        size += n;
    }
    size
}

// The file of this name.
fn read_file(rt: &HostRuntime, name: &str, area: &mut [u8]) -> usize
    ensures { result ≤ length area.new }
{
    match File::open(rt, name) {
        Ok(mut file) => bytes_of(&mut file, area),
        Err(error) => refused(rt, name, error),
    }
}

// The event file's bytes at the front of the area; how many they are.
fn read(rt: &HostRuntime, area: &mut [u8]) -> usize
    ensures { result ≤ length area.new }
{
    let mut path = [0u8; 4096];
    match rt.arg(1, &mut path) {
        Ok(size) => match std::str::from_utf8(&path[..size]) {
            Ok(name) => read_file(rt, name, area),
            Err(_) => unread(
                rt,
                "event file",
                "Invalid or incomplete multibyte or wide character",
            ),
        },
        Err(FillError::TooLong) => unread(rt, "event file", "File name too long"),
        Err(FillError::NotPresent) => bytes_of(&mut rt.reader(), area),
    }
}

fn write_text(rt: &impl Print, file: &[u8]) -> io::Result<()> {
    let mut out = [0u8; 118784];
    match transcript::text::session_text(file, &mut out) {
        Some(size) => rt.write_all(&out[..size]),
        None => Ok(()),
    }
}

// One byte more than the longest file is read, so that a longer one is known.
fn main(rt: HostRuntime) -> io::Result<()> {
    let mut file = [0u8; 32769];
    let size = read(&rt, &mut file);
    write_text(&rt, &file[..size])
}
