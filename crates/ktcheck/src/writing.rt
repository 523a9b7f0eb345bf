// Writing a file of the current folder so that a power cut leaves the old one or the new one,
// whole.
use std::fs::OpenFile;
use std::io::{Cursor, Error, Write};
use std::rt::Files;
use std::{fs, str};

// A failure, of a file or of standard output, of which standard error was told.
#[derive(Clone, Copy)]
pub(crate) struct Told {}

// Says on standard error what failed and why, as the system puts it, without the error's number.
fn tell(rt: &impl Eprint, what: &str, error: Error) -> Told {
    // A buffer, ended by a zero byte: there is no heap.
    let mut text = [0u8; 256];
    let _ = write!(Cursor::new(&mut text[..]), "{error}\0");
    let reason = str::from_utf8(&text).unwrap_or("");
    let reason = before(before(reason, "\0"), " (os error ");
    let _ = eprintln!(rt; "{what}: {reason}");
    Told {}
}

// Writes a file under another name and, once it is on the disk, gives it its own; one that cannot
// have it is removed.
pub(crate) fn write_file(
    rt: &(impl Files + Eprint),
    name: &str,
    part: &str,
    bytes: &[u8],
) -> Result<(), Told> {
    write_part(rt, part, bytes)?;
    let moved = fs::rename(rt, part, name).map_err(|error| tell(rt, name, error));
    if moved.is_err() {
        let _ = fs::remove_file(rt, part);
    }
    moved?;
    sync_folder(rt)
}

// Writes a file under that other name; what is not whole is removed.
fn write_part(rt: &(impl Files + Eprint), part: &str, bytes: &[u8]) -> Result<(), Told> {
    let file = fs::create(rt, part).map_err(|error| tell(rt, part, error))?;
    let put = put_on_disk(rt, file, part, bytes);
    if put.is_err() {
        let _ = fs::remove_file(rt, part);
    }
    put
}

// Writes an open file, waits until it is on the disk, and closes it. A failure is told of before the
// file is closed.
fn put_on_disk<F: Write + OpenFile + Drop>(
    rt: &impl Eprint,
    mut file: F,
    part: &str,
    bytes: &[u8],
) -> Result<(), Told> {
    file.write_all(bytes)
        .map_err(|error| tell(rt, part, error))?;
    file.sync_all().map_err(|error| tell(rt, part, error))
}

// Waits until the folder's names are on the disk.
fn sync_folder(rt: &(impl Files + Eprint)) -> Result<(), Told> {
    let folder = fs::open(rt, ".").map_err(|error| tell(rt, ".", error))?;
    folder.sync_all().map_err(|error| tell(rt, ".", error))
}

// Prints the line.
pub(crate) fn print(rt: &(impl Print + Eprint), line: &[u8]) -> Result<(), Told> {
    rt.write_all(line)
        .map_err(|error| tell(rt, "standard output", error))
}

// What stands before a text's first such part; all of it where it has none.
fn before<'a>(text: &'a str, part: &str) -> &'a str {
    text.split_once(part).map_or(text, |(front, _)| front)
}
