// Files, read and written whole.
ghost use Rattle.std.specs.Prelude.{◌≡◌, false, ◌≤◌, ◌<◌, IfOk, IfSome, length};
ghost use Rattle.files.specs.Disk.{name_bytes, ReadInto, CellsRead, whole_cells};

use print::{Printable, show};
use std::fmt::InlineText;
use std::fs::{OpenFile, OpenOptions, Permissions};
use std::io::{Error, ErrorKind, Read, Write};
use std::os::unix::fs::{OpenOptionsExt, PermissionsExt};
use std::rt::Files;
use std::{fs, io, str};
use texts::CellsError;
use texts::grids::grid;

// Bytes of the buffer that a file is read into: more than any puzzle or record has.
pub const FILE_BYTES: usize = 8192;
// Bytes of the memory that a name is held in: more than any name has that the system takes.
pub const PATH_MAX: usize = 4096;
// The most bytes of a name under which something is saved.
const NAME_BYTES: usize = 4000;
// How many numbers are tried. One is taken where a save was cut off before the new file got its name.
const NUMBERS: usize = 1000000;

// Why a call failed, in plain words.
fn reason(error: &Error) -> &'static str {
    match error.kind() {
        ErrorKind::NotFound => "there is no such file or folder",
        ErrorKind::PermissionDenied => "it is not allowed",
        ErrorKind::IsADirectory => "it is a folder",
        ErrorKind::NotADirectory => "a part of its path is no folder",
        ErrorKind::StorageFull => "the disk is full",
        ErrorKind::ReadOnlyFilesystem => "the disk is read-only",
        ErrorKind::InvalidInput => "that is no name of a plain file",
        ErrorKind::InvalidFilename => "the name is too long",
        ErrorKind::InvalidData => "the name is not UTF-8",
        _ => "the system refuses",
    }
}

// A file that could not be read or written, and why.
fn failed(what: &'static str, path: &[u8], why: &'static str) {
    show(format_args!("cannot {what} {}: {why}\n", Printable(path)));
}

// A name as the system takes it: text in UTF-8, whatever bytes were given.
fn name_of(path: &[u8]) -> io::Result<&str> {
    str::from_utf8(path).map_err(|_| Error::from(ErrorKind::InvalidData))
}

// Why a file cannot be read: of a name that is no text there is none that could be.
fn missing(error: Error) -> Error {
    match error.kind() {
        ErrorKind::InvalidData => Error::from(ErrorKind::NotFound),
        _ => error,
    }
}

// Opens the file of a name.
fn opened<R: Files>(rt: &R, how: &OpenOptions, path: &[u8]) -> io::Result<R::File> {
    how.open(rt, name_of(path)?)
}

// Reads to the end of the file, or until the buffer is full; answers how many bytes there are. A turn brings as many as
// the system has, so this is no `for`.
fn read_all<F: Read>(file: &mut F, buffer: &mut [u8; FILE_BYTES]) -> io::Result<usize>
    ensures { IfOk result (λ n. n ≤ 8192) }
{
    let mut at = 0;
    while at < FILE_BYTES {
        let got = file.read(&mut buffer[at..])?;
        if got == 0 {
            break;
        }
        at += got;
    }
    Ok(at)
}

// The bytes of a file, as many as the buffer takes.
fn bytes_of<'a, R: Files>(
    rt: &R,
    path: &[u8],
    buffer: &'a mut [u8; FILE_BYTES],
) -> io::Result<&'a [u8]> {
    let mut how = OpenOptions::new();
    how.read(true);
    let mut file = opened(rt, &how, path).map_err(missing)?;
    let length = read_all(&mut file, buffer)?;
    Ok(&buffer[..length])
}

// Reads a file whole. One that fills the buffer is longer than any puzzle or record.
pub fn read<'a, R: Files>(rt: &R, path: &[u8], buffer: &'a mut [u8; FILE_BYTES]) -> Option<&'a [u8]>
    ensures { IfSome result (λ bytes. ReadInto bytes.now) }
{
    match bytes_of(rt, path, buffer) {
        Ok(bytes) if bytes.len() < FILE_BYTES => Some(bytes),
        Ok(_) => {
            failed("read", path, "it is too long to be a puzzle or a record");
            None
        }
        Err(error) => {
            failed("read", path, reason(&error));
            None
        }
    }
}

// Says what is wrong with a text that is not 81 cells.
fn complain(path: &[u8], error: CellsError) {
    let path = Printable(path);
    match error {
        CellsError::Wrong { character, .. } => show(format_args!(
            "{path}: character {character} is no cell: 1 to 9, or a point or 0 for an empty one\n"
        )),
        CellsError::Many => show(format_args!("{path}: it has more than 81 cells\n")),
        CellsError::Few { count } => {
            show(format_args!("{path}: it has {count} cells, and not 81\n"));
        }
    }
}

// The cells of a text; none where it is not whole, and what is wrong with it is said.
pub fn whole_cells(path: &[u8], text: &[u8]) -> Option<[u8; 81]>
    ensures { result ≡ whole_cells text.now }
{
    match grid(text) {
        Ok(cells) => Some(cells),
        Err(error) => {
            complain(path, error);
            None
        }
    }
}

// The cells of a text file; none where it cannot be read or is not whole.
pub fn read_cells<R: Files>(rt: &R, path: &[u8]) -> Option<[u8; 81]>
    ensures { CellsRead result }
{
    let mut file = [0u8; FILE_BYTES];
    let text = read(rt, path, &mut file)?;
    whole_cells(path, text)
}

// Tries whether the name is free, or is that of a plain file that may be written; an error says why not. A device
// answers no to a sync, and is not to be replaced.
fn try_replaceable<R: Files>(rt: &R, path: &[u8]) -> io::Result<()> {
    let mut how = OpenOptions::new();
    how.read(true).write(true);
    match opened(rt, &how, path) {
        Ok(file) => file.sync_all(),
        Err(error) => match error.kind() {
            ErrorKind::NotFound => Ok(()),
            _ => Err(error),
        },
    }
}

// Writes all bytes, and waits until they have reached the disk.
fn write_through<F: Write + OpenFile>(file: &mut F, bytes: &[u8]) -> io::Result<()> {
    match file.set_permissions(Permissions::from_mode(0o644)) {
        // as other files are: a record is there to be read; where the disk keeps no modes, that is no failure
        Ok(()) | Err(_) => {}
    }
    file.write_all(bytes)?;
    file.sync_all()
}

// A new file beside the path, under a name that no other file has.
struct NewFile<F> {
    file: F,
    name: InlineText<PATH_MAX>,
}

// Makes the new file, under the first of its names that is free: the path, a full stop and a number of six figures.
fn created<R: Files>(rt: &R, path: &str) -> io::Result<NewFile<R::File>> {
    let mut how = OpenOptions::new();
    how.read(true).write(true).create_new(true).mode(0o600);
    for n in 0..NUMBERS {
        let name = InlineText::<PATH_MAX>::of(format_args!("{path}.{n:06}"));
        match how.open(rt, name.as_str()) {
            Ok(file) => return Ok(NewFile { file, name }),
            Err(error) => match error.kind() {
                ErrorKind::AlreadyExists => {}
                _ => return Err(error),
            },
        }
    }
    Err(Error::from(ErrorKind::AlreadyExists))
}

// Writes the new file and gives it the path's name.
fn replace<R: Files>(
    rt: &R,
    file: R::File,
    name: &str,
    path: &str,
    bytes: &[u8],
) -> io::Result<()> {
    let mut file = file;
    write_through(&mut file, bytes)?;
    drop(file);
    fs::rename(rt, name, path)
}

// Saves bytes under a name that is not too long: a new file has them and takes the path's place; what fails leaves no
// new file behind.
fn saved<R: Files>(rt: &R, path: &[u8], bytes: &[u8]) -> io::Result<()> {
    let path = name_of(path)?;
    let NewFile { file, name } = created(rt, path)?;
    match replace(rt, file, name.as_str(), path, bytes) {
        Ok(()) => Ok(()),
        Err(error) => match fs::remove_file(rt, name.as_str()) {
            // what is told is why the bytes were not saved
            Ok(()) | Err(_) => Err(error),
        },
    }
}

// What became of a save, in words where it failed. A bool and no error, here and in `save`: what went wrong is said by
// then, and is not to be said again.
fn told(path: &[u8], outcome: io::Result<()>) -> bool {
    match outcome {
        Ok(()) => true,
        Err(error) => {
            failed("write", path, reason(&error));
            false
        }
    }
}

// Saves bytes under a name: they are written to a new file beside it, which then takes its place. Until then an earlier
// file of that name stays whole. The disk decides what is answered, but that a name that is too long is refused.
pub fn save<R: Files>(rt: &R, path: &[u8], bytes: &[u8]) -> bool
    ensures { name_bytes < length path.now → result ≡ false }
{
    if !told(path, try_replaceable(rt, path)) {
        return false;
    }
    if path.len() > NAME_BYTES {
        show("cannot write: the name is too long\n");
        return false;
    }
    told(path, saved(rt, path, bytes))
}
