// A file as a whole: all of it is read, or it is told why not; and it is written whole or not at all.
// A name that is no UTF-8 is the name of no file that can be opened.
ghost use Rattle.std.specs.Prelude.{IfSome, ◌≤◌, length};

use crate::reads::read_full;
use std::fs::OpenFile;
use std::io::{ErrorKind, Read, Write};
use std::rt::Files;
use std::{fs, io};

// The longest name of a file, with what stands behind it while the file is written.
const LONGEST_NAME: usize = 2048;

// What stands behind the name of a file while it is written.
const BESIDE: &[u8] = b".new";

// Why no bytes of a file are taken: it could not be opened or read, or had more than fit.
#[derive(Clone, Copy)]
pub enum ReadError {
    Unopened,
    Unread,
    Long,
}

// Why a file is as it was before.
#[derive(Clone, Copy)]
pub enum WriteError {
    Unopened,
    Unwritten,
}

// Reads a file to the start of `bytes`, of which one stays free, and answers how many bytes came.
pub fn read_file(files: &impl Files, name: &[u8], bytes: &mut [u8]) -> Result<usize, ReadError> {
    let path = str::from_utf8(name).map_err(|_| ReadError::Unopened)?;
    let mut file = fs::open(files, path).map_err(|_| ReadError::Unopened)?;
    let n = read_full(&mut file, bytes).map_err(|_| ReadError::Unread)?;
    // a read that fails after the last one tells a file that cannot be read from one that has ended
    let mut next = [0u8; 1];
    file.read(&mut next).map_err(|_| ReadError::Unread)?;
    if n < bytes.len() {
        Ok(n)
    } else {
        Err(ReadError::Long)
    }
}

// The bytes are written beside the file and take its place once they are whole: what stands there is not
// lost to a full disk.
pub fn write_file(files: &impl Files, name: &[u8], bytes: &[u8]) -> Result<(), WriteError> {
    let mut path = [0u8; LONGEST_NAME];
    let len = put_beside(name, &mut path).ok_or(WriteError::Unopened)?;
    written_by(files, &path[..len], name, bytes)
}

// The name with `.new` behind it, and how long that is, where it has room.
fn put_beside(name: &[u8], path: &mut [u8]) -> Option<usize>
    ensures { IfSome result (λ len. len ≤ length path.new) }
{
    let (front, behind) = path.split_at_mut_checked(name.len())?;
    let (beside, _) = behind.split_at_mut_checked(BESIDE.len())?;
    front.copy_from_slice(name);
    beside.copy_from_slice(BESIDE);
    Some(name.len() + BESIDE.len())
}

fn written_by(
    files: &impl Files,
    beside: &[u8],
    name: &[u8],
    bytes: &[u8],
) -> Result<(), WriteError> {
    let beside = str::from_utf8(beside).map_err(|_| WriteError::Unopened)?;
    let name = str::from_utf8(name).map_err(|_| WriteError::Unopened)?;
    let file = fs::create(files, beside).map_err(|_| WriteError::Unopened)?;
    if write_whole(file, bytes).is_ok() && fs::rename(files, beside, name).is_ok() {
        return Ok(());
    }
    let _ = fs::remove_file(files, beside);
    Err(WriteError::Unwritten)
}

// A file is closed without a word where it is let go: what a close would tell, that bytes did not get to the
// disk, is asked for before. What is no file on a disk has none to ask for.
fn write_whole<F: Write + OpenFile + Drop>(mut file: F, bytes: &[u8]) -> io::Result<()> {
    file.write_all(bytes)?;
    match file.sync_all() {
        Err(e) if e.kind() != ErrorKind::InvalidInput => Err(e),
        _ => Ok(()),
    }
}
