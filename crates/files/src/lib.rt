// Files that a program's arguments name: read into lent space, locked, replaced whole. A failure is told once,
// in words, on standard error, and marks the flag that the program lends; from then on nothing is read or
// replaced, and the space stays (crate streams).
#![tactic(auto)]

ghost use Rattle.std.specs.Prelude.{◌≡◌, true, cond, ◌≤◌, eqb};
ghost use Rattle.io.specs.Counts.{IsPrefixLen};
ghost use Rattle.std.specs.Io.{ReadsAtMost};
ghost use Rattle.files.specs.Folder.{folder_size};

use std::env::{Env, FillError};
use std::fs::{File, OpenOptions};
use std::io::{Error, ErrorKind, Result, Write};
use std::{fs, str, thread};
use text::put_bytes;

// What failed and the name of the file, as far as the text has room.
fn put_label(text: &mut [u8], what: &[u8], name: &[u8]) -> usize
    ensures { IsPrefixLen result text.new }
{
    let n = put_bytes(text, 0, what);
    let n = put_bytes(text, n, name);
    n.min(text.len())
}

fn fail(rt: HostRuntime, what: &[u8], name: &[u8], error: &Error) {
    let mut text = [0u8; 4200];
    let n = put_label(&mut text, what, name);
    streams::fail(rt, &text[..n], error);
}

// What was got, or what failed is told.
fn or_told<T>(rt: HostRuntime, what: &[u8], name: &[u8], got: Result<T>) -> Option<T> {
    match got {
        Ok(value) => Some(value),
        Err(error) => {
            fail(rt, what, name, &error);
            None
        }
    }
}

// A name as text: another names no file here.
fn text_of(name: &[u8]) -> Result<&str> {
    str::from_utf8(name).map_err(|_| Error::from(ErrorKind::InvalidFilename))
}

fn open_read(rt: HostRuntime, name: &[u8]) -> Result<File> {
    File::open(&rt, text_of(name)?)
}

// Reads an open file to its end, or until the space is full, and closes it.
fn read_opened(
    rt: HostRuntime,
    failed: &mut bool,
    name: &[u8],
    space: &mut [u8],
    file: File,
) -> usize
    ensures prefix_len { IsPrefixLen result space.new }
    ensures failed_after { failed.old ≡ true → (failed.new ≡ true) × (result ≡ 0) × (space.new ≡ space.old) }
{
    let mut file = file;
    let mut text = [0u8; 4200];
    let n = put_label(&mut text, b"cannot read ", name);
    streams::read_all_from(rt, failed, space, &mut file, &text[..n])
}

// Reads the file of this name to its end, or until the space is full. Where `absent` is some number, one
// that is not there has as many of the first bytes of the space as they are.
fn read_named(
    rt: HostRuntime,
    failed: &mut bool,
    name: &[u8],
    space: &mut [u8],
    absent: Option<usize>,
) -> usize
    ensures prefix_len { IsPrefixLen result space.new }
    ensures failed_after { failed.old ≡ true → (failed.new ≡ true) × (result ≡ 0) × (space.new ≡ space.old) }
{
    if *failed {
        return 0;
    }
    match (open_read(rt, name), absent) {
        (Ok(file), _) => read_opened(rt, failed, name, space, file),
        (Err(error), Some(size)) if error.kind() == ErrorKind::NotFound => at_most(size, space),
        (Err(error), _) => {
            fail(rt, b"cannot open ", name, &error);
            *failed = true;
            0
        }
    }
}

// Reads the file of this name to its end, or until the space is full.
pub fn read_file(rt: HostRuntime, failed: &mut bool, name: &[u8], space: &mut [u8]) -> usize
    ensures prefix_len { IsPrefixLen result space.new }
    ensures failed_after { failed.old ≡ true → (failed.new ≡ true) × (result ≡ 0) × (space.new ≡ space.old) }
{
    read_named(rt, failed, name, space, None)
}

fn at_most(n: usize, space: &[u8]) -> usize
    ensures { IsPrefixLen result space.now }
{
    n.min(space.len())
}

// The same, but a file that is not there has the first bytes of the space as it is, so many as `absent` says.
pub fn read_file_or(
    rt: HostRuntime,
    failed: &mut bool,
    name: &[u8],
    space: &mut [u8],
    absent: usize,
) -> usize
    ensures prefix_len { IsPrefixLen result space.new }
    ensures failed_after { failed.old ≡ true → (failed.new ≡ true) × (result ≡ 0) × (space.new ≡ space.old) }
{
    read_named(rt, failed, name, space, Some(absent))
}

// ---- The program's arguments.

// How many there are, the program's name among them.
pub fn argument_count(rt: HostRuntime) -> usize {
    let mut byte = [0u8; 1];
    for i in 0..usize::MAX {
        if let Err(FillError::NotPresent) = rt.arg(i, &mut byte) {
            return i;
        }
    }
    usize::MAX
}

// Puts argument i at the front of the room: how many bytes it has. One that is not there is none that could
// be asked for, and one that has no room is too long for a file's name.
pub fn argument(rt: HostRuntime, i: usize, room: &mut [u8]) -> Result<usize>
    ensures { ReadsAtMost result room.new }
{
    match rt.arg(i, room) {
        Ok(size) => Ok(at_most(size, room)),
        Err(FillError::NotPresent) => Err(Error::from_raw_os_error(EINVAL)),
        Err(FillError::TooLong) => Err(Error::from_raw_os_error(ENAMETOOLONG)),
    }
}

// The system's numbers of these errors.
const EINVAL: i32 = 22;

const ENAMETOOLONG: i32 = 36;

// Reads the file that argument i names.
pub fn read_argument(rt: HostRuntime, failed: &mut bool, i: usize, space: &mut [u8]) -> usize
    ensures prefix_len { IsPrefixLen result space.new }
    ensures failed_after { failed.old ≡ true → (failed.new ≡ true) × (result ≡ 0) × (space.new ≡ space.old) }
{
    let mut name = [0u8; 4096];
    match argument(rt, i, &mut name) {
        Ok(size) => read_file(rt, failed, &name[..size], space),
        Err(error) => {
            streams::fail(rt, b"cannot read the name of a file", &error);
            *failed = true;
            0
        }
    }
}

// ---- A file replaced whole.

// Makes a file for writing; it must not be there.
fn create(rt: HostRuntime, name: &[u8]) -> Result<File> {
    OpenOptions::new()
        .write(true)
        .create_new(true)
        .open(&rt, text_of(name)?)
}

// Writes all bytes to a file, and waits until its device has them.
fn write_out(file: File, bytes: &[u8]) -> Result<()> {
    let mut file = file;
    file.write_all(bytes)?;
    file.sync_all()
}

// Writes a new file, and waits until its device has it.
fn write_new(rt: HostRuntime, name: &[u8], bytes: &[u8]) -> Option<()> {
    let file = or_told(rt, b"cannot make ", name, create(rt, name))?;
    or_told(rt, b"cannot write ", name, write_out(file, bytes))
}

fn folder_after(size: usize, next: usize, b: u8) -> usize
    requires { size ≤ next }
    ensures { (result ≡ cond (eqb b 47) next size) × (result ≤ next) }
{
    if b == b'/' {
        return next;
    }
    size
}

// How many bytes of a name are its folder's, the last slash among them.
pub fn folder_size(name: &[u8]) -> usize
    ensures { (result ≡ folder_size name.now) × IsPrefixLen result name.now }
{
    let mut size = 0;
    for (i, b) in name.iter().enumerate() {
        size = folder_after(size, i + 1, *b);
    }
    size
}

// Waits until the device has a folder's names. A folder that cannot be waited for is none of ours.
fn sync_folder(rt: HostRuntime, folder: &[u8]) -> Option<()> {
    let opened = or_told(rt, b"cannot open ", folder, open_read(rt, folder))?;
    or_told(rt, b"cannot write ", folder, opened.sync_all())
}

fn sync_name(rt: HostRuntime, name: &[u8]) -> Option<()> {
    let n = folder_size(name);
    if n == 0 {
        return sync_folder(rt, b".");
    }
    sync_folder(rt, &name[..n])
}

fn unlink(rt: HostRuntime, name: &[u8]) -> Result<()> {
    fs::remove_file(&rt, text_of(name)?)
}

fn rename(rt: HostRuntime, from: &[u8], to: &[u8]) -> Result<()> {
    fs::rename(&rt, text_of(from)?, text_of(to)?)
}

// Puts a new file in the place of the file of this name: written beside it (NAME.new), then renamed, each
// time waiting for the device. So whatever stops it, the name has the old bytes or the new ones, all of
// them. Two at once must not: they lock the file first.
pub fn replace_file(rt: HostRuntime, failed: &mut bool, name: &[u8], bytes: &[u8])
    ensures { failed.old ≡ true → failed.new ≡ true }
{
    if *failed {
        return;
    }
    let mut beside = [0u8; 4200];
    let n = put_label(&mut beside, name, b".new");
    // what one that was stopped left behind
    let _ = unlink(rt, &beside[..n]);
    if write_new(rt, &beside[..n], bytes).is_none() {
        let _ = unlink(rt, &beside[..n]);
        *failed = true;
        return;
    }
    if or_told(rt, b"cannot replace ", name, rename(rt, &beside[..n], name)).is_none() {
        let _ = unlink(rt, &beside[..n]);
        *failed = true;
        return;
    }
    if sync_name(rt, name).is_none() {
        *failed = true;
    }
}

// ---- One at a time.

// Makes a file that nobody has, waiting a second or some while somebody has it.
fn make_alone(rt: HostRuntime, name: &[u8]) -> Result<()> {
    for _ in 0..400000u32 {
        match create(rt, name) {
            Ok(_) => return Ok(()),
            Err(error) => {
                if error.kind() != ErrorKind::AlreadyExists {
                    return Err(error);
                }
            }
        }
        thread::yield_now();
    }
    Err(Error::from(ErrorKind::AlreadyExists))
}

fn tell_locked(rt: HostRuntime, lock: &[u8]) {
    let mut text = [0u8; 4400];
    let n = put_label(
        &mut text,
        lock,
        b" is there: another is at work on this file, or one was stopped at work; where none is, remove it\n",
    );
    streams::tell(rt, &text[..n]);
}

// Locks the file of this name, by making NAME.lock.
pub fn lock_file(rt: HostRuntime, failed: &mut bool, name: &[u8])
    ensures { failed.old ≡ true → failed.new ≡ true }
{
    if *failed {
        return;
    }
    let mut lock = [0u8; 4200];
    let n = put_label(&mut lock, name, b".lock");
    if let Err(error) = make_alone(rt, &lock[..n]) {
        *failed = true;
        if error.kind() == ErrorKind::AlreadyExists {
            tell_locked(rt, &lock[..n]);
            return;
        }
        fail(rt, b"cannot make ", &lock[..n], &error);
    }
}

// Removes the lock. One that locked a file does so whether or not something failed since.
pub fn unlock_file(rt: HostRuntime, failed: &mut bool, name: &[u8])
    ensures { failed.old ≡ true → failed.new ≡ true }
{
    let mut lock = [0u8; 4200];
    let n = put_label(&mut lock, name, b".lock");
    if or_told(rt, b"cannot remove ", &lock[..n], unlink(rt, &lock[..n])).is_none() {
        *failed = true;
    }
}
