// What `walk` prints for a file. What is printed is worked out by `loaded_line`, on slices; the rest only reads and writes.
// A file that cannot be opened or read is `unreadable`, and standard error says why. Left to a reader, since no contract speaks of what the
// system reads or writes: that the bytes in the room are those of the file (`streams::read_some`), and that the line reaches the output.

#![tactic(auto)]

ghost use Rattle.std.specs.Prelude.{◌≡◌, ◌-◌, ◌≤◌, length, take, IfOk};
ghost use Rattle.tables.specs.Inner.Put.{Put};
ghost use Rattle.walk_file.specs.Loaded.{room_length, loaded_within, loaded_printed};
ghost use Rattle.walk_file.specs.Walk.{walk_printed};

use std::io::{ErrorKind, Read, Write};
use std::rt::{Clock, Files};
use std::{fs, io};
use thiserror::Error;

const LONGEST_VOLUME: usize = 65536; // 'the volume .. of at most 65,536 bytes'

const ROOM: usize = 65537; // one byte more, so that a longer file is seen

const LINE_ROOM: usize = 64; // the longest line has 50 bytes

// Why a file cannot be loaded.
#[derive(Clone, Copy, Debug, Error)]
enum LoadError {
    #[error("open: {0}")]
    Open(io::Error),
    #[error("read: {0}")]
    Read(io::Error),
}

// One read, behind the first `n` bytes, which stay.
fn load_more<C: Clock, R: Read>(
    clock: &C,
    file: &mut R,
    room: &mut [u8],
    n: usize,
) -> io::Result<usize>
    requires { n ≤ length room.old }
    ensures within { IfOk result (λ more. more ≤ length room.old - n) }
    ensures room_unchanged { take n room.new ≡ take n room.old }
{
    streams::read_some(clock, file, &mut room[n..])
}

// Reads to the end of the file, and answers how many bytes it has, or none where it fills the room, so that it is too long.
fn load<C: Clock, R: Read>(
    clock: &C,
    file: &mut R,
    room: &mut [u8],
) -> Result<Option<usize>, LoadError>
    requires { length room.old ≡ room_length }
    ensures { loaded_within result }
{
    let mut n: usize = 0;
    // A read says how many bytes came, and none at the end.
    while n < room.len() {
        match load_more(clock, file, room, n).map_err(LoadError::Read)? {
            0 => return Ok(Some(n)),
            more => n += more,
        }
    }
    Ok(None)
}

// Opens the file of that name for reading. The system's names are opened by text, so that bytes that are no UTF-8 name no file.
fn open<H: Files>(rt: &H, name: &[u8]) -> io::Result<H::File> {
    let text = str::from_utf8(name).map_err(|_| io::Error::from(ErrorKind::InvalidInput))?;
    fs::open(rt, text)
}

fn load_file<H: Files + Clock>(
    rt: &H,
    name: &[u8],
    room: &mut [u8],
) -> Result<Option<usize>, LoadError>
    requires { length room.old ≡ room_length }
    ensures { loaded_within result }
{
    let mut file = open(rt, name).map_err(LoadError::Open)?;
    load(rt, &mut file, room)
}

// What is printed for the bytes of a file.
fn walk_line(volume: &[u8], out: &mut [u8]) -> usize
    requires { 64 ≤ length out.old }
    ensures { Put out.old 0 (walk_printed volume.now) result out.new }
{
    if LONGEST_VOLUME < volume.len() {
        return printing::put_unreadable(out, 0);
    }
    match volume::walk_volume(volume, 0) {
        Ok(count) => printing::put_count(out, 0, count),
        Err(stopped) => {
            let number = tables::number(stopped.question);
            printing::put_refused_behind(out, 0, number, stopped.passed)
        }
    }
}

// What is printed for a file, by how it was loaded.
#[tactic(auto, unfolding(crate::specs::Loaded::loaded_printed))]
fn loaded_line(loaded: Result<Option<usize>, LoadError>, room: &[u8], out: &mut [u8]) -> usize
    requires { loaded_within loaded × (length room.now ≡ room_length) × (64 ≤ length out.old) }
    ensures { Put out.old 0 (loaded_printed loaded room.now) result out.new }
{
    match loaded {
        Ok(Some(n)) => walk_line(&room[..n], out),
        Ok(None) | Err(_) => printing::put_unreadable(out, 0),
    }
}

// Prints the walk over the file of that name.
pub fn print_walk<H: Files + Clock + Eprint, W: Write>(rt: &H, output: &mut W, name: &[u8]) {
    let mut room = [0; ROOM];
    let loaded = load_file(rt, name, &mut room);
    if let Err(error) = &loaded {
        streams::complain(rt, "walk", error);
    }
    let mut out = [0; LINE_ROOM];
    let n = loaded_line(loaded, &room, &mut out);
    if let Err(error) = streams::write_whole(rt, output, &out[..n]) {
        streams::complain(rt, "walk: standard output", &error);
    }
}
