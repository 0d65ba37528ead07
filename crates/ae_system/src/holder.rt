// Who holds a lock, as the system lists locks and processes, for who waits for it. Where the system shows none nothing is said.
use crate::places::Node;
use ae_base::limits::LAST_MOMENT;
use ae_list::shown_time;
use std::alloc::Global;
use std::fs::File;
use std::io::{ErrorKind, Read};
use std::os::unix::fs::MetadataExt;
use std::rt::Files;
use std::{fs, io};

// So many bytes of a text of another process are shown.
const MOST_SHOWN: usize = 80;

// So many are read of what the system shows.
const MOST_READ: u64 = 1 << 20;

// So often a second the system counts when a process began.
const TICKS: u64 = 100;

// Where that count stands among the words after the name of the process's program.
const PLACE_OF_BEGIN: usize = 19;

// What the system shows at a place.
fn read(files: &impl Files<File = File>, alloc: Global, place: &str) -> io::Result<Vec<u8>> {
    let mut bytes = Vec::new(alloc);
    File::open(files, place)?
        .take(MOST_READ)
        .read_to_end(&mut bytes)?;
    Ok(bytes)
}

// The same, as a text.
fn read_text(files: &impl Files<File = File>, alloc: Global, place: &str) -> io::Result<String> {
    match String::from_utf8(read(files, alloc, place)?) {
        Ok(text) => Ok(text),
        Err(_) => Err(nothing()),
    }
}

// Why nothing is said.
fn nothing() -> io::Error {
    io::Error::from(ErrorKind::NotFound)
}

// The process that a line of the system's locks names, where it is of this file.
fn process_in<'t>(line: &'t str, inode: &str) -> Option<&'t str> {
    let mut words = line.split_whitespace();
    if words.nth(1)? != "FLOCK" {
        return None;
    }
    let process = words.nth(2)?;
    let (_, number) = words.next()?.rsplit_once(':')?;
    if number == inode { Some(process) } else { None }
}

// A byte as it may be shown on a terminal.
fn shown(byte: u8) -> u8 {
    match byte {
        0 => b' ',
        b' '..=b'~' => byte,
        _ => b'?',
    }
}

// The words of a process's command.
fn command_of(files: &impl Files<File = File>, alloc: Global, process: &str) -> io::Result<String> {
    let words = read(
        files,
        alloc,
        format!(in alloc; "/proc/{process}/cmdline")?.as_str(),
    )?;
    let mut text = Vec::new(alloc);
    for byte in words.as_slice().iter().take(MOST_SHOWN) {
        text.push(shown(*byte))?;
    }
    match String::from_utf8(text) {
        Ok(text) => Ok(text),
        Err(_) => Err(nothing()),
    }
}

// The name of the user whose a process is, or his number.
fn user_of(files: &impl Files<File = File>, alloc: Global, process: &str) -> io::Result<String> {
    let number = fs::metadata(files, format!(in alloc; "/proc/{process}")?)?.uid();
    let number = format!(in alloc; "{number}")?;
    let users = read_text(files, alloc, "/etc/passwd")?;
    for line in users.lines() {
        let mut fields = line.split(':');
        if let (Some(name), Some(known)) = (fields.next(), fields.nth(1)) {
            if known == number.as_str() {
                return Ok(String::from_str(alloc, name)?);
            }
        }
    }
    Ok(number)
}

// When the system was started, in seconds since 1970.
fn start_of_system(files: &impl Files<File = File>, alloc: Global) -> io::Result<u64> {
    let known = read_text(files, alloc, "/proc/stat")?;
    for line in known.lines() {
        if let Some(seconds) = line.strip_prefix("btime ") {
            return seconds.parse::<u64>().map_err(|_| nothing());
        }
    }
    Err(nothing())
}

// When a process began.
fn begin_of(files: &impl Files<File = File>, alloc: Global, process: &str) -> io::Result<Vec<u8>> {
    let known = read_text(
        files,
        alloc,
        format!(in alloc; "/proc/{process}/stat")?.as_str(),
    )?;
    let count = match known.rsplit_once(") ") {
        Some((_, words)) => words.split(' ').nth(PLACE_OF_BEGIN),
        None => None,
    };
    let Some(Ok(count)) = count.map(|count| count.parse::<u64>()) else {
        return Err(nothing());
    };
    let when = start_of_system(files, alloc)?.saturating_add(count / TICKS);
    Ok(shown_time(alloc, when.min(LAST_MOMENT))?)
}

// The process that holds a lock of this file.
fn process_of(files: &impl Files<File = File>, alloc: Global, node: Node) -> io::Result<String> {
    let inode = node.inode;
    let inode = format!(in alloc; "{inode}")?;
    let locks = read_text(files, alloc, "/proc/locks")?;
    match locks
        .lines()
        .find_map(|line| process_in(line, inode.as_str()))
    {
        Some(process) => Ok(String::from_str(alloc, process)?),
        None => Err(nothing()),
    }
}

/// Who holds a lock of this file: the user, since when, and by which command.
pub fn holder(files: &impl Files<File = File>, alloc: Global, node: Node) -> io::Result<String> {
    let process = process_of(files, alloc, node)?;
    let process = process.as_str();
    let user = user_of(files, alloc, process)?;
    let began = begin_of(files, alloc, process)?;
    let command = command_of(files, alloc, process)?;
    let Ok(began) = std::str::from_utf8(began.as_slice()) else {
        return Err(nothing());
    };
    Ok(format!(in alloc; "{user}, since {began}: {command}")?)
}
