// What is installed beside the program.
use std::rt::Files;
use std::{env, fs, io};

/// The commit that the program was built from, as `make install` wrote it.
pub fn commit<R: Files + AllocGlobal>(rt: &R) -> io::Result<String> {
    let mut place = env::current_exe(rt)?;
    place.pop();
    place.pop();
    place.push("share/aegis/commit")?;
    fs::read_to_string(rt, place)
}
