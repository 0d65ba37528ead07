// What is asked, who asks, and when.
ghost use Rattle.std.specs.Prelude.{◌≤◌};
ghost use Rattle.ae_base.specs.Limits.{last_moment};

use crate::lock::Patience;
use crate::places::Moment;
use ae_base::limits::LAST_MOMENT;
use std::alloc::AllocError;
use std::env::VarError;
use std::rt::{Clock, Env};
use std::time::{Duration, SystemTime, UNIX_EPOCH};
use std::{env, io};

// So many seconds the lock is waited for where nothing else is said.
const SECONDS: u32 = 5;

// So many are waited at most.
const MOST_SECONDS: u32 = 86_400;

/// The words after the program's name. It fails where one isn't UTF-8.
pub fn words<R: Env + AllocGlobal>(rt: &R) -> io::Result<Vec<String>> {
    let words = env::args(rt)?.skip(1).collect(rt.alloc())?;
    Ok(words)
}

/// The variable AEGIS_USER, else LOGNAME, else `nobody`. What isn't UTF-8 comes as an empty text, which names no user.
pub fn user<R: Env + AllocGlobal>(rt: &R) -> Result<String, AllocError> {
    for name in ["AEGIS_USER", "LOGNAME"] {
        match env::var(rt, name) {
            Ok(user) => return Ok(user),
            Err(VarError::NotPresent) => {}
            Err(VarError::NotUnicode) => return Ok(String::new(rt.alloc())),
            Err(VarError::OutOfMemory) => return Err(AllocError),
        }
    }
    String::from_str(rt.alloc(), "nobody")
}

/// The clock in whole seconds since the start of 1970, and 0 where it shows an earlier moment, or one after 2099.
pub fn moment(rt: &impl Clock) -> u64
    ensures { result ≤ last_moment }
{
    let Ok(now) = SystemTime::now(rt) else {
        return 0;
    };
    match now.duration_since(UNIX_EPOCH) {
        Ok(past) if past.as_secs() <= LAST_MOMENT => past.as_secs(),
        _ => 0,
    }
}

/// The clock with its parts of a second; the start of 1970 where it shows an earlier moment.
pub fn now(rt: &impl Clock) -> Moment {
    let past = match SystemTime::now(rt) {
        Ok(now) => now.duration_since(UNIX_EPOCH).unwrap_or(Duration::ZERO),
        Err(_) => Duration::ZERO,
    };
    Moment {
        seconds: i64::try_from(past.as_secs()).unwrap_or(0),
        nanoseconds: i64::from(past.subsec_nanos()),
    }
}

/// How long the lock is waited for: so many seconds as the variable AEGIS_WAIT says, at most a day, and 5 where it says none. Who
/// sees standard error on a terminal is told.
pub fn patience<R: Env + AllocGlobal>(rt: &R, says: bool) -> Patience {
    let seconds = match env::var(rt, "AEGIS_WAIT") {
        Ok(text) => text.parse::<u32>().unwrap_or(SECONDS),
        Err(_) => SECONDS,
    };
    Patience::new(seconds.min(MOST_SECONDS), says)
}

/// Whether a script is to wait for no run of others: the variable AEGIS_RUNS is `none`.
pub fn waits_for_no_run<R: Env + AllocGlobal>(rt: &R) -> bool {
    matches!(env::var(rt, "AEGIS_RUNS"), Ok(text) if text.as_str() == "none")
}

/// Whether the causes of faults are to be told: the variable AEGIS_TRACE is set.
pub fn is_traced<R: Env + AllocGlobal>(rt: &R) -> bool {
    !matches!(env::var(rt, "AEGIS_TRACE"), Err(VarError::NotPresent))
}
