// The faults of a device: how many there were, and why the last call failed, for who asks to see it.
ghost use Rattle.std.specs.Prelude.{⊤};
ghost use Rattle.ae_outside.specs.Causes.{Counted};

use ae_outside::Failed;
use std::{fmt, io};

/// The last call of a device that failed, what it was asked of, and what the system said.
#[derive(Debug, Drop)]
pub struct Trouble {
    call: &'static str,
    place: Option<String>,
    error: io::Error,
}

impl fmt::Display for Trouble {
    fn fmt<W: fmt::Write>(&self, f: &mut fmt::Formatter<W>) -> fmt::Result {
        let call = self.call;
        let error = &self.error;
        match &self.place {
            Some(place) => write!(f, "{call} {place}: {error}"),
            None => write!(f, "{call}: {error}"),
        }
    }
}

/// How often a device failed, and the last call of it that did.
#[derive(Drop)]
pub struct Faults {
    pub count: u64,
    last: Option<Trouble>,
}

impl Faults {
    /// It hasn't failed yet.
    pub fn none() -> Faults {
        Faults {
            count: 0,
            last: None,
        }
    }

    /// The last call that failed.
    pub fn last(&self) -> Option<&Trouble> {
        self.last.as_ref()
    }

    /// The call of that name failed at that place, if it has one.
    pub fn add(&mut self, call: &'static str, place: Option<String>, error: io::Error) -> Failed
        ensures { Counted self.old.count self.new.count ⊤ }
    {
        self.count = self.count.saturating_add(1);
        self.last = Some(Trouble { call, place, error });
        Failed
    }
}
