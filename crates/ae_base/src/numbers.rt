// The numbers of changes and deltas.
ghost use Rattle.std.specs.Prelude.{◌≡◌, ◌≤◌};
ghost use Rattle.ae_base.specs.Limits.{most_deltas};
ghost use Rattle.ae_base.specs.Numbers.{number_from, number_within, change_number, delta_number};

use crate::limits::MOST_DELTAS;
use crate::name_bytes::is_digit_byte;
use std::fmt;
use std::marker::Model;

fn digits(text: &[u8]) -> Option<u64>
    ensures { result ≡ number_from 0 text.now }
{
    let mut n: u64 = 0;
    for b in text {
        if !is_digit_byte(*b) {
            return None;
        }
        n = n.checked_mul(10)?.checked_add(u64::from(*b - b'0'))?;
    }
    Some(n)
}

/// The number that 1 to `most` decimal digits write, leading zeros allowed, where it is from `low` to `high`.
pub fn read_number(most: usize, low: u64, high: u64, text: &[u8]) -> Option<u64>
    ensures { result ≡ number_within most low high text.now }
{
    if text.is_empty() || most < text.len() {
        return None;
    }
    let n = digits(text)?;
    if low <= n && n <= high { Some(n) } else { None }
}

/// A change's number, 10 to 1999. Contracts see the number.
#[derive(Clone, Copy, Debug, PartialEq, Eq, PartialOrd, Ord)]
pub struct ChangeNo {
    number: u16,
}

impl Model for ChangeNo {
    ghost use Rattle.std.specs.Prelude.{ℕ, ◌≤◌};

    ghost Value = { ℕ };

    ghost view = { λ a. a.number };

    ghost invariant = { λ a. (10 ≤ a.number) × (a.number ≤ 1999) };

    ghost inverse = { λ n. record { number = n } };
}

impl ChangeNo {
    /// The change's number that this text writes in 1 to 10 decimal digits; `None` exactly where it writes none.
    pub fn read(text: &[u8]) -> Option<ChangeNo>
        ensures { result ≡ change_number text.now }
    {
        let n = read_number(10, 10, 1999, text)?;
        if 10 <= n && n <= 1999 {
            Some(ChangeNo { number: n as u16 })
        } else {
            None
        }
    }

    /// The change's number that this number is.
    pub fn of(number: u16) -> ChangeNo
        requires low { 10 ≤ number }
        requires high { number ≤ 1999 }
        ensures { result ≡ number }
    {
        ChangeNo { number }
    }

    /// The number.
    pub fn number(self) -> u16
        ensures value { result ≡ self }
        ensures low { 10 ≤ self }
        ensures high { self ≤ 1999 }
    {
        self.number
    }
}

/// A delta's number, 0 to 1990. Contracts see the number.
#[derive(Clone, Copy, Debug, PartialEq, Eq, PartialOrd, Ord)]
pub struct Delta {
    number: u16,
}

impl Model for Delta {
    ghost use Rattle.ae_base.specs.Limits.{most_deltas};
    ghost use Rattle.std.specs.Prelude.{ℕ, ◌≤◌};

    ghost Value = { ℕ };

    ghost view = { λ a. a.number };

    ghost invariant = { λ a. a.number ≤ most_deltas };

    ghost inverse = { λ n. record { number = n } };
}

impl Delta {
    /// The delta's number that this text writes in 1 to 10 decimal digits; `None` exactly where it writes none.
    pub fn read(text: &[u8]) -> Option<Delta>
        ensures { result ≡ delta_number text.now }
    {
        let n = read_number(10, 0, MOST_DELTAS as u64, text)?;
        if n <= MOST_DELTAS as u64 {
            Some(Delta { number: n as u16 })
        } else {
            None
        }
    }

    /// The delta's number that this number is.
    pub fn of(number: u16) -> Delta
        requires { number ≤ most_deltas }
        ensures { result ≡ number }
    {
        Delta { number }
    }

    /// The number.
    pub fn number(self) -> u16
        ensures value { result ≡ self }
        ensures high { self ≤ most_deltas }
    {
        self.number
    }
}

impl fmt::Display for ChangeNo {
    ghost use Rattle.std.specs.Prelude.{Some};
    ghost use Rattle.std.specs.Fmt.{decimal};

    ghost output = { λ number. Some (decimal number) };

    fn fmt<W: fmt::Write>(&self, f: &mut fmt::Formatter<W>) -> fmt::Result {
        let number = self.number();
        write!(f, "{number}")
    }
}

impl fmt::Display for Delta {
    ghost use Rattle.std.specs.Prelude.{Some};
    ghost use Rattle.std.specs.Fmt.{decimal};

    ghost output = { λ number. Some (decimal number) };

    fn fmt<W: fmt::Write>(&self, f: &mut fmt::Formatter<W>) -> fmt::Result {
        let number = self.number();
        write!(f, "{number}")
    }
}
