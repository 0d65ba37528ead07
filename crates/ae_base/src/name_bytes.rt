// The bytes of which names are made.
ghost use Rattle.std.specs.Prelude.{◌≡◌};
ghost use Rattle.ae_base.specs.Names.{is_lower, is_upper, is_digit, is_letter, is_user_byte, is_name_byte, is_path_byte};

pub(crate) fn is_lower_byte(b: u8) -> bool
    ensures { result ≡ is_lower b }
{
    b'a' <= b && b <= b'z'
}

fn is_upper_byte(b: u8) -> bool
    ensures { result ≡ is_upper b }
{
    b'A' <= b && b <= b'Z'
}

pub(crate) fn is_digit_byte(b: u8) -> bool
    ensures { result ≡ is_digit b }
{
    b'0' <= b && b <= b'9'
}

pub(crate) fn is_letter_byte(b: u8) -> bool
    ensures { result ≡ is_letter b }
{
    is_lower_byte(b) || is_upper_byte(b)
}

pub(crate) fn may_stand_in_user(b: u8) -> bool
    ensures { result ≡ is_user_byte b }
{
    is_lower_byte(b) || is_digit_byte(b) || b == b'_' || b == b'.' || b == b'-'
}

pub(crate) fn may_stand_in_name(b: u8) -> bool
    ensures { result ≡ is_name_byte b }
{
    is_letter_byte(b) || is_digit_byte(b) || b == b'.' || b == b'_' || b == b'-'
}

pub(crate) fn may_stand_in_path(b: u8) -> bool
    ensures { result ≡ is_path_byte b }
{
    may_stand_in_name(b) || b == b'+'
}
