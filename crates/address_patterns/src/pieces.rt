// Pieces of a pattern, without the runs between them, at places of an address.
ghost use Rattle.std.specs.Prelude.{◌≡◌};
ghost use Rattle.std.specs.Option.{option_copied};
ghost use Rattle.address_patterns.specs.Patterns.{is_border};
ghost use Rattle.address_patterns.specs.Pieces.{first_of, left_of, piece_of, step, tails};

// Fits a pattern up to its first run, or all of it, to the front of an address. `at_end` says that all of it must end with
// the address. What is left of both behind it, or `None` where it doesn't fit.
pub(crate) fn piece<'a>(
    pattern: &'a [u8],
    address: &'a [u8],
    at_end: bool,
) -> Option<(&'a [u8], &'a [u8])>
    ensures { left_of result ≡ piece_of at_end pattern.now address.now }
{
    let mut pattern = pattern;
    let mut address = address;
    'items: while let Some((item, more)) = pattern.split_first() {
        if *item == b'*' {
            return Some((pattern, address));
        }
        address = step(*item, address)?;
        pattern = more;
    }
    if at_end && !address.is_empty() {
        return None;
    }
    Some((pattern, address))
}

// Fits one byte of a pattern, other than `*`, to the front of an address: what is left of that behind it.
fn step(item: u8, address: &[u8]) -> Option<&[u8]>
    ensures { option_copied result ≡ step item address.now }
{
    match address.split_first() {
        Some((byte, rest)) => {
            let fits = if item == b'^' {
                is_border(*byte)
            } else {
                byte.to_ascii_lowercase() == item
            };
            if fits { Some(rest) } else { None }
        }
        None => { if item == b'^' { Some(address) } else { None } }
    }
}

// The first place of an address where a piece fits.
pub(crate) fn find_piece<'a>(
    pattern: &'a [u8],
    address: &'a [u8],
    at_end: bool,
) -> Option<(&'a [u8], &'a [u8])>
    ensures { left_of result ≡ first_of at_end pattern.now (tails address.now) }
{
    let mut address = address;
    'places: loop {
        let found = piece(pattern, address, at_end);
        if found.is_some() {
            return found;
        }
        address = address.split_first()?.1;
    }
}

// Whether a byte is a border: no letter, no digit and none of `_`, `-`, `.` and `%`.
fn is_border(byte: u8) -> bool
    ensures { result ≡ is_border byte }
{
    !(byte.is_ascii_alphanumeric() || byte == b'_' || byte == b'-' || byte == b'.' || byte == b'%')
}
