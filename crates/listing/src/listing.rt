// What the program `lapfit` lists of a course's fit: the letter of each command's kind. Its steps are what the fit notes.
ghost use Rattle.std.specs.Prelude.{◌≡◌};
ghost use Rattle.listing.specs.Rows.{letter_of};

// The letter of a kind, as its byte: M, L, A. No row has a kind above 2. A number and no enum, since kinds are lent as bytes.
pub fn letter(kind: u8) -> u8
    ensures { result ≡ letter_of kind }
{
    match kind {
        0 => b'M',
        1 => b'L',
        _ => b'A',
    }
}
