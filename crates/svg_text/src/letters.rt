// The bytes of path data, and how long a number may be: "absolute M, L and C of SVG 1.1", "an optional minus, 1 to 7 digits
// and optionally a point with one to three decimals, single spaces between all items" (document 02, §11).
pub const SPACE: u8 = b' ';

pub const MINUS: u8 = b'-';

pub const POINT: u8 = b'.';

pub const ZERO: u8 = b'0';

pub const NINE: u8 = b'9';

pub const CURVE: u8 = b'C';

pub const LINE: u8 = b'L';

pub const MOVE: u8 = b'M';

pub const MOST_DIGITS: usize = 7;

pub const MOST_DECIMALS: usize = 3;
