//! What the rows of the table read, with no word of a decoder.

/// How bytes end. `at` counts the bytes before the bad one, or before the end, and `start` those before the
/// character that is bad or cut there.
#[derive(Clone, Copy, Debug, PartialEq, Eq)]
pub enum Ending {
    Whole,
    Bad { at: usize, start: usize },
    Cut { at: usize, start: usize },
}

/// What three bytes or fewer spell, and how they end.
#[derive(Clone, Copy, Debug, PartialEq, Eq)]
pub struct Reading {
    pub text: [Option<char>; 3],
    pub ending: Ending,
}

/// Puts the character after the others.
pub fn add(text: &mut [Option<char>], c: Option<char>) {
    for place in text {
        if place.is_none() {
            *place = c;
            return;
        }
    }
}

/// The bytes from the first to the last.
type Range = (u8, u8);

/// The rows of Table 3-7 of the Unicode Standard: the first bytes, the second bytes, and the length. Each byte
/// after the second is 80 to BF.
const ROWS: [(Range, Range, usize); 9] = [
    ((0x00, 0x7F), (0x80, 0xBF), 1),
    ((0xC2, 0xDF), (0x80, 0xBF), 2),
    ((0xE0, 0xE0), (0xA0, 0xBF), 3),
    ((0xE1, 0xEC), (0x80, 0xBF), 3),
    ((0xED, 0xED), (0x80, 0x9F), 3),
    ((0xEE, 0xEF), (0x80, 0xBF), 3),
    ((0xF0, 0xF0), (0x90, 0xBF), 4),
    ((0xF1, 0xF3), (0x80, 0xBF), 4),
    ((0xF4, 0xF4), (0x80, 0x8F), 4),
];

/// What stands at the front of some bytes: a character and its length, or how many of the bytes begin one,
/// before a bad byte or the end.
enum Front {
    Char(Option<char>, usize),
    Bad(usize),
    Cut(usize),
}

/// What stands at the front, where the first byte is in a row with these second bytes and this length.
fn front_in_row(bytes: &[u8], second: Range, len: usize) -> Front {
    let mut code: u32 = 0;
    for (i, byte) in bytes.iter().enumerate().take(len) {
        let (low, high) = match i {
            0 => (0x00, 0xFF),
            1 => second,
            _ => (0x80, 0xBF),
        };
        if *byte < low || *byte > high {
            return Front::Bad(i);
        }
        // The first byte gives 7, 5, 4 or 3 bits, and each other gives 6.
        let bits = match (i, len) {
            (0, 1) => *byte % 0x80,
            (0, 2) => *byte % 0x20,
            (0, 3) => *byte % 0x10,
            (0, _) => *byte % 0x08,
            _ => *byte % 0x40,
        };
        code = code.wrapping_mul(0x40).wrapping_add(u32::from(bits));
    }
    if bytes.len() < len {
        Front::Cut(bytes.len())
    } else {
        Front::Char(char::from_u32(code), len)
    }
}

fn front_of(bytes: &[u8]) -> Front {
    let Some(byte) = bytes.first() else {
        return Front::Cut(0);
    };
    for (first, second, len) in ROWS {
        if first.0 <= *byte && *byte <= first.1 {
            return front_in_row(bytes, second, len);
        }
    }
    Front::Bad(0)
}

/// The bytes as the rows of the table read them.
pub fn by_the_table(bytes: &[u8]) -> Reading {
    let mut text = [None; 3];
    let mut start: usize = 0;
    for _ in 0..bytes.len() {
        let Some(rest) = bytes.get(start..) else {
            break;
        };
        match front_of(rest) {
            Front::Char(c, len) => {
                add(&mut text, c);
                start = start.wrapping_add(len);
            }
            Front::Bad(back) => {
                let at = start.wrapping_add(back);
                return Reading {
                    text,
                    ending: Ending::Bad { at, start },
                };
            }
            Front::Cut(0) => break,
            Front::Cut(_) => {
                let at = bytes.len();
                return Reading {
                    text,
                    ending: Ending::Cut { at, start },
                };
            }
        }
    }
    Reading {
        text,
        ending: Ending::Whole,
    }
}
