// Escapes, by which a line can say any bytes.
use std::alloc::{AllocError, AllocFailed, Global};

/// The most bytes that a repetition makes.
const MOST: usize = 4_000_000;

/// Why a text has no reading.
#[derive(Clone, Copy, Debug, PartialEq, Eq)]
pub enum Unread {
    BadEscape,
    NoMemory,
}

impl From<AllocError> for Unread {
    fn from(_: AllocError) -> Self {
        Unread::NoMemory
    }
}

impl<T: Drop> From<AllocFailed<T>> for Unread {
    fn from(_: AllocFailed<T>) -> Self {
        Unread::NoMemory
    }
}

/// Where a reader is within a text.
#[derive(Clone, Copy)]
enum Place {
    Plain,
    Slash,
    /// Behind `\x`.
    High,
    /// Behind `\x` and a first digit of this value.
    Low(u8),
    /// Behind `\{`, and digits of this value where some have come.
    Count(Option<usize>),
}

/// A text that is read byte by byte.
#[derive(Drop)]
struct Reader {
    place: Place,
    out: Vec<u8>,
    /// The repetition that is open: how often, and where in `out` it begins.
    repeated: Option<(usize, usize)>,
}

fn hex(byte: u8) -> Option<u8> {
    match byte {
        b'0'..=b'9' => Some(byte - b'0'),
        b'a'..=b'f' => Some(byte - b'a' + 10),
        _ => None,
    }
}

fn plain(letter: u8) -> Option<u8> {
    match letter {
        b'n' => Some(b'\n'),
        b'r' => Some(b'\r'),
        b't' => Some(b'\t'),
        b's' => Some(b' '),
        b'0' => Some(0),
        b'\\' | b'=' | b'}' => Some(letter),
        _ => None,
    }
}

impl Reader {
    /// Ends the open repetition.
    fn repeat(&mut self) -> Result<(), Unread> {
        let Some((times, from)) = self.repeated.take() else {
            return Err(Unread::BadEscape);
        };
        let unit = self
            .out
            .get(from..)
            .ok_or(Unread::BadEscape)?
            .to_vec(*self.out.allocator())?;
        if unit.len().saturating_mul(times) > MOST || (unit.is_empty() && times > MOST) {
            return Err(Unread::BadEscape);
        }
        self.out.truncate(from);
        for _ in 0..times {
            self.out.extend_from_slice(unit.as_slice())?;
        }
        Ok(())
    }

    /// Reads the letter after a `\`.
    fn escape(&mut self, letter: u8) -> Result<Place, Unread> {
        match letter {
            b'x' => Ok(Place::High),
            b'e' => Ok(Place::Plain),
            b'{' => Ok(Place::Count(None)),
            _ => {
                self.out.push(plain(letter).ok_or(Unread::BadEscape)?)?;
                Ok(Place::Plain)
            }
        }
    }

    /// Begins a repetition.
    fn begin(&mut self, times: Option<usize>) -> Result<Place, Unread> {
        let Some(times) = times else {
            return Err(Unread::BadEscape);
        };
        self.repeated = Some((times, self.out.len()));
        Ok(Place::Plain)
    }

    /// Reads a byte after `\{`.
    fn count(&mut self, times: Option<usize>, byte: u8) -> Result<Place, Unread> {
        match byte {
            b'0'..=b'9' => {
                let digit = usize::from(byte - b'0');
                let more = times.unwrap_or(0).saturating_mul(10).saturating_add(digit);
                Ok(Place::Count(Some(more)))
            }
            b' ' if self.repeated.is_none() => self.begin(times),
            _ => Err(Unread::BadEscape),
        }
    }

    fn step(&mut self, byte: u8) -> Result<(), Unread> {
        self.place = match self.place {
            Place::Plain if byte == b'\\' => Place::Slash,
            Place::Plain if byte == b'}' && self.repeated.is_some() => {
                self.repeat()?;
                Place::Plain
            }
            Place::Plain => {
                self.out.push(byte)?;
                Place::Plain
            }
            Place::Slash => self.escape(byte)?,
            Place::High => Place::Low(hex(byte).ok_or(Unread::BadEscape)?),
            Place::Low(high) => {
                let low = hex(byte).ok_or(Unread::BadEscape)?;
                self.out.push(high.wrapping_mul(16).wrapping_add(low))?;
                Place::Plain
            }
            Place::Count(times) => self.count(times, byte)?,
        };
        Ok(())
    }
}

/// What a text says: `\n`, `\r`, `\t`, `\0`, `\s` (a space), `\\`, `\=` and `\}` are a byte each, `\xHH` is the byte of two
/// lower hexadecimal digits, `\e` is nothing, and `\{N TEXT}` is a text N times over, at most 4,000,000 bytes.
///
/// # Errors
///
/// `BadEscape` for any other `\`, and `NoMemory`.
pub fn unescaped(alloc: Global, text: &[u8]) -> Result<Vec<u8>, Unread> {
    let mut reader = Reader {
        place: Place::Plain,
        out: Vec::new(alloc),
        repeated: None,
    };
    for byte in text {
        reader.step(*byte)?;
    }
    let Reader {
        place,
        out,
        repeated,
    } = reader;
    match (place, repeated) {
        (Place::Plain, None) => Ok(out),
        _ => Err(Unread::BadEscape),
    }
}
