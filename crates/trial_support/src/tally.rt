// What a group of trials has compared: how many things, how many of them differed, and a checksum of what the library gave.
use spec_picture::Refusal;
use std::fmt;

#[derive(Clone, Copy)]
pub struct Tally {
    pub compared: u64,
    pub different: u64,
    pub checksum: u64,
}

// Nothing compared yet; the checksum begins at 1.
impl Default for Tally {
    fn default() -> Tally {
        Tally {
            compared: 0,
            different: 0,
            checksum: 1,
        }
    }
}

// As the line of a group says it.
impl fmt::Display for Tally {
    fn fmt<W: fmt::Write>(&self, f: &mut fmt::Formatter<W>) -> fmt::Result {
        write!(
            f,
            "{} compared, {} different, checksum {}",
            self.compared, self.different, self.checksum
        )
    }
}

// The checksum with 32 bits more: a step of a multiplicative generator, and their sum.
fn stirred(checksum: u64, half: u64) -> u64 {
    (checksum % 4294967291) * 279470273 % 4294967291 + half % 4294967296
}

// What is compared, and what the checksum takes of it: numbers by halves, split by a remainder, since a cast asks that the number fits. No `Hash`: its hasher
// would give other numbers than the checksums that are written down.
pub trait Compared: PartialEq + Copy + Drop {
    fn stir(self, checksum: u64) -> u64;
}

// A whole number: its sign, and then its magnitude.
impl Compared for i64 {
    fn stir(self, checksum: u64) -> u64 {
        let magnitude = self.unsigned_abs();
        let low = stirred(stirred(checksum, u64::from(self < 0)), magnitude);
        stirred(low, magnitude / 4294967296)
    }
}

impl Compared for i16 {
    fn stir(self, checksum: u64) -> u64 {
        i64::from(self).stir(checksum)
    }
}

impl Compared for usize {
    fn stir(self, checksum: u64) -> u64 {
        stirred(checksum, self as u64)
    }
}

impl Compared for bool {
    fn stir(self, checksum: u64) -> u64 {
        stirred(checksum, u64::from(self))
    }
}

impl Compared for Refusal {
    fn stir(self, checksum: u64) -> u64 {
        stirred(checksum, u64::from(u32::from(self)))
    }
}

// A value or none, and an answer: which of the two, and then what it has.
impl<T: Compared> Compared for Option<T> {
    fn stir(self, checksum: u64) -> u64 {
        match self {
            None => stirred(checksum, 0),
            Some(value) => value.stir(stirred(checksum, 1)),
        }
    }
}

impl<T: Compared> Compared for Result<T, Refusal> {
    fn stir(self, checksum: u64) -> u64 {
        match self {
            Err(refusal) => refusal.stir(stirred(checksum, 0)),
            Ok(value) => value.stir(stirred(checksum, 1)),
        }
    }
}

impl Tally {
    // One comparison more: of what the library and the rival give.
    pub fn with<T: Compared>(self, ours: T, rivals: T) -> Tally {
        Tally {
            compared: self.compared.wrapping_add(1),
            different: self.different.wrapping_add(u64::from(ours != rivals)),
            checksum: ours.stir(self.checksum),
        }
    }

    // The first n numbers of two areas compared.
    pub fn with_first<T: Compared>(self, n: usize, ours: &[T], rivals: &[T]) -> Tally {
        ours.iter()
            .zip(rivals)
            .take(n)
            .fold(self, |t, (our, rival)| t.with(*our, *rival))
    }
}
