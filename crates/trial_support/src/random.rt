// Numbers that look random and are the same in every run, and areas of them. Bits are split by remainders, since a cast asks that the number fits. Areas are
// arrays, as the trials have no heap.

// How many cells a picture of the trials has at most.
pub const CELLS: usize = 32768;

// The next number of a multiplicative generator, from 1 to 4,294,967,290.
pub fn next_state(state: u64) -> u64 {
    (state % 4294967290 + 1) * 279470273 % 4294967291
}

// The number of a seed at a place.
pub fn at(seed: u64, place: usize) -> u64 {
    let n = place as u64;
    next_state(next_state(seed % 4294967296 + n % 65536 * 65537))
}

// The number at a place of an area, and 0 where the area ends before it.
pub fn read<T: Copy + Default + Drop>(area: &[T], k: usize) -> T {
    area.get(k).copied().unwrap_or_default()
}

// An area whose first n numbers f gives, and the others are 0.
fn area_of<T: Copy + Default + Drop, const N: usize, F: Fn(usize) -> T + Drop>(
    n: usize,
    f: F,
) -> [T; N]
    requires { F.IsAlwaysCallable f }
{
    let mut area = [T::default(); N];
    for (k, number) in area.iter_mut().enumerate().take(n) {
        *number = f(k);
    }
    area
}

// A number of 64 bits, of either sign, from the least to the largest.
fn wide_number(seed: u64, place: usize) -> i64 {
    let high = at(seed, place);
    let low = next_state(high);
    let bits = (high % 2147483648 * 4294967296 + low % 4294967296) as i64;
    if high / 7 % 2 == 0 { bits } else { !bits }
}

// Foreign contents of an area: its first n numbers are those that a seed gives, the others 0.
pub fn foreign<const N: usize>(n: usize, seed: u64) -> [i64; N] {
    area_of(n, |k| wide_number(seed, k))
}

// A level of 16 bits: each of them is possible.
fn level(n: u64) -> i16 {
    let bits = n / 3;
    let low = (bits % 32768) as i16;
    if bits % 65536 < 32768 { low } else { !low }
}

// The level that a number gives in the picture of a seed, which says what the picture is like.
fn level_of(seed: u64, n: u64) -> i16 {
    let choice = n / 3;
    match next_state(seed) / 5 % 8 {
        0 => level(seed), // one level everywhere
        1 => { if choice % 16 == 0 { 1 } else { 5 } } // nearly so
        2 => (choice % 4) as i16, // small ones
        3 => !((choice % 7) as i16), // small ones below 0
        4 => { if choice % 2 == 0 { i16::MAX } else { i16::MIN } }
        _ => level(n),
    }
}

// The first n levels of the picture of a seed; the others are 0.
pub fn picture<const N: usize>(n: usize, seed: u64) -> [i16; N] {
    area_of(n, |k| level_of(seed, at(seed, k)))
}
