// The rival's statistics, with 64 bits: rounded quotients of natural numbers, and roots found bit by bit.

// x / d to the nearest whole number, "a half going up"; of numbers below 2^62, and 0 where d is.
fn nearest(x: u64, d: u64) -> u64 {
    x.wrapping_mul(2)
        .wrapping_add(d)
        .checked_div(d.wrapping_mul(2))
        .unwrap_or(0)
}

// The mean of n levels with the sum s: that of the levels raised by 32,768, of which none is negative.
pub fn mean(n: i64, s: i64) -> i64 {
    let raised = s.wrapping_add(n.wrapping_mul(32768));
    nearest(raised.unsigned_abs(), n.unsigned_abs())
        .cast_signed()
        .wrapping_sub(32768)
}

// n·x - s·t: Vf, Vg or C.
pub fn central(n: i64, x: i64, s: i64, t: i64) -> i64 {
    n.wrapping_mul(x).wrapping_sub(s.wrapping_mul(t))
}

fn squared(n: u64) -> u64 {
    n.wrapping_mul(n)
}

pub fn variance(n: i64, vf: u64) -> i64 {
    nearest(vf, squared(n.unsigned_abs())).cast_signed()
}

// The largest d with d² · scale ≤ most, of those of so many bits.
fn root(bits: u32, scale: u64, most: u64) -> u64 {
    (0..bits).rev().fold(0u64, |d, bit| {
        let more = d.wrapping_add(1u64.wrapping_shl(bit));
        if squared(more).wrapping_mul(scale) <= most {
            more
        } else {
            d
        }
    })
}

// The largest whole d where "d²·N² ≤ Vf".
pub fn deviation(n: i64, vf: u64) -> i64 {
    root(16, squared(n.unsigned_abs()), vf).cast_signed()
}

// "the sign of C times the largest whole c .. with c²·Vf·Vg ≤ 1,000,000·C²", where 64 bits hold c² · Vf · Vg for c below 1,024.
pub fn coefficient(vf: u64, vg: u64, c: i64) -> i64 {
    let most = squared(c.unsigned_abs()).wrapping_mul(1000000);
    root(10, vf.wrapping_mul(vg), most)
        .cast_signed()
        .wrapping_mul(c.signum())
}

// A level or a spread as a part of 32,768.
pub fn part(n: i64) -> f32 {
    i16::try_from(n).unwrap_or(0) as f32 / 32768.0
}
