// Statistics of the six sums of generated pictures beside the rival's.
use local_statistics::{Cell, Coefficient, Refusal, Sums, Voice};
use std::io;
use trial_support::cases;
use trial_support::cases::Case;
use trial_support::rival::{Given, moments};
use trial_support::tally::Tally;

// The six sums at a cell.
fn six(given: Given, cell: Cell) -> Sums {
    Sums {
        n: given.plane_sum(0, cell),
        s: given.plane_sum(1, cell),
        t: given.plane_sum(2, cell),
        a: given.plane_sum(3, cell),
        b: given.plane_sum(4, cell),
        p: given.plane_sum(5, cell),
    }
}

// Vf and Vg as natural numbers; those of six sums of pictures are not negative.
fn squares(z: Sums) -> (u64, u64) {
    let vf = moments::central(z.n, z.a, z.s, z.s);
    let vg = moments::central(z.n, z.b, z.t, z.t);
    (vf.unsigned_abs(), vg.unsigned_abs())
}

// "Empty if N = 0; Steady with a level if Vf = 0; otherwise Grainy with a level and a spread."
fn is_voice(answer: Result<Voice, Refusal>, z: Sums) -> bool {
    let (vf, _) = squares(z);
    let mean = moments::part(moments::mean(z.n, z.s));
    let deviation = moments::part(moments::deviation(z.n, vf));
    match answer {
        Ok(Voice::Empty) => z.n == 0,
        Ok(Voice::Steady(level)) => z.n != 0 && vf == 0 && level == mean,
        Ok(Voice::Grainy(grain)) => {
            z.n != 0 && vf != 0 && grain.level == mean && grain.spread == deviation
        }
        Err(_) => false,
    }
}

// A coefficient as a number: none for Empty, and one beyond every value for Flat.
fn number(coefficient: Coefficient) -> Option<i64> {
    match coefficient {
        Coefficient::Empty => None,
        Coefficient::Flat => Some(i64::MAX),
        Coefficient::Value(c) => Some(c),
    }
}

// "Empty if N = 0; Flat if Vf or Vg is 0"; otherwise the number where 64 bits hold the products, and where they do not any number from -1000 to 1000, which the
// checksum takes.
fn coefficient(z: Sums, ours: Option<i64>) -> Option<i64> {
    let (vf, vg) = squares(z);
    if z.n == 0 {
        return None;
    }
    if vf == 0 || vg == 0 {
        return Some(i64::MAX);
    }
    if vf < 4000000 && vg < 4000000 {
        let moment = moments::central(z.n, z.p, z.s, z.t);
        return Some(moments::coefficient(vf, vg, moment));
    }
    Some(ours.unwrap_or(0).clamp(-1000, 1000))
}

// The five statistics of six sums: "Mean, variance and deviation answer Empty when N = 0".
fn of_sums(z: Sums, t: Tally) -> Tally {
    let (vf, _) = squares(z);
    let unless_empty = |number| (z.n != 0).then_some(number);
    let mean = unless_empty(moments::mean(z.n, z.s));
    let variance = unless_empty(moments::variance(z.n, vf));
    let deviation = unless_empty(moments::deviation(z.n, vf));
    let ours = local_statistics::coefficient(z).map(number);
    t.with(local_statistics::mean(z), Ok(mean))
        .with(local_statistics::variance(z), Ok(variance))
        .with(local_statistics::deviation(z), Ok(deviation))
        .with(is_voice(local_statistics::voice_answer(z), z), true)
        .with(ours, Ok(coefficient(z, ours.unwrap_or(None))))
}

// One case: its pictures made, and the statistics at 24 cells.
fn of_case(case: Case, tally: Tally) -> Tally {
    let pictures = case.pictures();
    let given = Given::new(case, &pictures);
    (0..24).fold(tally, |t, k| of_sums(six(given, case.scattered(k)), t))
}

pub fn run(rt: &impl Print, columns_wrap: bool) -> io::Result<()> {
    let t = (0..72).fold(Tally::default(), |t, k| {
        of_case(cases::kth(k, columns_wrap), t)
    });
    println!(rt; "statistics{}: {t}", cases::border(columns_wrap))
}
