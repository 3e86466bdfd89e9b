// Statistics of six sums: what they take, what they answer, and what that means. The functions are in `statistics`.
#![tactic(auto)]

// "These take six sums N, S, T, A, B, P (planes 0 to 5)."
#[derive(Clone, Copy)]
pub struct Sums {
    pub n: i64,
    pub s: i64,
    pub t: i64,
    pub a: i64,
    pub b: i64,
    pub p: i64,
}

// The central moments of f and g, times N²: "Vf = N·A - S², Vg = N·B - T², C = N·P - S·T". N, Vf and Vg of possible sums are not negative.
#[derive(Clone, Copy)]
pub struct CentralMoments {
    pub count: u64,
    pub vf: u64,
    pub vg: u64,
    pub c: i64,
}

// "Grainy with a level and a spread"
#[derive(Clone, Copy)]
pub struct Grain {
    pub level: f32,
    pub spread: f32,
}

// "Empty if N = 0; Steady with a level if Vf = 0; otherwise Grainy with a level and a spread." Three cases, and no Option of two: document 01's forms
// name an enum for this answer.
#[derive(Clone, Copy)]
pub enum Voice {
    Empty,
    Steady(f32),
    Grainy(Grain),
}

// "Empty if N = 0; Flat if Vf or Vg is 0; otherwise the sign of C times the largest whole c": an enum of three cases too.
#[derive(Clone, Copy)]
pub enum Coefficient {
    Empty,
    Flat,
    Value(i64),
}
