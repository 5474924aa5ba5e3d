// The f32 constants of exp.rs, tanh.rs, erf.rs and sin_cos.rs, by the Rust's names; a literal that the Rust leaves unnamed has a name here.
// LOG2_E, LN_2 and SQRT_2 are the decimals of Rust's std::f32::consts.
#![tactic(auto)]

// exp.rs
pub const INV_LOG2: f32 = 1.44269504088896340735992468100189214;

pub const LN_2: f32 = 0.693147180559945309417232121458176568;

pub const ROUNDING_MAGIC: f32 = 12582912.;

pub const LOG2_HI: f32 = -6.93145752e-1;

pub const LOG2_LO: f32 = -1.42860677e-6;

pub const EXP_POLY_0: f32 = 1.0;

pub const EXP_POLY_1: f32 = 1.0;

pub const EXP_POLY_2: f32 = 4.99999851e-1;

pub const EXP_POLY_3: f32 = 1.66664720e-1;

pub const EXP_POLY_4: f32 = 4.16695364e-2;

pub const EXP_POLY_5: f32 = 8.37312452e-3;

pub const EXP_POLY_6: f32 = 1.37805939e-3;

pub const EXP_OVERFLOW: f32 = 104.0;

pub const EXP_UNDERFLOW: f32 = -104.0;

pub const EXP_LOWER_CUTOFF: f32 = -126.5 * LN_2 + 0.01;

// tanh.rs
pub const TANH_CUTOFF: f32 = 9.02;

pub const TANH_TINY: f32 = 0.0004;

pub const TANH_SMALL: f32 = 0.55;

pub const TANH_P1: f32 = 0.999999940395355224609375;

pub const TANH_P3: f32 = -0.33332359790802001953125;

pub const TANH_P5: f32 = 0.13310669362545013427734375;

pub const TANH_P7: f32 = -5.21197654306888580322265625e-2;

pub const TANH_P9: f32 = 1.5497927553951740264892578125e-2;

// erf.rs
pub const ERF_P: f32 = 0.3275911;

pub const ERF_A0: f32 = 0.254829592;

pub const ERF_A1: f32 = -0.284496736;

pub const ERF_A2: f32 = 1.421413741;

pub const ERF_A3: f32 = -1.453152027;

pub const ERF_A4: f32 = 1.061405429;

pub const SQRT_2: f32 = 1.41421356237309504880168872420969808;

pub const SQRT_2_RCP: f32 = 1.0 / SQRT_2;

pub const SQRT_2_PI: f32 = 0.7978845608028654;

pub const GELU_CUBE: f32 = 0.044715;

// sin_cos.rs
pub const PI: f32 = 3.1415927;

pub const MINUS_PI: f32 = -3.1415927;

pub const INV_2_PI: f32 = 0.15915494;

pub const HALF_PI: f32 = 1.5707964;

pub const TWO_PI_HI: f32 = 6.28125;

pub const TWO_PI_LO: f32 = 1.9353072e-3;

pub const SIN_A3: f32 = -1.3314664364e-01;

pub const SIN_A5: f32 = 3.2340581529e-03;

pub const SIN_B2: f32 = 3.3519912511e-02;

pub const SIN_B4: f32 = 4.8770775902e-04;

pub const LARGE_THRESHOLD: f32 = 48000.0;
