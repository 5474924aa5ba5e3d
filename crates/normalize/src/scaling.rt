// The result at a place: the settings, and the scale and the bias of each element where there are any.
ghost use Rattle.std.specs.Prelude.{◌≡◌, true, ◌<◌, is_some, length};
ghost use Rattle.std.specs.Float.{binary32};
ghost use Rattle.std.specs.Float.Ieee.{add, mul};
ghost use Rattle.floats.specs.Floats.{mul_add};
ghost use Rattle.normalize.specs.Normalize.{unfit_of, list_of};
ghost use Rattle.normalize.specs.Scaling.{Reaches, value_of};

use crate::Settings;

#[derive(Clone, Copy)]
pub struct Scaling<'a> {
    pub settings: Settings,
    pub element_scale: Option<&'a [f32]>,
    pub element_bias: Option<&'a [f32]>,
}

// A slice in use whose length is not n.
pub fn unfit(s: Option<&[f32]>, n: usize) -> bool
    ensures { result ≡ unfit_of (is_some s.entry) (length (list_of s.entry)) n }
{
    s.is_some_and(|s| s.len() != n)
}

impl Settings {
    // The third arm, with every step; y is the element less pre_scale_bias.
    fn full(self, e: f32, b: f32, y: f32) -> f32
        ensures { result ≡ mul_add y (mul binary32 e self.scale) (add binary32 b self.bias) }
    {
        y * (e * self.scale) + (b + self.bias)
    }
}

impl<'a> Scaling<'a> {
    // The result at i, where the element is x, by the Rust's three arms.
    pub fn at(self, i: usize, x: f32) -> f32
        requires { Reaches self i }
        ensures { result ≡ value_of self.entry i x }
    {
        let st = self.settings;
        let y = x - st.pre_scale_bias;
        match (self.element_scale, self.element_bias) {
            (None, None) => y * st.scale + st.bias,
            (Some(es), None) if st.bias == 0.0 => y * (es[i] * st.scale),
            (Some(es), None) => st.full(es[i], 0.0, y),
            (None, Some(eb)) => st.full(1.0, eb[i], y),
            (Some(es), Some(eb)) => st.full(es[i], eb[i], y),
        }
    }
}
