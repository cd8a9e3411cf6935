// The stereo pair: a mix, an input, an external input; and one of its sides.
#![tactic(auto)]

ghost use Rattle.std.specs.Prelude.{◌≡◌};
ghost use Rattle.stereo.specs.Stereo.{side_of};

#[repr(C)]
#[derive(Clone, Copy)]
pub struct Mix {
    pub l: f32,
    pub r: f32,
}

#[derive(Clone, Copy, PartialEq, Eq)]
pub enum Side {
    Left,
    Right,
}

impl Mix {
    pub fn side(self, side: Side) -> f32
        ensures { result ≡ side_of side self }
    {
        match side {
            Side::Left => self.l,
            Side::Right => self.r,
        }
    }
}
