// The hihat: the metal bank through a high-pass, under one envelope.
#![tactic(auto)]

ghost use Rattle.std.specs.Prelude.{◌≡◌};
ghost use Rattle.hat.specs.Hat.{hat_new, colour_of, sound_of, sample_of};

use envelope::Env;
use frame::Frame;
use metal::{Bank, Drawn6, Svf};
use wobble::Wobble;

// Phases and detunes side by side, as the C header has them.
#[repr(C)]
#[derive(Clone, Copy)]
pub struct Hat {
    pub ph: [f32; 6],
    pub det: [f32; 6],
    pub env: Env,
    pub mode: u8,
    pub hp: Svf,
}

// Each source has such a struct of its own, since a call from C takes no generic one.
#[repr(C)]
#[derive(Clone, Copy)]
pub struct HatOut {
    pub hat: Hat,
    pub w: Wobble,
    pub y: f32,
}

// The colour's cutoff as the filter's coefficient.
#[tactic(auto, unfolding(crate::specs::Hat::colour_of))]
fn colour(f: &Frame) -> f32
    ensures { result ≡ colour_of f.now }
{
    let c = frame::signed_f32(f.as_slice(), frame::HAT_COLOUR) / 32768.0;
    let fc = float::clamp(6000.0 * power::exp2(1.5 * c), 500.0, 16000.0);
    metal::coefficient(fc)
}

impl Hat {
    #[tactic(auto, unfolding(crate::specs::Hat::hat_new))]
    pub fn new() -> Hat
        ensures { result ≡ hat_new }
    {
        Hat {
            ph: [0.0; 6],
            det: [1.0; 6],
            env: Env { level: -128.0 },
            mode: 0,
            hp: Svf {
                low: 0.0,
                band: 0.0,
            },
        }
    }

    // The bank through the high-pass, of a hat that sounds.
    #[tactic(auto, unfolding(crate::specs::Hat::sound_of))]
    fn sound(mut self, f: &Frame, w: Wobble) -> HatOut
        ensures { result ≡ sound_of f.now self w }
    {
        let Bank { ph, metal, .. } = metal::run(f, frame::HAT_BANK, self.ph, &self.det, false);
        let s = self.hp.tick(metal / 6.0, colour(f), 1.2);
        let vca = frame::word_f32(f.as_slice(), frame::HAT_VCA) / 32767.0;
        self.ph = ph;
        self.hp = s.svf;
        HatOut {
            hat: self,
            w,
            y: s.high * vca * envelope::loudness(self.env.level),
        }
    }

    #[tactic(auto, unfolding(crate::specs::Hat::sample_of))]
    pub fn sample(mut self, f: &Frame, w: Wobble) -> HatOut
        ensures { result ≡ sample_of f.now self w }
    {
        let r = frame::bytes(f.as_slice(), frame::HAT_ENV);
        let mode = envelope::mode_of(r);
        let hit = envelope::starts(mode, self.mode);
        let Hat { ph, det, .. } = self;
        let drawn = metal::on_hit(hit, self.env.level <= -127.5, Drawn6 { ph, det, w });
        let Drawn6 { ph, det, w } = drawn;
        self.ph = ph;
        self.det = det;
        self.env = self.env.hit(self.mode, r);
        self.mode = mode;
        if self.env.level <= -127.5 {
            return HatOut {
                hat: self,
                w,
                y: 0.0,
            };
        }
        self.sound(f, w)
    }
}
