// The sources of a step, in the order that decides the draws: three dual voices, three toms, cymbal, hat.
#![tactic(auto)]

ghost use Rattle.std.specs.Prelude.{◌≡◌, replicate};
ghost use Rattle.float.specs.Consts.{k0};
ghost use Rattle.sources.specs.Sources.{sources, sound_of};

use cym::Cym;
use dual::DualOsc;
use frame::{DacWords, Frame};
use hat::Hat;
use tom::Tom;
use wobble::Wobble;

// All eight: the dual voices, the toms, the cymbal, the hat. Their states and the random source are the board's own, changed in place: a struct of
// them all would be a copy of half the board. What comes back is each voice's sample.
#[tactic(auto, using(frame::proofs::Tables::dual_inside_lem, frame::proofs::Tables::tom_inside_lem), unfolding(lists::specs::Turns::turns_of, crate::specs::Sources::dual_turn, crate::specs::Sources::duals_of, crate::specs::Sources::tom_turn, crate::specs::Sources::toms_of, crate::specs::Sources::metal_of, crate::specs::Sources::sound_of))]
pub fn sound(
    duals: &mut [DualOsc; 3],
    toms: &mut [Tom; 3],
    cym: &mut Cym,
    hat: &mut Hat,
    w: &mut Wobble,
    f: &Frame,
    dac: &DacWords,
) -> [f32; 8]
    ensures { sources duals.new hat.new toms.new cym.new w.new result ≡ sound_of f.now dac.now (sources duals.old hat.old toms.old cym.old w.old (replicate 8 k0)) }
{
    let mut src = [0.0; 8];
    for d in 0..3 {
        let o = duals[d].sample(f, d, *w);
        duals[d] = o.dual;
        *w = o.w;
        src[frame::dual_spec(d).voice] = o.y;
    }
    for t in 0..3 {
        let spec = frame::tom_spec(t);
        let o = toms[t].sample(f, t, dac.as_slice()[spec.dac], *w);
        toms[t] = o.tom;
        *w = o.w;
        src[spec.voice] = o.y;
    }
    let c = cym.sample(f, *w);
    let h = hat.sample(f, c.w);
    *cym = c.cym;
    *hat = h.hat;
    *w = h.w;
    src[frame::CYM_VOICE] = c.y;
    src[frame::HAT_VOICE] = h.y;
    src
}
