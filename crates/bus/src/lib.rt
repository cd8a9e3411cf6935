// From the sources to the main bus: each voice's chain, its receive word and its share of the mix, then the master distortion.
#![tactic(auto)]

ghost use Rattle.std.specs.Prelude.{◌≡◌, ◌≤◌, ◌<◌};
ghost use Rattle.frame.specs.Offsets.{VCA_R};
ghost use Rattle.chain.specs.Chain.{process_of};
ghost use Rattle.bus.specs.Bus.{dac_f, return_of, fed_of, contribution_of, added_of, bus, EachSideAlone, voices_of, distort_of, master_of};
ghost use Rattle.chain.specs.BeforeR5.{before, earlier_chain};
ghost use Rattle.bus.specs.Before.{voices_on, earlier_chains};
ghost use Rattle.bus.specs.BeforeR5.{LeftAsBefore};

use chain::{Chain, ChainOut};
use frame::{DacWords, Frame};
use stereo::Mix;

// The DAC words of the FX returns, left; right follows. Before the master distortion, and after it.
const DAC_PRE: usize = 12;

const DAC_POST: usize = 14;

// DAC word i / 2^23.
#[tactic(auto, unfolding(crate::specs::Bus::dac_f))]
fn dac_f32(dac: &DacWords, i: usize) -> f32
    requires { i < 16 }
    ensures { result ≡ dac_f dac.now i }
{
    float::from_i32(dac.as_slice()[i]) / 8388608.0
}

// An FX return: DAC word i negated, / 2^23, in the source's order. As `dac_f32` negated it is equal by a law of rounding only, and the proof did not close.
#[tactic(auto, unfolding(crate::specs::Bus::return_of))]
fn returned(dac: &DacWords, i: usize) -> f32
    requires { i < 16 }
    ensures { result ≡ return_of dac.now i }
{
    -float::from_i32(dac.as_slice()[i]) / 8388608.0
}

// What voice v adds to a side, whose VCA words stand from `vca` on.
#[tactic(auto, unfolding(crate::specs::Bus::contribution_of))]
pub fn contribution(f: &Frame, vca: usize, v: usize, y: f32) -> f32
    requires { (vca ≤ VCA_R) × (v < 8) }
    ensures { result ≡ contribution_of f.now vca v y }
{
    y * frame::word_f32(f.as_slice(), vca + 2 * v) / 32767.0
}

// The mix with voice v's sample, left and right, unless it is routed off.
#[tactic(auto, unfolding(crate::specs::Bus::added_of))]
fn added(f: &Frame, v: usize, m: Mix, y: Mix) -> Mix
    requires { v < 8 }
    ensures { result ≡ added_of f.now v m y }
{
    if frame::routed_off(f, v) {
        return m;
    }
    Mix {
        l: m.l + contribution(f, frame::VCA_L, v, y.l),
        r: m.r + contribution(f, frame::VCA_R, v, y.r),
    }
}

// Voice v's sample: its source and its DAC word through its chain.
#[tactic(auto, unfolding(crate::specs::Bus::fed_of))]
pub fn sample(chain: Chain, f: &Frame, dac: &DacWords, v: usize, src: f32) -> ChainOut
    requires { v < 8 }
    ensures { result ≡ process_of f.now v (fed_of dac.now v src) chain }
{
    let x = src + dac_f32(dac, v) * 0.5;
    chain.process(f, v, x)
}

// The receive words and the mix, as far as the voices have gone.
#[derive(Clone, Copy)]
pub struct BusOut {
    pub rx: [i32; 12],
    pub mix: Mix,
}

// Voices 0 to 7 in turn. The chains are the board's own, changed in place.
#[tactic(auto, unfolding(lists::specs::Turns::turns_of, crate::specs::Bus::input_of, crate::specs::Bus::turn_of, crate::specs::Bus::voices_of))]
pub fn voices(chains: &mut [Chain; 8], f: &Frame, dac: &DacWords, src: [f32; 8]) -> BusOut
    ensures value { bus chains.new result ≡ voices_of f.now dac.now src chains.old }
    ensures alone { EachSideAlone f.now dac.now src chains.old result.mix }
    ensures left { LeftAsBefore (bus chains.new result) (voices_on before f.now dac.now src (earlier_chains earlier_chain chains.old)) }
{
    let mut rx: [i32; 12] = [0; 12];
    let mut mix = Mix { l: 0.0, r: 0.0 };
    for v in 0..8 {
        let o = sample(chains[v], f, dac, v, src[v]);
        chains[v] = o.chain;
        rx[v] = float::to24(o.y.l * 0.5);
        mix = added(f, v, mix, o.y);
    }
    BusOut { rx, mix }
}

// The master distortion, of the amount word 0.
#[tactic(auto, unfolding(crate::specs::Bus::distort_of))]
fn distort(f: &Frame, m: Mix) -> Mix
    ensures { result ≡ distort_of f.now m }
{
    let dist = float::clamp(
        frame::word_f32(f.as_slice(), frame::DIST) / 65536.0,
        0.0,
        1.0,
    );
    if 0.0 < dist {
        let k = 1.0 + 15.0 * dist;
        let n = tanh::tanh(k);
        return Mix {
            l: tanh::tanh(m.l * k) / n,
            r: tanh::tanh(m.r * k) / n,
        };
    }
    m
}

// The FX returns before and after the distortion, written negated, and the external input.
#[tactic(auto, unfolding(crate::specs::Bus::master_of))]
pub fn master(f: &Frame, dac: &DacWords, m: Mix, ext: Mix) -> Mix
    ensures { result ≡ master_of f.now dac.now m ext }
{
    let pre = Mix {
        l: m.l + returned(dac, DAC_PRE),
        r: m.r + returned(dac, DAC_PRE + 1),
    };
    let d = distort(f, pre);
    Mix {
        l: d.l + returned(dac, DAC_POST) + ext.l,
        r: d.r + returned(dac, DAC_POST + 1) + ext.r,
    }
}
