// Recordings: an opening, the contents and the bodies in one slice of bytes, played step by step on a fresh board.
#![tactic(auto)]

ghost use Rattle.std.specs.Prelude.{◌≡◌, Bool, ℕ, ◌+◌, ◌*◌, ◌≤◌, ◌<◌, length, IfOk};
ghost use Rattle.board.specs.Board.{answer};
ghost use Rattle.std.specs.Float.{binary32};
ghost use Rattle.std.specs.Float.Ieee.{of_bits};
ghost use Rattle.recording.specs.Format.{steps_of, number_at, word_of, in_bounds, letters_ok, opening_ok, extent_of, named_to, dac_at, inputs_at};
ghost use Rattle.recording.specs.Play.{ready_of, open_of, body_of, passed_of, unplayed_of, next_of};
ghost use Rattle.recording.specs.Replay.{Replays, OneCall};

use board::{Analog, Heard, Inputs, Refusal};
use std::array;
use std::num::f32_from_bits_with_nan;
use stereo::Mix;

// A recording that is being played: its board, its counts and the number of its next step.
#[derive(Clone, Copy)]
pub struct Playing {
    pub board: Analog,
    pub steps: u32,
    pub bodies: u32,
    pub at: u32,
}

// What a step answers, and the rest of the recording: as the board's Answer, which has a board in that place. One generic type is no plainer: all
// that is said of lists of calls reads the `board` of an answer, which here lies one deeper.
#[derive(Clone, Copy)]
pub struct Played {
    pub refusal: Option<Refusal>,
    pub rx: [i32; 12],
    pub mix: Mix,
    pub playing: Playing,
}

// ---- the format
// Each reader asks for its own bytes at `o`: the lengths are 4, 16, 64 and 768, so that no one fact would stand in a type.

// The 4-byte number at `o`.
#[tactic(auto, unfolding(crate::specs::Format::number_at))]
fn number(rec: &[u8], o: usize) -> u32
    requires { o + 4 ≤ length rec.now }
    ensures { result ≡ number_at rec.now o }
{
    u32::from_be_bytes([rec[o], rec[o + 1], rec[o + 2], rec[o + 3]])
}

// The 4-byte number at `o`, in two's complement.
#[tactic(auto, unfolding(crate::specs::Format::word_of))]
fn word(rec: &[u8], o: usize) -> i32
    requires { o + 4 ≤ length rec.now }
    ensures { result ≡ word_of (number_at rec.now o) }
{
    number(rec, o).cast_signed()
}

// The f32 at `o`; every pattern of a value that is no number gives one that is none.
fn input(rec: &[u8], o: usize) -> f32
    requires { o + 4 ≤ length rec.now }
    ensures { result ≡ of_bits binary32 (number_at rec.now o) }
{
    f32_from_bits_with_nan(number(rec, o))
}

#[tactic(auto, unfolding(crate::specs::Format::in_bounds))]
fn in_bounds(x: u32, least: u32, most: u32) -> bool
    ensures { result ≡ in_bounds x least most }
{
    (least..=most).contains(&x)
}

#[tactic(auto, unfolding(crate::specs::Format::letters_ok))]
fn letters_ok(rec: &[u8]) -> bool
    requires { 20 ≤ length rec.now }
    ensures { result ≡ letters_ok rec.now }
{
    rec.starts_with(b"RVBR")
}

// Whether the opening is good.
#[tactic(auto, unfolding(crate::specs::Format::opening_ok))]
pub fn opening_ok(rec: &[u8]) -> bool
    ensures { result ≡ opening_ok rec.now }
{
    if rec.len() < 20 {
        return false;
    }
    let steps = in_bounds(number(rec, 12), 1, 65536);
    let bodies = in_bounds(number(rec, 16), 1, 4096);
    letters_ok(rec) & (rec[4] == 1) & (rec[5] <= 1) & (rec[6] == 0) & (rec[7] == 0) & steps & bodies
}

// The length of a recording.
#[tactic(auto, unfolding(crate::specs::Format::extent_of))]
fn extent(steps: u32, bodies: u32) -> usize
    ensures { result ≡ extent_of steps bodies }
{
    20 + 4 * (steps as usize) + 768 * (bodies as usize)
}

// Whether each of the first `steps` entries of the contents names a body.
fn named(rec: &[u8], steps: u32, bodies: u32) -> bool
    requires { 20 + 4 * steps ≤ length rec.now }
    ensures { result ≡ named_to rec.now bodies steps }
{
    (0..steps).all(|i| number(rec, 20 + 4 * (i as usize)) < bodies)
}

// The DAC words from `o` on.
fn dac(rec: &[u8], o: usize) -> [i32; 16]
    requires { o + 64 ≤ length rec.now }
    ensures { result ≡ dac_at rec.now o 16 }
{
    array::from_fn(|i| word(rec, o + 4 * i))
}

// The four inputs from `o` on.
#[tactic(auto, unfolding(crate::specs::Format::inputs_at))]
fn inputs(rec: &[u8], o: usize) -> Inputs
    requires { o + 16 ≤ length rec.now }
    ensures { result ≡ inputs_at rec.now o }
{
    Inputs {
        audio: Mix {
            l: input(rec, o),
            r: input(rec, o + 4),
        },
        ext: Mix {
            l: input(rec, o + 8),
            r: input(rec, o + 12),
        },
    }
}

// ---- playing

// The recording's board, fresh, at the first step.
#[tactic(auto, unfolding(crate::specs::Play::ready_of))]
fn ready(rec: &[u8]) -> Playing
    requires { 20 ≤ length rec.now }
    ensures { result ≡ ready_of rec.now }
{
    Playing {
        board: promise::fresh(number(rec, 8), rec[5] == 1),
        steps: number(rec, 12),
        bodies: number(rec, 16),
        at: 0,
    }
}

// Opens a recording, or answers the lowest refusal that applies.
#[tactic(auto, unfolding(crate::specs::Play::open_of, crate::specs::Format::extent_of), using(crate::proofs::Opening::opening_long, crate::proofs::Replay::replay_calls))]
pub fn open(rec: &[u8]) -> Result<Playing, Refusal>
    ensures value { result ≡ open_of rec.now }
    ensures replays { IfOk result (λ p. (n : ℕ) → n ≤ steps_of rec.now → Replays rec.now p n) }
{
    if !opening_ok(rec) {
        return Err(Refusal::BadOpening);
    }
    let steps = number(rec, 12);
    let bodies = number(rec, 16);
    if rec.len() != extent(steps, bodies) {
        return Err(Refusal::WrongLength);
    }
    if !named(rec, steps, bodies) {
        return Err(Refusal::NoBody);
    }
    Ok(ready(rec))
}

// What the body that starts at `o` does to a board, which is changed in place: by value it would be copied twice more.
#[tactic(auto, unfolding(crate::specs::Play::body_of))]
fn body(board: &mut Analog, rec: &[u8], o: usize) -> Heard
    requires { o + 768 ≤ length rec.now }
    ensures { answer board.new result ≡ body_of board.old rec.now o }
{
    let words = dac(rec, o + 688);
    let x = inputs(rec, o + 752);
    board::advance(board, &rec[o..o + 664], &words, &rec[o + 664..o + 688], x)
}

// The step's answer, and the place after it.
#[tactic(auto, unfolding(crate::specs::Play::passed_of))]
fn passed(mut p: Playing, rec: &[u8], n: u32) -> Played
    requires { (p.at + 1 < 4294967296) × (extent_of p.steps n + 768 ≤ length rec.now) }
    ensures { result ≡ passed_of p (body_of p.board rec.now (extent_of p.steps n)) }
{
    let o = extent(p.steps, n);
    let Heard { refusal, rx, mix } = body(&mut p.board, rec, o);
    p.at += 1;
    Played {
        refusal,
        rx,
        mix,
        playing: p,
    }
}

#[tactic(auto, unfolding(crate::specs::Play::unplayed_of))]
fn unplayed(p: Playing, refusal: Refusal) -> Played
    ensures { result ≡ unplayed_of p refusal }
{
    Played {
        refusal: Some(refusal),
        rx: [0; 12],
        mix: Mix { l: 0.0, r: 0.0 },
        playing: p,
    }
}

// The next step. A `Playing` and a slice go beside each other, since any of both may be given: past the last step, or with a slice that is
// not the one opened, it tests again what it needs.
#[tactic(auto, unfolding(crate::specs::Format::extent_of))]
pub fn next(p: Playing, rec: &[u8]) -> Played
    ensures { (result ≡ next_of p rec.now) × OneCall p result }
{
    if rec.len() != extent(p.steps, p.bodies) {
        return unplayed(p, Refusal::WrongLength);
    }
    if p.at >= p.steps {
        return unplayed(p, Refusal::NoBody);
    }
    let n = number(rec, 20 + 4 * (p.at as usize));
    if n >= p.bodies {
        return unplayed(p, Refusal::NoBody);
    }
    passed(p, rec, n)
}
