// Envelope records, and the envelopes that follow them: Env (dual voices, hat, cymbal) and SegEnv (a chain's amp and filter).
#![tactic(auto)]

ghost use Rattle.std.specs.Prelude.{◌≡◌, Bool, true, false, not, ◌&&◌, ◌||◌, ◌+◌, ◌*◌, ◌/◌, ◌≤◌, ◌<◌};
ghost use Rattle.envelope.specs.Record.{level_of, exp_of, mant_of, mode_of, rate_of, step_of, record_of, tick_of};
ghost use Rattle.envelope.specs.Moves.{settled_by, starts_of, alike, dual_of, hit_of, key_of, same_key, same_amp, hold_of, moved_by, seg_of};
ghost use Rattle.envelope.specs.Gain.{loudness_of, gain_of};

// One 8-byte record. Its first word is a command: not zero starts the segment.
#[repr(C)]
#[derive(Clone, Copy)]
pub struct Record {
    pub start_cmd: bool,
    pub start: f32,
    pub target: f32,
    // Levels per sample.
    pub step: f32,
}

// `b as i8 as f32`.
#[tactic(auto, unfolding(crate::specs::Record::level_of))]
fn level(b: u8) -> f32
    ensures { result ≡ level_of b }
{
    b.cast_signed() as f32
}

// The exponent: the low nibble of byte 5.
fn exp(r: [u8; 8]) -> u32
    ensures { (result ≡ exp_of r) × (result < 16) }
{
    u32::from(r[5] & 15)
}

// The mantissa: bytes 6 and 7.
fn mant(r: [u8; 8]) -> u32
    ensures { (result ≡ mant_of r) × (result < 65536) }
{
    u32::from(u16::from_be_bytes([r[6], r[7]]))
}

impl Record {
    #[tactic(auto, unfolding(crate::specs::Record::record_of, crate::specs::Record::step_of))]
    pub fn parse(r: [u8; 8]) -> Record
        ensures { result ≡ record_of r }
    {
        let e = exp(r);
        let m = mant(r);
        let step = float::from_u32((0x7fffffff - (m << 14)) >> e) / 8388608.0 / 2.0;
        Record {
            start_cmd: (r[0] != 0) | (r[1] != 0),
            start: level(r[2]),
            target: level(r[3]),
            step,
        }
    }
}

// An envelope segment playing toward its target.
#[repr(C)]
#[derive(Clone, Copy)]
pub struct Env {
    pub level: f32,
}

impl Env {
    #[tactic(auto, unfolding(crate::specs::Record::tick_level))]
    pub fn tick(self, r: Record) -> Env
        ensures { result ≡ tick_of self r }
    {
        let d = r.target - self.level;
        if float::abs(d) <= r.step {
            Env { level: r.target }
        } else {
            Env {
                level: self.level + r.step * float::signum(d),
            }
        }
    }

    // A dual voice's: a record other than the last one, with the command, starts at its start level. What this and `hit` share is `settled`;
    // what is left in each is what restarts or parks it.
    #[tactic(auto, unfolding(crate::specs::Moves::dual_of, crate::specs::Moves::dual_move, crate::specs::Moves::settle))]
    pub fn dual(self, last: [u8; 8], r: [u8; 8]) -> Env
        ensures { result ≡ dual_of last r self }
    {
        let rec = Record::parse(r);
        let restarted = !same(r, last) & rec.start_cmd;
        Env {
            level: settled(rec, restarted, false, false, self.level),
        }
    }

    // The hat's and the cymbal's: mode F after another mode starts it, and a zero first word parks it. A mode stays a number: the board keeps
    // the record's nibble, and C reads it.
    #[tactic(auto, unfolding(crate::specs::Moves::hit_of, crate::specs::Moves::hit_move, crate::specs::Moves::settle))]
    pub fn hit(self, mode: u8, r: [u8; 8]) -> Env
        ensures { result ≡ hit_of mode r self }
    {
        let rec = Record::parse(r);
        let restarted = starts(mode_of(r), mode);
        Env {
            level: settled(rec, restarted, false, !rec.start_cmd, self.level),
        }
    }
}

// The level after a move. Three bools: each caller knows other ones of them, and a struct would be filled and taken apart at each call.
fn settled(rec: Record, restarted: bool, held: bool, parked: bool, level: f32) -> f32
    ensures { result ≡ settled_by rec restarted held parked level }
{
    if parked {
        return -128.0;
    }
    let x = float::choose(restarted, rec.start, level);
    if held {
        return x;
    }
    Env { level: x }.tick(rec).level
}

// Whether two records are the same bytes. `a == b` compares byte by byte with a branch for each: 510 of a step's 13,500
// instructions more, where a step just keeps to its 1.3 times the Rust's time.
#[tactic(auto, unfolding(crate::specs::Moves::alike))]
pub fn same(a: [u8; 8], b: [u8; 8]) -> bool
    ensures { result ≡ alike 8 a b }
{
    let mut ok = true;
    for i in 0..8 {
        ok = ok & (a[i] == b[i]);
    }
    ok
}

// The mode: the high nibble of byte 4.
pub fn mode_of(r: [u8; 8]) -> u8
    ensures { result ≡ mode_of r }
{
    r[4] >> 4
}

// A level as a gain: 127 is full scale; logarithmic below.
pub fn loudness(level: f32) -> f32
    ensures { result ≡ loudness_of level }
{
    power::exp2((level - 127.0) / float::LEVELS_PER_6DB)
}

// The same, and silent at the floor and under.
pub fn gain(level: f32, floor: f32) -> f32
    ensures { result ≡ gain_of level floor }
{
    if level <= floor {
        return 0.0;
    }
    loudness(level)
}

// Whether a record starts its segment by its mode and the one before: F after another.
pub fn starts(mode: u8, was: u8) -> bool
    ensures { result ≡ starts_of mode was }
{
    (mode == 15) & (was != 15)
}

// What a chain's envelope compares a record by: its levels and its rate.
#[repr(C)]
#[derive(Clone, Copy, PartialEq, Eq)]
pub struct Key {
    pub start: u8,
    pub target: u8,
    pub rate: u32,
}

impl Key {
    #[tactic(auto, unfolding(crate::specs::Moves::key_of))]
    pub fn of(r: [u8; 8]) -> Key
        ensures { result ≡ key_of r }
    {
        Key {
            start: r[2],
            target: r[3],
            rate: u32::from_be_bytes([0, r[5] & 15, r[6], r[7]]),
        }
    }
}

// Whether the level is held, by the mode, the rate, the difference to the target, and what was. The nibble is matched here and nowhere else;
// an enum would be read of it by a second match, with a second definition.
#[tactic(auto, unfolding(crate::specs::Moves::hold_of))]
fn hold_of(mode: u8, rate: u32, d: f32, was: bool) -> bool
    ensures { result ≡ hold_of mode rate d was }
{
    match mode {
        3 => (rate == 0) | (float::abs(d) < 0.001),
        0 => (rate == 0) | was,
        9 | 11 | 15 => false,
        _ => was,
    }
}

// A chain's envelope.
#[repr(C)]
#[derive(Clone, Copy)]
pub struct SegEnv {
    pub key: Key,
    pub level: f32,
    // Holding until a ramp mode (B, 9, F) comes; mode 0 continues whichever it was.
    pub hold: bool,
    // The last record carried the amp's start command.
    pub cmd: bool,
}

impl SegEnv {
    // Whether two amps stand the same, the level to the bit: zeros of two signs are two levels. An amp does not look at its key.
    #[tactic(auto, unfolding(crate::specs::Moves::same_amp))]
    pub fn same_amp(self, e: SegEnv) -> bool
        ensures { result ≡ same_amp self e }
    {
        float::same_bits(self.level, e.level) & (self.hold == e.hold) & (self.cmd == e.cmd)
    }

    // After a record with this key and mode, which restarts it or not; `cmd` is what it keeps of the start command.
    #[tactic(auto, unfolding(crate::specs::Moves::moved_by))]
    fn moved(self, rec: Record, key: Key, mode: u8, restarted: bool, cmd: bool) -> SegEnv
        ensures { result ≡ moved_by rec key mode restarted cmd self }
    {
        let stood = float::choose(restarted, rec.start, self.level);
        let hold = hold_of(mode, key.rate, rec.target - stood, self.hold);
        SegEnv {
            key,
            level: settled(rec, restarted, hold, false, self.level),
            hold,
            cmd,
        }
    }

    // The amp's, whose record begins with a start command: the command after a record without it starts the segment. What this and `filter`
    // share is `moved`; what is left in each is what restarts it.
    #[tactic(auto, unfolding(crate::specs::Moves::seg_of, crate::specs::Moves::seg_move, crate::specs::Moves::seg_starts, crate::specs::Moves::settle, crate::specs::Moves::moved_by))]
    pub fn amp(self, r: [u8; 8]) -> SegEnv
        ensures { result ≡ seg_of true r self }
    {
        let rec = Record::parse(r);
        let key = Key::of(r);
        let cmd = rec.start_cmd;
        self.moved(rec, key, mode_of(r), cmd & !self.cmd, cmd)
    }

    // The filter's, whose record begins with a depth: a changed key with mode 9 or F starts the segment.
    #[tactic(auto, unfolding(crate::specs::Moves::seg_of, crate::specs::Moves::seg_move, crate::specs::Moves::seg_starts, crate::specs::Moves::same_key, crate::specs::Moves::settle, crate::specs::Moves::moved_by))]
    pub fn filter(self, r: [u8; 8]) -> SegEnv
        ensures { result ≡ seg_of false r self }
    {
        let rec = Record::parse(r);
        let key = Key::of(r);
        let mode = mode_of(r);
        let restarted = (key != self.key) & ((mode == 9) | (mode == 15));
        self.moved(rec, key, mode, restarted, self.cmd)
    }
}
