// The board beside a fixed list of the Rust's answers, mix and all: stdin is a recording chosen for what it covers, stdout what
// `tools/compare --print` wrote for it (tools/write-expected makes both). A line has the answer's number, the words, and the mix as bit patterns.
#![tactic(auto)]

use std::io;
use std::num::f32_to_bits_with_nan;

// The lines of all steps; of a refused recording none.
fn play(rt: &impl Print, rec: &[u8]) -> io::Result<()> {
    let Ok(mut playing) = recording::open(rec) else {
        return Ok(());
    };
    for _ in 0..playing.steps {
        let played = recording::next(playing, rec);
        let number = board::number(played.refusal);
        let mut words = [0; 144];
        let end = text::words(&mut words, 0, played.rx);
        let left = f32_to_bits_with_nan(played.mix.l);
        let right = f32_to_bits_with_nan(played.mix.r);
        print!(rt; "{number}")?;
        rt.write_all(&words[..end])?;
        println!(rt; " {left:08x} {right:08x}")?;
        playing = played.playing;
    }
    Ok(())
}

fn main(rt: HostRuntime) -> io::Result<()> {
    let mut rec = [0; 65536];
    let (Ok(length) | Err(player::Unread { length })) = player::fill(&mut rt.stdin(), &mut rec);
    play(&rt, &rec[..length])
}
