// Plays the recording on standard input: a line for each step, with its number, the answer's number and the twelve receive words.
#![tactic(auto)]

fn main(rt: HostRuntime) {
    let _ = player::play(&mut rt.stdin(), &mut rt.stdout(), &mut rt.stderr());
}
