// `replay` on each recording of data/, after a line with its name.
#![tactic(auto)]

use std::fs::File;
use std::io;

// What cannot be read or written is said by `player`.
fn play(rt: &HostRuntime, name: &str) -> io::Result<()> {
    let _ = println!(rt; "{name}");
    match File::open(rt, name) {
        Ok(mut file) => {
            let _ = player::play(&mut file, &mut rt.stdout(), &mut rt.stderr());
        }
        Err(e) => {
            let text = format!(in rt.alloc(); "{e}")?;
            let why = text.split(" (os error ").next().unwrap_or("");
            let _ = eprintln!(rt; "{name}: {why}");
        }
    }
    Ok(())
}

fn main(rt: HostRuntime) -> io::Result<()> {
    // refused steps among accepted ones
    play(&rt, "refused_steps.rec")?;
    // a bad opening, and a wrong length too
    play(&rt, "opening.rec")?;
    // a wrong length, and an entry that names no body too
    play(&rt, "length.rec")?;
    // an entry equal to the number of bodies
    play(&rt, "entry.rec")?;
    // as long as its opening says, and more than 65,536 bytes
    play(&rt, "long.rec")
}
