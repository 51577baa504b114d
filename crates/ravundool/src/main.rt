// Reads commands from the file that is named, or from standard input, and answers each.
#![tactic(auto)]

use anyhow::anyhow;
use console::desk::Desk;
use console::session::converse;
use std::io::{BufReader, BufWriter, Read, Write};
use std::{env, fs};

// Whether some command was wrong.
fn answer<I: Read + Drop>(rt: &HostRuntime, input: I) -> anyhow::Result<bool> {
    let out = BufWriter::new(rt.alloc(), rt.stdout())?;
    let mut desk = Desk::new(rt.clone()?, BufReader::new(rt.alloc(), input)?, out);
    converse(&mut desk)?;
    desk.out.flush()?;
    Ok(desk.failed)
}

fn run(rt: &HostRuntime) -> anyhow::Result<bool> {
    let Some(script) = env::args(rt)?.nth(1) else {
        return answer(rt, rt.stdin());
    };
    match fs::open(rt, script.as_str()) {
        Ok(input) => answer(rt, input),
        Err(_) => Err(anyhow!(format!(in rt.alloc(); "cannot read {script}")?)),
    }
}

fn main(rt: HostRuntime) -> anyhow::Result<()> {
    if run(&rt)? {
        return Err(anyhow!("a command was wrong"));
    }
    Ok(())
}
