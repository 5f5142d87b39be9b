// The program: `heronnail check FILE` reads a script file and says whether it is accepted. It is a thin
// shell over the proved library; what it prints is tested.
#![tactic(auto)]

ghost use Rattle.std.specs.Prelude.{◌≤◌, length, IfOk};

mod show;

use anyhow::anyhow;
use checker::accepted::Accepted;
use show::print_refusal;
use std::io::Read;
use std::process::ExitCode;
use std::{env, fs, io};

const USAGE: &str =
    "usage: heronnail check FILE   read a drive script and say whether it is accepted
       heronnail help         print this text";

// The bytes of the file, as many as the buffer holds. The buffer has one byte more than a script may
// have, so that a file of any size is refused without being read whole. It is lent, so that no read can pass its end:
// no clause of `take(..).read_to_end(..)` says how much that reads of a file.
fn read_start(rt: &HostRuntime, path: &str, buf: &mut [u8]) -> io::Result<usize>
    ensures { IfOk result (λ n. n ≤ length buf.old) }
{
    let mut file = fs::open(rt, path)?;
    let mut len = 0;
    for _ in 0..u64::MAX {
        if len >= buf.len() {
            break;
        }
        let n = file.read(&mut buf[len..])?;
        if n == 0 {
            break;
        }
        len += n;
    }
    Ok(len)
}

fn check_file(rt: &HostRuntime, path: &str) -> anyhow::Result<()> {
    let mut buf = [0u8; 8193];
    // What goes wrong with a file is told here, and not passed on.
    let len = match read_start(rt, path, &mut buf) {
        Ok(len) => len,
        Err(e) => {
            eprintln!(rt; "heronnail: {path}: cannot be read: {e}")?;
            return Err(anyhow!("not read"));
        }
    };
    let text = &buf[..len];
    let mut accepted = Accepted::new();
    if let Err(fault) = accepted.check(text) {
        print_refusal(rt, path, text, fault)?;
        return Err(anyhow!("refused"));
    }
    let s = accepted.script();
    println!(rt;
        "{path}: accepted: cells {}, locals {}, steps {}, readings {}, need {}",
        s.cells(),
        s.locals(),
        s.steps(),
        s.readings(),
        s.need()
    )?;
    Ok(())
}

fn usage(rt: &HostRuntime) -> anyhow::Result<()> {
    eprintln!(rt; "{USAGE}")?;
    Err(anyhow!("usage"))
}

fn command(rt: &HostRuntime) -> anyhow::Result<()> {
    let mut args = env::args(rt)?.skip(1);
    match (args.next().as_deref(), args.next()) {
        (Some("check"), Some(path)) => check_file(rt, path.as_str()),
        (Some("help"), None) => {
            println!(rt; "{USAGE}")?;
            Ok(())
        }
        _ => usage(rt),
    }
}

// An error only makes the status 1: what there is to say of it was printed where it came up.
fn main(rt: HostRuntime) -> ExitCode {
    match command(&rt) {
        Ok(()) => ExitCode::SUCCESS,
        Err(_) => ExitCode::FAILURE,
    }
}
