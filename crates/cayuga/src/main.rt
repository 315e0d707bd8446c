//! The program `cayuga`: the top call over real files and standard output.
#![tactic(auto)]

ghost use Rattle.std.specs.Prelude.{◌≡◌, ◌<◌};

mod file_host;

use cay_host::{Ledger, Quiet, Steps};
use cayuga_run::{Status, cayuga};
use file_host::FileHost;
use std::env;
use std::io::ErrorKind;
use std::process::ExitCode;
use std::sync::ledger::Blank;

fn main(rt: HostRuntime) -> ExitCode {
    let status = match words_of(&rt) {
        Ok(words) => run::<Quiet>(&rt, &words, Blank::new(1)),
        Err(status) => status,
    };
    tell(&rt, &status);
    ExitCode::from(status.number())
}

// Prints the status's text on standard error, where it has one and there is memory for it.
fn tell(rt: &HostRuntime, status: &Status) {
    if let Ok(text) = status.text(rt.alloc()) {
        if !text.as_str().is_empty() {
            let _ = eprintln!(rt; "{}", text.as_str());
        }
    }
}

// The words after the program's name. A word that isn't UTF-8 is in no job's words, so it is Usage.
fn words_of(rt: &HostRuntime) -> Result<Vec<String>, Status> {
    match env::args(rt) {
        Ok(args) => {
            let mut words = Vec::new(rt.alloc());
            for word in args.skip(1) {
                if words.push(word).is_err() {
                    return Err(Status::Memory);
                }
            }
            Ok(words)
        }
        Err(error) if error.kind() == ErrorKind::OutOfMemory => Err(Status::Memory),
        Err(_) => Err(Status::Usage),
    }
}

// Runs the words, with a new count of steps.
fn run<L: Ledger>(rt: &HostRuntime, words: &[String], blank: Blank) -> Status
    requires name { blank.name ≡ L.name }
    requires parts { blank.parts ≡ L.parts }
    requires some { 0 < blank.parts }
{
    let mut texts = Vec::new(rt.alloc());
    for word in words {
        if texts.push(word.as_str()).is_err() {
            return Status::Memory;
        }
    }
    let mut host = FileHost::new(*rt);
    let mut steps = Steps::<L>::new(blank);
    cayuga(rt.alloc(), &mut host, &texts, &mut steps)
}
