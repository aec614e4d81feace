//! The monitor's program: runs a kernel under the view of an application.
#![tactic(auto)]

use command_frame::line::no_words;
use facechange_cli::threaded::face_change;
use fc_outside::gate::OpenGate;
use fc_outside::host::{HostSink, HostStore};
use std::env::Env;
use std::process::ExitCode;
use std::{env, io};

fn words<R: Env + AllocGlobal>(rt: &R) -> io::Result<Vec<String>> {
    let mut words = Vec::new(rt.alloc());
    for word in env::args(rt)?.skip(1) {
        words.push(word)?;
    }
    Ok(words)
}

fn main(rt: HostRuntime) -> ExitCode {
    let mut err = HostSink::new(rt.stderr());
    let Ok(words) = words(&rt) else {
        return ExitCode::from(no_words(&mut err));
    };
    let mut store = HostStore::new(&rt);
    let mut out = HostSink::new(rt.stdout());
    let gate = OpenGate;
    ExitCode::from(face_change(
        &rt,
        rt.alloc(),
        &words,
        &mut store,
        &mut out,
        &mut err,
        &gate,
    ))
}
