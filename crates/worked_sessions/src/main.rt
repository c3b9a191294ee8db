//! Writes the worked sessions of the tests: without a word their names, one a line, and with a name the capture of that
//! session.
#![tactic(auto)]

use nntp_sessions::{Session, each_session};
use std::process::ExitCode;
use std::{env, io};

/// Prints the name of each session.
fn print_names(rt: &HostRuntime) -> io::Result<()> {
    for session in each_session(rt.alloc())? {
        println!(rt; "{}", session.name)?;
    }
    Ok(())
}

/// The session of the name, if there is one.
fn find(rt: &HostRuntime, name: &str) -> io::Result<Option<&'static Session>> {
    for session in each_session(rt.alloc())? {
        if session.name == name {
            return Ok(Some(session));
        }
    }
    Ok(None)
}

/// Prints what is asked for, and tells whether there is such a session.
fn run(rt: &HostRuntime) -> io::Result<bool> {
    let Some(name) = env::args(rt)?.nth(1) else {
        print_names(rt)?;
        return Ok(true);
    };
    let Some(session) = find(rt, name.as_str())? else {
        return Ok(false);
    };
    print!(rt; "{}", session.capture(rt.alloc())?)?;
    Ok(true)
}

fn main(rt: HostRuntime) -> ExitCode {
    match run(&rt) {
        Ok(true) => ExitCode::from(0),
        Ok(false) => ExitCode::from(2),
        Err(_) => ExitCode::from(3),
    }
}
