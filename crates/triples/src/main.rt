//! Reads lines of target triples and writes what they are. `main` gives its arguments to `requested`, and its streams
//! to `perform`, which calls `run` or `filter`, and then `conclude`, which gives the exit status.
//!
//! `run` reads the whole input and writes what `lines`, `matrix` or `json` makes of it, as `mode` says. `filter`
//! answers line by line between two buffers, as `line_mode` says. `streams` reads or writes to the end through
//! `counted`, which counts failures, and keeps in a `trace` which bytes were moved; only contracts see it. `laws` has
//! what follows from the contracts.
#![tactic(auto)]

mod counted;
mod filter;
mod filter_error;
mod json;
mod laws;
mod line_mode;
mod lines;
mod matrix;
mod mode;
mod perform;
mod request;
mod run;
mod run_error;
mod streams;
#[cfg(test)]
mod tests;
mod trace;

use counted::Counted;
use perform::perform;
use request::requested;
use std::env;
use std::process::ExitCode;

fn main(rt: HostRuntime) -> ExitCode {
    let request = match env::args(&rt) {
        Ok(mut arguments) => {
            let _name = arguments.next();
            requested(arguments.next(), arguments.next())
        }
        // the usage line, as for other words
        Err(_) => None,
    };
    let mut reader = Counted::new(rt.stdin());
    let mut writer = Counted::new(rt.stdout());
    let mut errors = Counted::new(rt.stderr());
    ExitCode::from(perform(rt.alloc(), request, &mut reader, &mut writer, &mut errors))
}
