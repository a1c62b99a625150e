//! The program `aeadkit`: authenticated encryption and key wrapping by published standards. Its command line is in the
//! crate `command`; the tests of all crates are in this one.
#![tactic(auto)]

#[cfg(test)]
mod tests;

use command::{Disk, report, run, words_given};
use std::fs;
use std::process::ExitCode;

// The path that is opened in place of a standard stream that is closed: a folder, which can be neither read
// nor written as a file. With the null device a sealing would be lost with status 0.
const NO_STREAM: &str = "/";

fn main(rt: HostRuntime) -> ExitCode {
    // A file that a command opens takes the lowest free descriptor, which must not be that of a standard stream.
    let _no_streams = [
        fs::open(&rt, NO_STREAM),
        fs::open(&rt, NO_STREAM),
        fs::open(&rt, NO_STREAM),
    ];
    let mut out = rt.stdout();
    let mut err = rt.stderr();
    ExitCode::from(match words_given(rt.alloc(), &rt) {
        Ok(words) => run(
            rt.alloc(),
            &Disk {
                runtime: &rt,
                alloc: rt.alloc(),
            },
            &words,
            &mut out,
            &mut err,
        ),
        Err(failure) => report(&mut err, failure),
    })
}
