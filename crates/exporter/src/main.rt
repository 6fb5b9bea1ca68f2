//! The program: a script of calls goes in, and the text of its lives with the reply to each call comes out.
//!
//! `plain` and `live` of `exporter_commands` do all that the program does; their contracts say what. `main` hands them
//! the words of the command line, the standard streams, the site file, TCP connections and the clock.
#![tactic(auto)]

mod command_line;

use crate::command_line::words;
use exporter_commands::{Ended, live, plain, status};
use host_adapters::{BootClock, Calling, Input, Listening, Opened, Opener, Output, TcpDialer};
use std::fs;
use std::net::TcpStream;
use std::process::ExitCode;
use std::sync::Wait;
use std::thread::Threads;
use world_traits::Clock;

/// How many dialers there are: one for each inverter that a site may have.
const DIALERS: usize = 64;

/// The site file, in the current folder.
const SITE: &str = "site.toml";

/// Does what the words ask for over links that come about in this way.
fn run_live<
    R: Threads + Wait + Sync,
    C: Opener<Runtime = HostRuntime, Stream = TcpStream> + Send,
    K: Clock + Sync,
>(threads: &R, rt: &HostRuntime, words: &Vec<String>, clock: &K) -> Ended {
    let Ok(mut dialers) = TcpDialer::<C>::many(rt.alloc(), *rt, DIALERS) else {
        return Ended::NoMemory;
    };
    let mut site = Input::new(Opened::at(*rt, SITE));
    let mut console = Input::new(rt.stdin());
    let mut output = Output::new(rt.stdout());
    live(
        threads,
        rt.alloc(),
        words,
        &mut site,
        &mut console,
        &mut output,
        &mut dialers,
        clock,
    )
}

/// Does what the words ask for over the standard input and output.
fn run_plain(rt: &HostRuntime, words: &Vec<String>) -> Ended {
    let mut input = Input::new(rt.stdin());
    let mut output = Output::new(rt.stdout());
    plain(rt.alloc(), words, &mut input, &mut output)
}

fn run<R: Threads + Wait + Sync, K: Clock + Sync>(
    threads: &R,
    rt: &HostRuntime,
    clock: &K,
) -> Ended {
    let words = match words(rt) {
        Ok(words) => words,
        Err(ended) => return ended,
    };
    match words.first().map(|word| word.as_str()) {
        Some("run" | "commission") => {
            run_live::<R, Calling<HostRuntime>, K>(threads, rt, &words, clock)
        }
        Some("serve") => run_live::<R, Listening<HostRuntime>, K>(threads, rt, &words, clock),
        _ => run_plain(rt, &words),
    }
}

fn main(rt: HostRuntime) -> ExitCode {
    // These take the places of standard streams that are closed, so that no socket does. A folder can't be read, nor
    // written: a stream in whose place it stands fails.
    let _places = [fs::open(&rt, "/"), fs::open(&rt, "/"), fs::open(&rt, "/")];
    let ended = run(&rt, &rt, &BootClock::new(rt));
    let status = status(&ended);
    if status != 0 {
        let _ = eprintln!(rt; "{ended}");
    }
    ExitCode::from(status)
}

#[cfg(test)]
mod tests;
