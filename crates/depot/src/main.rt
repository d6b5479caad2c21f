//! depot: a journal in, answers out.
#![tactic(auto)]

mod chart;
mod options;

use chart::{Chart, Style};
use journal::reader::{Fault, NumberedEntry, read_journal};
use options::{HELP, Misuse, Request, Source, read_arguments};
use std::io::{BufWriter, Write};
use std::process::ExitCode;
use std::{fmt, io};

/// Why a run fails.
#[derive(Drop)]
enum Failure {
    Misused(Misuse),
    Unreadable(Source, io::Error),
    Refused(Source, Fault),
    Unwritten(io::Error),
}

impl From<Misuse> for Failure {
    fn from(misuse: Misuse) -> Failure {
        Failure::Misused(misuse)
    }
}

impl fmt::Display for Failure {
    fn fmt<W: fmt::Write>(&self, f: &mut fmt::Formatter<W>) -> fmt::Result {
        match self {
            Failure::Misused(misuse) => write!(f, "{misuse}"),
            Failure::Unreadable(source, e) => {
                write!(f, "{source}: the journal cannot be read: {e}")
            }
            Failure::Refused(source, fault) => write!(f, "{source}: {fault}"),
            Failure::Unwritten(e) => write!(f, "the answers cannot be written: {e}"),
        }
    }
}

fn main(rt: HostRuntime) -> ExitCode {
    match serve(&rt) {
        Ok(()) => ExitCode::SUCCESS,
        Err(failure) => {
            // the run has failed, whether or not its message can be written
            let _ = eprintln!(rt; "depot: {failure}");
            ExitCode::FAILURE
        }
    }
}

/// Does what the command line asks for.
fn serve(rt: &HostRuntime) -> Result<(), Failure> {
    match read_arguments(rt)? {
        Request::Help => println!(rt; "{HELP}").map_err(Failure::Unwritten),
        Request::Answers { style, source } => answer(rt, source, style),
    }
}

/// Reads the whole journal, and only then answers.
fn answer(rt: &HostRuntime, source: Source, style: Style) -> Result<(), Failure> {
    let text = match source.read(rt) {
        Ok(text) => text,
        Err(e) => return Err(Failure::Unreadable(source, e)),
    };
    let entries = read_journal(rt.alloc(), text.as_slice()).map_err(|fault| Failure::Refused(
        source, fault,
    ))?;
    write_answers(rt, entries.as_slice(), style).map_err(Failure::Unwritten)
}

fn write_answers(rt: &HostRuntime, entries: &[NumberedEntry], style: Style) -> io::Result<()> {
    let mut chart = Chart {
        heap: rt.alloc(),
        out: BufWriter::new(rt.alloc(), rt.stdout())?,
        style,
    };
    chart.write(entries)?;
    chart.out.flush()
}
