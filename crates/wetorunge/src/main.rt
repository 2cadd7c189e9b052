// The program: junctions from a file or from standard input, a line for each of them, and rings if they are asked for.
#![tactic(auto)]

mod answering;

use answering::answer_all;
use anyhow::anyhow;
use std::io::{Read, Write};
use std::process::ExitCode;
use std::{env, fs};

const HELP: &str =
    "wetorunge: the plan of traffic signals in which the stream that is worst off has most to spare

    wetorunge [rings] [FILE]

reads junctions from FILE, or from standard input, and answers each with a line:

    bridge: north 0 to 4, east 6 to 9, spare 1

from the second 0 to the second 4 north is green; an end is counted on past the
cycle's end; spare is by how much the worst-off stream's green is longer than
how many come. Or `none`: in no plan can all go. With the word rings a row of
signs stands below for each stream, a sign a second.

A text:

    junction bridge           begins a junction; may be left out for one
    cycle 60                  seconds, 1 to 120
    north least 8 comes 14    a stream: its least green, how many come in a cycle
    east least 8 comes 9      1 to 12 streams, numbers up to 120
    north 4 east              they cross: 4 seconds clear after north before east
    east 5 north              and the other way
    # what follows a # is passed over

Status 1 if a junction was refused, 0 otherwise. docs/GUIDE.md says more.
";

// What the words on the command line ask for.
#[derive(Debug, Default, PartialEq, Eq, Drop)]
struct Asked {
    help: bool,
    rings: bool,
    file: Option<String>,
}

fn words(rt: &HostRuntime) -> anyhow::Result<Asked> {
    let mut asked = Asked::default();
    for word in env::args(rt)?.skip(1) {
        if asked.file.is_some() {
            return Err(anyhow!("one file at a time; --help says what goes"));
        }
        match word.as_str() {
            "--help" => asked.help = true,
            "rings" => asked.rings = true,
            other => {
                if other.starts_with("-") {
                    return Err(anyhow!(format!(in rt.alloc();
                        "{other} is an unknown word; --help says what goes"
                    )?));
                }
                asked.file = Some(word);
            }
        }
    }
    Ok(asked)
}

fn text_of(rt: &HostRuntime, file: &Option<String>) -> anyhow::Result<Vec<u8>> {
    match file {
        Some(path) => match fs::read(rt, path.as_str()) {
            Ok(text) => Ok(text),
            Err(error) => Err(anyhow!(format!(in rt.alloc(); "{path}: {error}")?)),
        },
        None => {
            let mut text = Vec::new(rt.alloc());
            rt.stdin().read_to_end(&mut text)?;
            Ok(text)
        }
    }
}

// Whether all junctions were taken.
fn run(rt: &HostRuntime) -> anyhow::Result<bool> {
    let asked = words(rt)?;
    if asked.help {
        rt.print(HELP)?;
        return Ok(true);
    }
    let text = text_of(rt, &asked.file)?;
    let answer = answer_all(rt.alloc(), text.as_slice(), asked.rings)?;
    rt.stdout().write_all(answer.bytes.as_slice())?;
    Ok(!answer.refused)
}

// A refusal ends with its status alone: its line was printed with the answers.
fn main(rt: HostRuntime) -> ExitCode {
    match run(&rt) {
        Ok(true) => ExitCode::SUCCESS,
        Ok(false) => ExitCode::FAILURE,
        Err(error) => {
            // Where standard error fails too, the status has to do.
            let _ = eprintln!(rt; "wetorunge: {error}");
            ExitCode::FAILURE
        }
    }
}
