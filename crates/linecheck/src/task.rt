// The task: a rule file is read, and its rule is judged on each recording that is named.
use crate::fault::NoVerdict;
use crate::judged::{Judge, Judged};
use crate::telling::{Counted, Sentence};
use crate::text::parse;
use rules::book::Book;
use rules::node::Place;
use rules::reading::read;
use std::{env, fs};

const USAGE: &str = "usage: linecheck judge RULE RECORDING [RECORDING ...]";

// The rule of a file: how many bytes the file has, and the place of the rule.
#[derive(Clone, Copy)]
struct Rule {
    bytes: usize,
    place: Place,
}

fn read_rule(rt: &HostRuntime, book: &mut Book, file: &str) -> Result<Rule, NoVerdict> {
    let bytes = fs::read(rt, file)?;
    let place = read(book, bytes.as_slice())?;
    Ok(Rule {
        bytes: bytes.len(),
        place,
    })
}

fn judge_file(rt: &HostRuntime, judge: &Judge, file: &str) -> Result<Judged, NoVerdict> {
    let text = fs::read_to_string(rt, file)?;
    let recorded = parse(rt.alloc(), text.as_str())?;
    judge.verdict(&recorded)
}

// Judges the rule on each of the files, and answers whether each got a verdict.
fn judge_files(rt: &HostRuntime, judge: &Judge, files: &[String]) -> anyhow::Result<bool> {
    let mut all = true;
    for file in files {
        let file = file.as_str();
        match judge_file(rt, judge, file) {
            Ok(judged) => println!(rt; "{file}: {judged}")?,
            Err(cause) => {
                all = false;
                rt.println(Sentence { file, cause })?;
            }
        }
    }
    Ok(all)
}

// Reads the rule file and judges its rule, and answers whether each recording got a verdict.
fn judge_rule(rt: &HostRuntime, file: &str, recordings: &[String]) -> anyhow::Result<bool> {
    let mut book = Book::new();
    match read_rule(rt, &mut book, file) {
        Ok(Rule { bytes, place }) => {
            let bytes = Counted(bytes, "byte");
            let nodes = Counted(book.len(), "node");
            println!(rt;
                "{file}: {bytes}, {nodes}, the rule at place {}",
                place.index
            )?;
            let judge = Judge {
                heap: rt.alloc(),
                book: &book,
                place,
            };
            judge_files(rt, &judge, recordings)
        }
        Err(cause) => {
            rt.println(Sentence { file, cause })?;
            Ok(false)
        }
    }
}

// Does what the program's arguments ask for, and answers whether each recording got a verdict.
pub(crate) fn run(rt: &HostRuntime) -> anyhow::Result<bool> {
    let words: Vec<String> = env::args(rt)?.collect(rt.alloc())?;
    match words.as_slice() {
        [_, command, rule, recordings @ ..]
            if command.as_str() == "judge" && !recordings.is_empty() => {
            judge_rule(rt, rule.as_str(), recordings)
        }
        _ => {
            eprintln!(rt; "{USAGE}")?;
            Ok(false)
        }
    }
}
