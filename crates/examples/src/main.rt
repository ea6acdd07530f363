// Document 01's examples, through judging, building and batches as they are.
// A call's line has its code and the number beside it; a question's line has kind, a, b and then code, result, entries read.
#![tactic(auto)]

use judge::Outcome;
use std::io;

fn outcome(out: &impl Print, call: &str, ended: impl Into<Outcome>) -> io::Result<()> {
    let r = ended.into();
    println!(out; "{call}: {} {}", r.code, r.value)
}

fn numbers(out: &impl Print, label: &str, index: &[i32]) -> io::Result<()> {
    print!(out; "{label}:")?;
    for x in index {
        print!(out; " {x}")?;
    }
    println!(out;)
}

// Each question beside its answer.
fn beside(out: &impl Print, questions: &[u32], answers: &[u32]) -> io::Result<()> {
    for (q, a) in questions.chunks_exact(3).zip(answers.chunks_exact(3)) {
        println!(out; "{} {} {}: {} {} {}", q[0], q[1], q[2], a[0], a[1], a[2])?;
    }
    Ok(())
}

fn ask(out: &impl Print, bytes: &[u8], m: u32, index: &[i32], questions: &[u32]) -> io::Result<()> {
    let mut answers = [0u32; 69];
    let r = batch::batch(bytes, m, index, questions, &mut answers);
    outcome(out, "batch", r)?;
    beside(out, questions, &answers)
}

// W is `(()(()()))()`.
fn w(out: &impl Print) -> io::Result<()> {
    let bytes = [0x5Bu8, 0x04];
    let mut index = [7i32; 8];
    println!(out; "W")?;
    outcome(out, "build", build::build(&bytes, 12, &mut index))?;
    numbers(out, "index", &index)?;
    let questions = [
        1u32, 4, 0, 2, 6, 0, 3, 3, 0, 3, 6, 0, 4, 3, 0, 6, 10, 0, 7, 6, 2, 7, 6, 3, 8, 3, 0, 9, 0,
        0, 10, 1, 0, 11, 1, 0, 11, 3, 0, 11, 0, 0, 12, 3, 6, 12, 0, 10, 13, 2, 8, 13, 5, 7, 13, 0,
        12, 14, 3, 6, 14, 6, 3, 1, 2, 0, 1, 12, 0,
    ];
    ask(out, &bytes, 12, &index, &questions)
}

// V is 256 openings and 256 closings.
fn v(out: &impl Print) -> io::Result<()> {
    let mut bytes = [0u8; 64];
    fill::copy(&[255u8; 32], &mut bytes, 0);
    let mut index = [7i32; 16];
    println!(out; "V")?;
    outcome(out, "build", build::build(&bytes, 512, &mut index))?;
    numbers(out, "entry 1", &index[4..8])?;
    numbers(out, "entry 2", &index[8..12])?;
    numbers(out, "entry 3", &index[12..16])?;
    ask(out, &bytes, 512, &index, &[4, 0, 0, 5, 511, 0, 6, 255, 0])
}

fn empty(out: &impl Print) -> io::Result<()> {
    let mut index = [7i32; 8];
    println!(out; "m = 0")?;
    outcome(out, "build", build::build(b"", 0, &mut index))?;
    numbers(out, "index", &index)?;
    ask(out, b"", 0, &index, &[13, 0, 0, 3, 0, 0])
}

// `()()()..`: how many numbers the index takes, and how many bits a word may have.
fn limits(out: &impl Print) -> io::Result<()> {
    let bytes = [0x55u8; 33];
    println!(out; "limits")?;
    outcome(
        out,
        "256 bits, 8 numbers",
        build::build(&bytes, 256, &mut [0; 8]),
    )?;
    outcome(
        out,
        "256 bits, 7 numbers",
        build::build(&bytes, 256, &mut [0; 7]),
    )?;
    outcome(
        out,
        "258 bits, 16 numbers",
        build::build(&bytes, 258, &mut [0; 16]),
    )?;
    outcome(
        out,
        "258 bits, 15 numbers",
        build::build(&bytes, 258, &mut [0; 15]),
    )?;
    outcome(out, "2097152 bits, no bytes", judge::judge(b"", 2097152))?;
    outcome(out, "2097153 bits, no bytes", judge::judge(b"", 2097153))
}

fn main(rt: HostRuntime) -> io::Result<()> {
    let out = rt.stdout();
    w(&out)?;
    v(&out)?;
    empty(&out)?;
    limits(&out)
}
