// House files, and what `lineage` prints for each: every refusal, the smallest and the largest.
#![tactic(auto)]

ghost use Rattle.std.specs.Prelude.{◌≡◌, ◌+◌, ◌≤◌, ◌<◌, length};

use std::io;

// What is shown, and below it what is printed for the file.
fn show(out: &impl Print, what: &[u8], file: &[u8]) -> io::Result<()> {
    let mut output = [0u8; 33792];
    let Ok(k) = run::run(file, &mut output) else {
        return Ok(());
    };
    out.write_all(what)?;
    out.write_all(&output[..k])
}

fn cut_short(out: &impl Print) -> io::Result<()> {
    show(out, b"empty input\n", b"")?;
    show(out, b"a head cut short\n", &[1, 0])?;
    show(out, b"a value cut short\n", &[1, 0, 4, 0, 0, 0])?;
    show(out, b"an unknown tag, cut short\n", &[9])
}

fn unknown(out: &impl Print) -> io::Result<()> {
    show(out, b"an unknown tag first\n", &[9, 0, 0])?;
    show(
        out,
        b"an unknown tag later\n",
        &[1, 0, 4, 0, 0, 0, 0, 0, 0, 0],
    )
}

fn out_of_place(out: &impl Print) -> io::Result<()> {
    show(out, b"word bytes first\n", &[2, 0, 1, 0])?;
    show(out, b"m twice\n", &[1, 0, 4, 0, 0, 0, 0, 1, 0, 0])?;
    let late = [
        1u8, 0, 4, 0, 0, 0, 2, 3, 0, 12, 0, 0, 0, 1, 0, 0, 0, 0, 0, 0, 0, 0, 2, 0, 1, 1,
    ];
    show(out, b"word bytes after a question\n", &late)
}

fn wrong_length(out: &impl Print) -> io::Result<()> {
    show(out, b"m in three bytes\n", &[1, 0, 3, 0, 0, 0])?;
    show(
        out,
        b"no word bytes in their field\n",
        &[1, 0, 4, 0, 0, 0, 0, 2, 0, 0],
    )?;
    show(
        out,
        b"a question of one byte\n",
        &[1, 0, 4, 0, 0, 0, 0, 3, 0, 1, 0],
    )
}

fn too_much(out: &impl Print) -> io::Result<()> {
    show(out, b"m is 65,537\n", &[1, 0, 4, 0, 1, 0, 1])?;
    show(
        out,
        b"two word bytes for eight bits\n",
        &[1, 0, 4, 0, 0, 0, 8, 2, 0, 2, 85, 85],
    )
}

fn word_refused(out: &impl Print) -> io::Result<()> {
    show(
        out,
        b"one word byte for twelve bits\n",
        &[1, 0, 4, 0, 0, 0, 12, 2, 0, 1, 85],
    )?;
    show(out, b"not balanced\n", &[1, 0, 4, 0, 0, 0, 2, 2, 0, 1, 2])?;
    show(
        out,
        b"an odd number of bits\n",
        &[1, 0, 4, 0, 0, 0, 1, 2, 0, 1, 1],
    )
}

fn answered(out: &impl Print) -> io::Result<()> {
    show(out, b"no questions\n", &[1, 0, 4, 0, 0, 0, 2, 2, 0, 1, 1])?;
    let empty = [
        1u8, 0, 4, 0, 0, 0, 0, 3, 0, 12, 0, 0, 0, 13, 0, 0, 0, 0, 0, 0, 0, 0, 3, 0, 12, 0, 0, 0, 3,
        0, 0, 0, 0, 0, 0, 0, 0,
    ];
    show(out, b"m is 0: 13 of 0, 0 and 3 of 0\n", &empty)?;
    let stretches = [
        1u8, 0, 4, 0, 0, 0, 12, 2, 0, 1, 0x5B, 2, 0, 1, 0xF4, 3, 0, 12, 0, 0, 0, 12, 0, 0, 0, 4, 0,
        0, 0, 6, 3, 0, 12, 0, 0, 0, 15, 0, 0, 0, 0, 0, 0, 0, 0,
    ];
    show(
        out,
        b"two stretches, bits past m, an unknown kind\n",
        &stretches,
    )
}

// A question of `kind` about place `a`, over the file from place `at` on.
fn put_question(file: &mut [u8], at: usize, kind: u8, a: u32)
    requires { at + 15 ≤ length file.old }
    ensures { length file.new ≡ length file.old }
{
    let [a0, a1, a2, a3] = a.to_be_bytes();
    fill::copy(
        &[3, 0, 12, 0, 0, 0, kind, a0, a1, a2, a3, 0, 0, 0, 0],
        file,
        at,
    );
}

// 32,768 openings and as many closings; then 1,025 questions of all kinds.
fn fill_largest(file: &mut [u8])
    requires { length file.old ≡ 49153 }
    ensures { length file.new ≡ 49153 }
{
    fill::copy(&[1, 0, 4, 0, 1, 0, 0, 2, 32, 0], file, 0);
    fill::copy(&[255u8; 4096], file, 10);
    for i in 0..1025u32 {
        put_question(file, 8202 + 15 * i as usize, (i % 14 + 1) as u8, 31 * i);
    }
}

fn last_line(text: &[u8]) -> &[u8] {
    text.split_inclusive(|&b| b == b'\n')
        .next_back()
        .unwrap_or(text)
}

// Of a long text, how many bytes it has and its last line. What it shares with `show` is an array and a call.
fn show_last(out: &impl Print, what: &[u8], file: &[u8]) -> io::Result<()> {
    let mut output = [0u8; 33792];
    let Ok(k) = run::run(file, &mut output) else {
        return Ok(());
    };
    out.write_all(what)?;
    println!(out; "{k} bytes")?;
    out.write_all(last_line(&output[..k]))
}

fn largest(out: &impl Print) -> io::Result<()> {
    let mut file = [0u8; 49153];
    fill_largest(&mut file);
    show_last(out, b"65,536 bits and 1,024 questions\n", &file[..23562])?;
    show(out, b"a 1,025th question\n", &file[..23577])?;
    show(out, b"49,153 bytes\n", &file)
}

fn main(rt: HostRuntime) -> io::Result<()> {
    let out = rt.stdout();
    cut_short(&out)?;
    unknown(&out)?;
    out_of_place(&out)?;
    wrong_length(&out)?;
    too_much(&out)?;
    word_refused(&out)?;
    answered(&out)?;
    largest(&out)
}
