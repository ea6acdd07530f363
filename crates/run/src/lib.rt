// A house file answered: from the bytes that are read to the bytes that are printed.
// Word, questions, index and answers live in arrays sized for the largest file: 65,536 bits, 1,024 questions, 256 leaves.
#![tactic(auto)]

ghost use Rattle.std.specs.Prelude.{◌≡◌, ◌%◌, ◌≤◌, length};
ghost use Rattle.word.specs.Bits.{bytes_of};
ghost use Rattle.judge.specs.Refusal.{outcome};
ghost use Rattle.text.specs.Text.{Put};
ghost use Rattle.run.specs.Output.{answered, output, Ran};
ghost use Rattle.run.specs.RanAs.{ran_as};
ghost use Rattle.run.specs.Replied.{Replied};
ghost use Rattle.run.specs.Sound.{Sound};

use judge::Refusal;
pub use no_room::NoRoom;

mod no_room;

// A sound file's questions asked over an index built here, and a line for each answer; or the row's refusal. The room for the answers is
// made once the row has been judged. Bytes and m are handed on as the calls take them.
fn ask(bytes: &[u8], m: u32, numbers: &[u32], out: &mut [u8]) -> Result<usize, Refusal>
    requires { Sound bytes.now m numbers.now out.old }
    ensures { Replied bytes.now m numbers.now out.old result out.new }
{
    let mut index = [0i32; 2048];
    build::build(bytes, m, &mut index)?;
    let mut answers = [0u32; 3072];
    let n = batch::batch(bytes, m, &index, numbers, &mut answers)?;
    Ok(text::put_lines(&answers[..3 * n], out))
}

// A file's word and questions, once the file is sound: a line for each answer, or the word's refusal.
fn answer(bytes: &[u8], m: u32, numbers: &[u32], out: &mut [u8]) -> usize
    requires { Sound bytes.now m numbers.now out.old }
    ensures { Put (answered bytes.now m numbers.now) out.old 0 result out.new }
{
    match ask(bytes, m, numbers, out) {
        Ok(end) => end,
        Err(refusal) => text::put_refusal(u32::from(refusal), out),
    }
}

// The text of a file, over the front of the output; gives back how long it is.
fn print(file: &[u8], out: &mut [u8]) -> usize
    requires { 33792 ≤ length out.old }
    ensures { Put (output file.now) out.old 0 result out.new }
{
    let mut word = [0u8; 8192];
    let mut numbers = [0u32; 3072];
    match house::read(file, &mut word, &mut numbers) {
        Ok(h) => answer(&word[..h.bytes], h.m, &numbers[..3 * h.asked], out),
        Err(fault) => text::put_refusal(u32::from(fault), out),
    }
}

// The length of the text, which is written over the front of `output`: nothing is put on the heap. Fewer than 33,792 bytes lent, which is
// 1,024 lines of three numbers of ten digits with a byte after each: refused, and nothing is written.
pub fn run(input: &[u8], output: &mut [u8]) -> Result<usize, NoRoom>
    ensures { Ran input.now output.old (ran_as result) output.new }
{
    if output.len() < 33792 {
        return Err(NoRoom);
    }
    Ok(print(input, output))
}
