// Reading a house file: the word's size, its bytes and the questions, or the first fault.
// A field is read where it stands; only what is gathered, word bytes and questions, is copied, once.
#![tactic(auto)]

ghost use Rattle.std.specs.Prelude.{◌≡◌, ◌+◌, ◌*◌, ◌<◌, ◌≤◌, length};
ghost use Rattle.std.proofs.lemmas.List.Edits.{sets};
ghost use Rattle.judge.specs.Numbered.{numbered};
ghost use Rattle.house.specs.Faults.{number_of};
ghost use Rattle.house.specs.Tags.{byte_of};
ghost use Rattle.house.specs.Fields.{four_at, length_at, value_at, cut_short, out_of_place, wrong_length};
ghost use Rattle.house.specs.Fields.{told, size_field, word_field, question_field, field_at};
ghost use Rattle.house.specs.File.{three_of, Read, ended, start, sized, worded, questioned};

pub use fault::Fault;
use tag::Tag;

mod fault;
mod tag;

// How far the fields before have come: to none, to where the word may go on, or to a question.
#[derive(Clone, Copy, PartialEq, Eq)]
pub enum Stage {
    First,
    Bytes,
    Questions,
}

// What the fields before the place `at` have told. `m` is 0 before the first, and no Option, since past it each field would unwrap it.
// The bounds of `at` and `bytes` are clauses of the functions below: a struct with a ghost field cannot be written with `..self`.
#[derive(Clone, Copy)]
pub struct State {
    pub at: usize,
    pub stage: Stage,
    pub m: u32,
    pub bytes: usize,
    pub asked: usize,
}

// A field with no fault. "A field's bytes are handed on as that part of the input, uncopied": the next stretch of word bytes, or a
// question's twelve.
#[derive(Clone, Copy)]
pub enum Field<'a> {
    Size(u32),
    Word(&'a [u8]),
    Question(&'a [u8]),
}

// What a sound file brings: m, how many word bytes and how many questions.
#[derive(Clone, Copy)]
pub struct House {
    pub m: u32,
    pub bytes: usize,
    pub asked: usize,
}

// The state before the first field, and after a field of each tag.
impl State {
    fn start() -> Self
        ensures { result ≡ start }
    {
        State {
            at: 0,
            stage: Stage::First,
            m: 0,
            bytes: 0,
            asked: 0,
        }
    }

    fn sized(self, m: u32) -> Self
        requires { self.at ≤ 49152 }
        ensures { result ≡ sized self m }
    {
        State {
            at: self.at + 7,
            stage: Stage::Bytes,
            m,
            ..self
        }
    }

    fn worded(self, len: usize) -> Self
        requires { (self.at ≤ 49152) × (self.bytes + len ≤ 8192) }
        ensures { result ≡ worded self len }
    {
        State {
            at: self.at + 3 + len,
            stage: Stage::Bytes,
            bytes: self.bytes + len,
            ..self
        }
    }

    fn questioned(self) -> Self
        requires { (self.at ≤ 49152) × (self.asked ≤ 1024) }
        ensures { result ≡ questioned self }
    {
        State {
            at: self.at + 15,
            stage: Stage::Questions,
            asked: self.asked + 1,
            ..self
        }
    }
}

// "all numbers most significant first": a field's two-byte length, and a number of four bytes. File and place stay two: a field holds its
// part of the file once its head is read.
fn length_at(file: &[u8], at: usize) -> usize
    requires { at + 3 ≤ length file.now }
    ensures { (result ≡ length_at file.now at) × (result < 65536) }
{
    usize::from(u16::from_be_bytes([file[at + 1], file[at + 2]]))
}

fn four_at(file: &[u8], i: usize) -> u32
    requires { i + 4 ≤ length file.now }
    ensures { result ≡ four_at file.now i }
{
    u32::from_be_bytes([file[i], file[i + 1], file[i + 2], file[i + 3]])
}

// The bytes of the field at `at`, as that part of the file.
fn value(file: &[u8], at: usize, len: usize) -> &[u8]
    requires { at + 3 + len ≤ length file.now }
    ensures { result.now ≡ value_at file.now at len }
{
    let from = at + 3;
    &file[from..from + len]
}

fn cut_short(file: &[u8], at: usize) -> bool
    requires { at ≤ length file.now }
    ensures { result ≡ cut_short file.now at }
{
    let left = file.len() - at;
    left < 3 || left - 3 < length_at(file, at)
}

fn out_of_place(tag: Tag, stage: Stage) -> bool
    ensures { result ≡ out_of_place (byte_of tag) stage }
{
    match tag {
        Tag::Size => stage != Stage::First,
        Tag::Word => stage != Stage::Bytes,
        Tag::Question => stage == Stage::First,
    }
}

fn wrong_length(tag: Tag, len: usize) -> bool
    ensures { result ≡ wrong_length (byte_of tag) len }
{
    match tag {
        Tag::Size => len != 4,
        Tag::Word => len == 0,
        Tag::Question => len != 12,
    }
}

// The last tests of a field stay three: each has a limit of its own, and a field of its own.
fn size_field<'a>(m: u32) -> Result<Field<'a>, Fault>
    ensures { told result ≡ size_field m }
{
    if 65536 < m {
        return Err(Fault::TooMuch);
    }
    Ok(Field::Size(m))
}

fn word_field(s: State, part: &[u8]) -> Result<Field<'_>, Fault>
    requires { (s.bytes ≤ 8192) × (length part.now < 65536) }
    ensures { told result ≡ word_field s part.now }
{
    if judge::bytes_of(s.m) < s.bytes + part.len() {
        return Err(Fault::TooMuch);
    }
    Ok(Field::Word(part))
}

fn question_field(s: State, part: &[u8]) -> Result<Field<'_>, Fault>
    ensures { told result ≡ question_field s part.now }
{
    if 1023 < s.asked {
        return Err(Fault::TooMuch);
    }
    Ok(Field::Question(part))
}

// "Then the first faulty field decides, in this order: 31 .. 32 .. 33 .. 34 .. 35"
fn field_at(file: &[u8], s: State) -> Result<Field<'_>, Fault>
    requires { (s.at < length file.now) × (s.bytes ≤ 8192) }
    ensures { told result ≡ field_at file.now s }
{
    let at = s.at;
    if cut_short(file, at) {
        return Err(Fault::CutShort);
    }
    let tag = Tag::try_from(file[at])?;
    if out_of_place(tag, s.stage) {
        return Err(Fault::OutOfPlace);
    }
    let len = length_at(file, at);
    if wrong_length(tag, len) {
        return Err(Fault::WrongLength);
    }
    let part = value(file, at, len);
    match tag {
        Tag::Size => size_field(four_at(part, 0)),
        Tag::Word => word_field(s, part),
        Tag::Question => question_field(s, part),
    }
}

// A question's value: its three numbers, over `numbers` from place `to` on. Three stores: by `fill::copy` reading a question took half as
// long again.
fn put_three(value: &[u8], numbers: &mut [u32], to: usize)
    requires { (length value.now ≡ 12) × (to + 3 ≤ length numbers.old) }
    ensures { numbers.new ≡ sets numbers.old to (three_of value.now) }
{
    numbers[to] = four_at(value, 0);
    numbers[to + 1] = four_at(value, 4);
    numbers[to + 2] = four_at(value, 8);
}

fn ending(s: State) -> Result<House, Fault>
    ensures { numbered number_of result ≡ ended s }
{
    if s.stage == Stage::First {
        return Err(Fault::CutShort);
    }
    if s.bytes < judge::bytes_of(s.m) {
        return Err(Fault::TooFewBytes);
    }
    Ok(House {
        m: s.m,
        bytes: s.bytes,
        asked: s.asked,
    })
}

// The whole file: word bytes and questions' numbers over the lent arrays from their fronts. Nothing is put on the heap, so the
// arrays are lent at their full size, room for the most that a file may hold; House's two counts tell how much of each was filled.
pub fn read(file: &[u8], word: &mut [u8; 8192], numbers: &mut [u32; 3072]) -> Result<House, Fault>
    ensures { Read file.now word.old numbers.old result word.new numbers.new }
{
    if 49152 < file.len() {
        return Err(Fault::TooMuch);
    }
    let mut s = State::start();
    while s.at < file.len() {
        match field_at(file, s)? {
            Field::Size(m) => {
                s = s.sized(m);
            }
            Field::Word(part) => {
                fill::copy(part, word, s.bytes);
                s = s.worded(part.len());
            }
            Field::Question(part) => {
                put_three(part, numbers, 3 * s.asked);
                s = s.questioned();
            }
        }
    }
    ending(s)
}
