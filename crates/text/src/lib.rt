// The printed text: numbers in decimal, a line for each answer, or a refusal.
#![tactic(auto)]

ghost use Rattle.std.specs.Prelude.{◌≡◌, ◌∷◌, [], ◌+◌, ◌*◌, ◌<◌, ◌≤◌, ◌%◌, length};
ghost use Rattle.text.specs.Text.{Put, digits, number, line, lines, refusal};
ghost use Rattle.text.specs.Page.{Writes};

fn put_byte(b: u8, out: &mut [u8], at: usize) -> usize
    requires { at < length out.old }
    ensures { Put (b ∷ []) out.old at result out.new }
{
    out[at] = b;
    at + 1
}

// The digits of n over `out` from place `at` on, and the place past them. Those before the last are those of n / 10, so the most
// significant one is written first. The place is handed on as a value, and a page's methods are inlined: were it kept in memory, each digit
// would wait until the one before it had stored it. The tests are two branches, each foreseen by itself; joined by `||` they take a sixth
// longer. std's text of a number would come in a buffer of its own, to be copied here, and by a rule of its own, to be shown the same as
// document 01's.
fn put_digits(n: u32, k: usize, out: &mut [u8], at: usize) -> usize
    requires { at + k + 1 ≤ length out.old }
    ensures { Put (digits k n) out.old at result out.new }
{
    let last = b'0' + (n % 10) as u8;
    if k == 0 {
        return put_byte(last, out, at);
    }
    if n < 10 {
        return put_byte(last, out, at);
    }
    let to = put_digits(n / 10, k - 1, out, at);
    put_byte(last, out, to)
}

// The bytes that are written over, and the place of the next.
#[derive(Drop)]
struct Page<'a> {
    out: &'a mut [u8],
    at: usize,
}

impl Page<'_> {
    #[inline(always)]
    fn number(&mut self, n: u32, after: u8)
        requires { self.old.at + 11 ≤ length self.old.out.now }
        ensures { Writes (number n after) self.old self.new }
    {
        let to = put_digits(n, 9, self.out, self.at);
        self.at = put_byte(after, self.out, to);
    }

    // Code, result and reads are the numbers of a batch's slice, as C is given them.
    #[inline(always)]
    fn line(&mut self, code: u32, res: u32, reads: u32)
        requires { self.old.at + 33 ≤ length self.old.out.now }
        ensures { Writes (line code res reads) self.old self.new }
    {
        self.number(code, b' ');
        self.number(res, b' ');
        self.number(reads, b'\n');
    }
}

// "prints code, result and reads for each question, single spaces, one line each": the answers are one slice of numbers, as C lends it.
pub fn put_lines(answers: &[u32], out: &mut [u8]) -> usize
    requires { (length answers.now % 3 ≡ 0) × (11 * length answers.now ≤ length out.old) }
    ensures { Put (lines answers.now) out.old 0 result out.new }
{
    let mut page = Page { out, at: 0 };
    for a in answers.chunks_exact(3) {
        page.line(a[0], a[1], a[2]);
    }
    page.at
}

// "or only `refused` and the number", whichever enum it is a number of.
pub fn put_refusal(code: u32, out: &mut [u8]) -> usize
    requires { 19 ≤ length out.old }
    ensures { Put (refusal code) out.old 0 result out.new }
{
    fill::copy(b"refused ", out, 0);
    let mut page = Page { out, at: 8 };
    page.number(code, b'\n');
    page.at
}
