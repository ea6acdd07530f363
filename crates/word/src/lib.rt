// Reading one parenthesis of a row: the lowest thing the code does.
#![tactic(auto)]

ghost use Rattle.std.specs.Prelude.{◌≡◌, ◌*◌, ◌<◌, length};
ghost use Rattle.word.specs.Bits.{bit};

pub use row::Row;

mod row;

// "Bit i is in byte i/8 and has weight 2^(i mod 8) there; 1 opens, 0 closes."
pub fn opens(bytes: &[u8], i: usize) -> bool
    requires { i < 8 * length bytes.now }
    ensures { result ≡ bit bytes.now i }
{
    (bytes[i / 8] >> (i % 8)) & 1 == 1
}
