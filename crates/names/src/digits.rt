// The decimal digits of an array position.
ghost use Rattle.std.specs.Prelude.{◌≡◌, length};
ghost use Rattle.names.specs.Digits.{digits};

use std::marker::Model;

// At most ten digits, and zeros after them: a text without the heap.
#[derive(Clone, Copy)]
pub struct Decimal {
    bytes: [u8; 10],
    len: usize,
}

// Clauses see the digits.
impl Model for Decimal {
    ghost use Rattle.std.specs.Prelude.{ℕ, List};

    ghost Value = { List ℕ };

    ghost use Rattle.names.specs.Padded.{digits_in, IsPadded, padded, padded-digits_in};

    ghost view = { digits_in };

    ghost invariant = { IsPadded };

    ghost inverse = { padded };

    ghost inverse_ok = { padded-digits_in };
}

impl Decimal {
    pub fn as_slice(&self) -> &[u8]
        ensures { result.now ≡ self.now }
    {
        &self.bytes[..self.len]
    }
}

// How many digits x has. By division, which is no iterator's: the library's logarithm has a table of powers of ten, and the constant data
// is to have none.
fn count_digits(x: u32) -> usize
    ensures { result ≡ length (digits x) }
{
    let mut count = 1;
    let mut rest = x;
    while rest >= 10 {
        rest /= 10;
        count += 1;
    }
    count
}

// The decimal digits of an array position.
pub fn digits_of(x: u32) -> Decimal
    ensures { result ≡ digits x }
{
    let len = count_digits(x);
    let mut bytes = [0; 10];
    let mut rest = x;
    for i in (0..len).rev() {
        bytes[i] = b'0' + (rest % 10) as u8;
        rest /= 10;
    }
    Decimal { bytes, len }
}
