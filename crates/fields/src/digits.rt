// Decimal digits of a magnitude, counted and written.
ghost use Rattle.std.specs.Prelude.{◌≡◌, ◌+◌, ◌≤◌, length};
ghost use Rattle.std.proofs.lemmas.List.Edits.{sets};
ghost use Rattle.fields.specs.Digits.{digit_count, digits};

// How many digits a number has, one at least.
pub fn digit_count(n: u64) -> usize
    ensures { result ≡ digit_count n }
{
    let mut m = n;
    let mut count = 1;
    // A number is divided, no index counted.
    while 10 <= m {
        m /= 10;
        count += 1;
    }
    count
}

// The last `count` digits of `n` at a place, the last digit first: each is what is left modulo ten.
pub fn put_digits(buffer: &mut [u8], at: usize, count: usize, n: u64)
    requires { at + count ≤ length buffer.old }
    ensures { buffer.new ≡ sets buffer.old at (digits count n) }
{
    let mut m = n;
    for written in 0..count {
        buffer[at + count - 1 - written] = b'0' + (m % 10) as u8;
        m /= 10;
    }
}
