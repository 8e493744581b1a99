// The characters of a number, and of a string, in a place that has room for them.
ghost use Rattle.std.specs.Prelude.{◌≡◌, ◌++◌, ◌+◌, ◌/◌, ◌≤◌, length, replicate};
ghost use Rattle.std.proofs.lemmas.List.Edits.{sets};
ghost use Rattle.fields.specs.Digits.{digits};
ghost use Rattle.fields.specs.Field.{hyphen, minus, fraction, unsigned, right_in, left_in};

use crate::digits;

// How many bytes the sign takes: "zero has no minus".
#[tactic(auto, unfolding(crate::specs::Field::minus))]
fn sign_length(below: bool, u: u64) -> usize
    ensures { result ≡ length (minus below u) }
{
    if below && u != 0 { 1 } else { 0 }
}

// How many bytes point and fraction take: "0 places no point".
#[tactic(auto, using(crate::proofs::FieldLaws::fraction_none, crate::proofs::FieldLaws::length_fraction))]
fn fraction_length(d: usize) -> usize
    requires { d ≤ 6 }
    ensures { result ≡ length (fraction d 0) }
{
    if d == 0 { 0 } else { d + 1 }
}

// The point and the fraction of u units of the last of d places.
#[tactic(auto, using(crate::proofs::FieldLaws::fraction_none, crate::proofs::FieldLaws::length_fraction, crate::proofs::FieldLaws::fraction_put))]
fn put_fraction(buffer: &mut [u8], at: usize, d: usize, u: u64)
    requires { (at + length (fraction d u) ≤ length buffer.old) × (d ≤ 6) }
    ensures { buffer.new ≡ sets buffer.old at (fraction d u) }
{
    if d == 0 {
        return;
    }
    buffer[at] = b'.';
    digits::put_digits(buffer, at + 1, d, u);
}

// Sign, whole part and fraction of u units of the last of d places. `sign` and `count` are their lengths.
#[tactic(auto, using(crate::proofs::FieldLaws::text_put))]
fn put_text(buffer: &mut [u8], at: usize, sign: usize, count: usize, whole: u64, d: usize, u: u64)
    requires { (at + sign + count + length (fraction d u) ≤ length buffer.old) × (d ≤ 6) }
    ensures { buffer.new ≡ sets buffer.old at (replicate sign hyphen ++ (digits count whole ++ fraction d u)) }
{
    buffers::fill(buffer, at, sign, b'-');
    digits::put_digits(buffer, at + sign, count, whole);
    put_fraction(buffer, at + sign + count, d, u);
}

// "numbers are right-aligned"; "A number too long becomes w asterisks".
#[tactic(auto, using(numbers::proofs::Laws::scale_power, crate::proofs::FieldLaws::starred, crate::proofs::FieldLaws::spaced, crate::proofs::FieldLaws::sign_short, crate::proofs::FieldLaws::fraction_short, crate::proofs::FieldLaws::fraction_same))]
pub fn put_units(buffer: &mut [u8], at: usize, width: usize, d: usize, below: bool, u: u64)
    requires { (at + width ≤ length buffer.old) × (d ≤ 6) }
    ensures { buffer.new ≡ sets buffer.old at (right_in width (minus below u ++ unsigned d u)) }
{
    let whole = u / numbers::places::scale(d);
    let count = digits::digit_count(whole);
    let sign = sign_length(below, u);
    let length = sign + count + fraction_length(d);
    if width < length {
        buffers::fill(buffer, at, width, b'*');
        return;
    }
    let spaces = width - length;
    buffers::fill(buffer, at, spaces, b' ');
    put_text(buffer, at + spaces, sign, count, whole, d, u);
}

// "Strings are left-aligned, filled with spaces or cut to w".
#[tactic(auto, using(crate::proofs::FieldLaws::filled, crate::proofs::FieldLaws::cut_off))]
pub fn put_string(buffer: &mut [u8], at: usize, width: usize, bytes: &[u8])
    requires { at + width ≤ length buffer.old }
    ensures { buffer.new ≡ sets buffer.old at (left_in width bytes.now) }
{
    let length = bytes.len();
    if length < width {
        buffers::write(buffer, at, bytes);
        buffers::fill(buffer, at + length, width - length, b' ');
        return;
    }
    buffers::write(buffer, at, &bytes[..width]);
}
