// The registers of a run: two rows that are lent, and every place in them.
ghost use Rattle.std.specs.Prelude.{◌≡◌, ◌++◌, ◌+◌, ◌≤◌, pos, length, drop, replicate};
ghost use Rattle.values.specs.Machine as M;
ghost use Rattle.values.specs.Inner.State.{bank, integers_in, decimals_in, lengths_in, records_in, entries_in, headings_in};
ghost use Rattle.values.specs.Inner.Registers.{Puts};

// IV1 to IV99, then FV1 to FV99.
pub type Numbers = [i64; 198];

pub const INTEGERS: usize = 0;

pub const DECIMALS: usize = 99;

// The lengths of SV1 to SV99, then R1 to R10, T1 to T10, the headings 1 to 9, the tables that are open, each in four words, and the
// jumps that are remembered.
pub type Words = [u64; 212];

pub const LENGTHS: usize = 0;

pub const RECORDS: usize = 99;

pub const ENTRIES: usize = 109;

pub const HEADINGS: usize = 119;

pub const TABLES: usize = 128;

pub const JUMPS: usize = 148;

// The n-th of a part of a row, counted from 1; `none` for any other.
fn nth<T: Copy, const N: usize>(row: &[T; N], from: usize, size: usize, n: usize, none: T) -> T
    requires { from + size ≤ N }
    ensures { result ≡ M.numbered none (bank from size row.now) n }
{
    if n < 1 || size < n {
        return none;
    }
    row[from + (n - 1)]
}

// IVn; 0 for any other.
pub fn integer(numbers: &Numbers, n: usize) -> i64
    ensures { result ≡ M.numbered (pos 0) (integers_in numbers.now) n }
{
    nth(numbers, INTEGERS, 99, n, 0)
}

// FVn; 0 for any other.
pub fn decimal(numbers: &Numbers, n: usize) -> i64
    ensures { result ≡ M.numbered (pos 0) (decimals_in numbers.now) n }
{
    nth(numbers, DECIMALS, 99, n, 0)
}

// How long SVn is; 0 for any other.
pub fn length(words: &Words, n: usize) -> usize
    ensures { result ≡ M.numbered 0 (lengths_in words.now) n }
{
    nth(words, LENGTHS, 99, n, 0) as usize
}

// What Rn fetched; 0, which is nothing, for any other.
pub fn record_word(words: &Words, n: usize) -> u64
    ensures { result ≡ M.numbered 0 (records_in words.now) n }
{
    nth(words, RECORDS, 10, n, 0)
}

// What Tn fetched.
pub fn entry_word(words: &Words, n: usize) -> u64
    ensures { result ≡ M.numbered 0 (entries_in words.now) n }
{
    nth(words, ENTRIES, 10, n, 0)
}

// Heading n; 0, which is none, for any other.
pub fn heading_word(words: &Words, n: usize) -> u64
    ensures { result ≡ M.numbered 0 (headings_in words.now) n }
{
    nth(words, HEADINGS, 9, n, 0)
}

// The n-th of a part of a row, counted from 1, is x now; any other stays.
pub fn put<T: Copy, const N: usize>(row: &mut [T; N], from: usize, size: usize, n: usize, x: T)
    requires { from + size ≤ N }
    ensures { Puts row.old from size n x row.new }
{
    if n < 1 || size < n {
        return;
    }
    row[from + (n - 1)] = x;
}

// "Each executed $SEC sets IV and FV to 0, SV to empty, clears R, T and headings": rows of zeros. IV and FV.
pub fn clear_numbers(row: &mut Numbers)
    requires { 198 ≤ length row.old }
    ensures { row.new ≡ replicate 198 (pos 0) ++ drop 198 row.old }
{
    row.fill(0);
}

// SV, R, T and the headings: a string of length 0 is empty, a word of 0 has fetched nothing, and is an undefined heading. The jumps
// stay: they are about the template alone.
pub fn clear_words(row: &mut Words)
    requires { 128 ≤ length row.old }
    ensures { row.new ≡ replicate 128 0 ++ drop 128 row.old }
{
    row[..TABLES].fill(0);
}
