// Rows of numbers, and how they are handed back.
ghost use Rattle.std.specs.Prelude.{◌≡◌};
ghost use Rattle.buffers.specs.Buffer.{Stored};
ghost use Rattle.form_codes.specs.Row.{row_numbers, bare_row, row_with};

// What an index is, and its number.
#[derive(Clone, Copy)]
pub struct Pair(pub u64, pub u64);

// What an argument is, its five numbers, its filter.
#[derive(Clone, Copy)]
pub struct Seven(
    pub u64,
    pub u64,
    pub u64,
    pub u64,
    pub u64,
    pub u64,
    pub u64,
);

// What a line or a piece is, its number, two arguments.
#[derive(Clone, Copy)]
pub struct CodeRow(pub u64, pub u64, pub Seven, pub Seven);

pub fn bare_row(form: u64, number: u64) -> CodeRow
    ensures { result ≡ bare_row form number }
{
    CodeRow(
        form,
        number,
        Seven(0, 0, 0, 0, 0, 0, 0),
        Seven(0, 0, 0, 0, 0, 0, 0),
    )
}

pub fn row_with(form: u64, number: u64, first: Seven) -> CodeRow
    ensures { result ≡ row_with form number first }
{
    CodeRow(form, number, first, Seven(0, 0, 0, 0, 0, 0, 0))
}

// Whether there was room for the row.
pub fn put_row(numbers: &mut [u64], row: CodeRow) -> bool
    ensures { Stored numbers.old 0 (row_numbers row) numbers.new result }
{
    if numbers.len() < 16 {
        return false;
    }
    let f = row.2;
    let s = row.3;
    let listed = [
        row.0, row.1, f.0, f.1, f.2, f.3, f.4, f.5, f.6, s.0, s.1, s.2, s.3, s.4, s.5, s.6,
    ];
    numbers[..16].copy_from_slice(&listed);
    true
}
