// The parsed form of a line, and of a piece of its text.
ghost use Rattle.buffers.specs.Buffer.{Stored};
ghost use Rattle.form_codes.specs.Line.{line_numbers};
ghost use Rattle.form_codes.specs.Piece.{piece_numbers};

pub fn station_line(line: &[u8], numbers: &mut [u64]) -> bool
    ensures { Stored numbers.old 0 (line_numbers line.now) numbers.new result }
{
    form_codes::line::write_line(line, numbers)
}

pub fn station_piece(line: &[u8], at: usize, numbers: &mut [u64]) -> bool
    ensures { Stored numbers.old 0 (piece_numbers line.now at) numbers.new result }
{
    form_codes::piece::write_piece(line, at, numbers)
}
