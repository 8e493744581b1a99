// The field that is printed most: a cell without entry and filter.
ghost use Rattle.texts.specs.Inner.CellField.{ReadsField};

use crate::text;
use arguments::cell;
use arguments::index::Index;
use scan::digits;

// The cell's parameter and its record's index, 0 where it has none; the field's width and places; the place behind it.
#[derive(Clone, Copy)]
pub struct CellField {
    pub parameter: usize,
    pub index: Index,
    pub width: usize,
    pub places: Option<usize>,
    pub next: usize,
}

// A field behind its opening brace.
#[tactic(auto, using(crate::proofs::CellFieldLaws::other_reads))]
pub fn cell_field_at(line: &[u8], at: usize) -> Option<CellField>
    ensures { ReadsField line.now at result }
{
    let (parameter, index, comma) = cell::cell_at(line, at)?;
    let (width, end) = digits::number_at(line, comma + 1, 32)?;
    let (places, next) = text::places_at(line, end)?;
    Some(CellField {
        parameter,
        index,
        width,
        places,
        next,
    })
}
