// What an edit is handed: the bytes of a cell, or of a key.
ghost use Rattle.cells.specs.Cell.{whole_cell, whole_key};
ghost use Rattle.cells.specs.Inner.Request.{CellAsked, KeyAsked};

use crate::{bytes, form};

// Whether these bytes are one cell in form, and its key.
pub fn cell_request(cell: &[u8]) -> Option<u64>
    ensures { CellAsked cell.now (whole_cell cell.now) result }
{
    let size = form::cell_size(cell)?;
    if size < cell.len() {
        return None;
    }
    Some(bytes::key_number(cell, 1))
}

// Whether these bytes are one key in form.
pub fn key_request(key: &[u8]) -> Option<u64>
    ensures { KeyAsked (whole_key key.now) result }
{
    if key.len() == 7 && form::key_allowed(key, 0) {
        return Some(bytes::key_number(key, 0));
    }
    None
}
