// 5: "A section name came before; the later line is named."
ghost use Rattle.std.specs.Prelude.{◌≡◌, ◌≤◌, ◌<◌, length};
ghost use Rattle.scan.specs.Line.{window};
ghost use Rattle.template.specs.Inner.Sorted.{Sorted, Position, stands_in, Inserted};
ghost use Rattle.meaning.specs.declared.refusal.Refusal.TheVariants.{RepeatedSection};
ghost use Rattle.template.specs.Verdicts.{fault_refused};
ghost use Rattle.template.specs.Checks.{name_check};

use crate::names;
use meaning::refusal::Refusal;

// So many sections a template can have: "$SEC A" and a line end are seven bytes.
const MOST_SECTIONS: usize = 4_681;

// The eight bytes in which a name of the row lies; a shorter name ends at its line end.
fn eight_at(template: &[u8], place: u16) -> &[u8]
    ensures { result.now ≡ window template.now place 8 }
{
    scan::bytes::part(template, usize::from(place), 8)
}

// The first position whose name isn't below a name. The last name is tried first, as names mostly count up.
fn position(template: &[u8], places: &[u16], count: usize, name: &[u8]) -> usize
    requires { Sorted template.now places.now count }
    ensures { Position template.now places.now count name.now result }
{
    if 0 < count && names::is_below(eight_at(template, places[count - 1]), name) {
        return count;
    }
    places[..count].partition_point(|&place| names::is_below(eight_at(template, place), name))
}

// Whether a name stands at a position of the row.
#[tactic(auto, unfolding(crate::specs::Inner::Sorted::stands_in))]
fn stands_in(template: &[u8], places: &[u16], count: usize, i: usize, name: &[u8]) -> bool
    requires { count ≤ length places.now }
    ensures { result ≡ stands_in template.now places.now count i name.now }
{
    i < count && names::same_bytes(name, scan::bytes::line_of(eight_at(template, places[i])))
}

// A place more in the row, at a position. What stands from there on is moved as a row of its own: the
// compiler makes one memmove of a move from a row's start on.
fn insert(places: &mut [u16], count: usize, i: usize, at: usize)
    requires { (count < length places.old) × (i ≤ count) × (at < 65536) }
    ensures { Inserted places.old count i at places.new }
{
    places[i..].copy_within(..count - i, 1);
    places[i] = at as u16;
}

// The places of the names before stand in a row, in the order of the names. A line that isn't $SEC has the empty name; a name
// starts behind "$SEC ".
pub fn check(template: &[u8]) -> Result<(), (Refusal, u32)>
    requires { length template.now ≤ 32768 }
    ensures { result ≡ fault_refused RepeatedSection (name_check template.now) }
{
    let mut at = 0;
    let mut lines: u32 = 0;
    let mut places = [0u16; MOST_SECTIONS];
    let mut count = 0;
    // A slice's `split` has an empty line behind the last line end, and no places.
    while at < template.len() {
        let line = scan::bytes::line_of(&template[at..]);
        let name = names::name_of(line);
        let place = at + 5;
        at += line.len() + 1;
        lines += 1;
        if name.is_empty() {
            continue;
        }
        let i = position(template, &places, count, name);
        if stands_in(template, &places, count, i, name) {
            return Err((Refusal::RepeatedSection, lines));
        }
        insert(&mut places, count, i, place);
        count += 1;
    }
    Ok(())
}
