// The names of sections.
//
// name_of      the name in a line
// same_bytes   whether two names are the same
// is_below     whether the name at the front of some bytes comes before another in their order
ghost use Rattle.std.specs.Prelude.{◌≡◌};
ghost use Rattle.scan.specs.Line.{line_of};
ghost use Rattle.template.specs.Name.{name_of, same_bytes};
ghost use Rattle.template.specs.Inner.Sorted.{is_below};

// A section's name by its first eight characters; empty where the line isn't $SEC.
pub fn name_of(line: &[u8]) -> &[u8]
    ensures { result.now ≡ name_of line.now }
{
    if scan::words::begins_with(line, 0, b"$SEC ") {
        return scan::bytes::part(line, 5, 8);
    }
    b""
}

// Whether two names are the same.
#[tactic(auto, using(crate::proofs::SectionNames::same_law))]
pub fn same_bytes(a: &[u8], b: &[u8]) -> bool
    ensures { result ≡ same_bytes a.now b.now }
{
    a == b
}

// Whether some bytes up to their line end come before a name, by the first byte in which they differ.
// Byte by byte: with the line end sought first and then `<` of slices, check 5 took half as long again.
pub fn is_below(rest: &[u8], name: &[u8]) -> bool
    ensures { result ≡ is_below (line_of rest.now) name.now }
{
    for (i, &b) in name.iter().enumerate() {
        let Some(&a) = rest.get(i) else {
            return true;
        };
        if a == b'\n' {
            return true;
        }
        if a != b {
            return a < b;
        }
    }
    false
}
