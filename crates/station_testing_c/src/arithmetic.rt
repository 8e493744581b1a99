// Calculations on integers and decimals.
ghost use Rattle.std.specs.Prelude.{◌≡◌};
ghost use Rattle.numbers.specs.Parts.{whole_of};
ghost use Rattle.numbers.specs.Places.{rounded_to};
ghost use Rattle.station_testing.specs.Codes.{on_integers, on_decimals, on_one, quantity_of, compared_by, ToldResult, ToldUnits};

#[unsafe(no_mangle)]
pub extern "C" fn station_integers(operation: u32, a: i64, b: i64, res: &mut i64) -> u32
    ensures { ToldResult (on_integers operation a b) res.old res.new result }
{
    station_testing::arithmetic::station_integers(operation, a, b, res)
}

#[unsafe(no_mangle)]
pub extern "C" fn station_decimals(operation: u32, a: i64, b: i64, res: &mut i64) -> u32
    ensures { ToldResult (on_decimals operation a b) res.old res.new result }
{
    station_testing::arithmetic::station_decimals(operation, a, b, res)
}

#[unsafe(no_mangle)]
pub extern "C" fn station_one(operation: u32, a: i64, res: &mut i64) -> u32
    ensures { ToldResult (on_one operation a) res.old res.new result }
{
    station_testing::arithmetic::station_one(operation, a, res)
}

#[unsafe(no_mangle)]
pub extern "C" fn station_compare(test: u32, kind: u8, a: i64, other: u8, b: i64) -> bool
    ensures { result ≡ compared_by test (quantity_of kind a) (quantity_of other b) }
{
    station_testing::arithmetic::station_compare(test, kind, a, other, b)
}

// The integer next to a number, toward zero.
#[unsafe(no_mangle)]
pub extern "C" fn station_whole(kind: u8, n: i64) -> i64
    ensures { result ≡ whole_of (quantity_of kind n) }
{
    station_testing::arithmetic::station_whole(kind, n)
}

// Whether there is a rounded magnitude; it goes to `units`.
#[unsafe(no_mangle)]
pub extern "C" fn station_rounded(kind: u8, n: i64, places: usize, units: &mut u64) -> bool
    ensures { ToldUnits (rounded_to (quantity_of kind n) places) units.old units.new result }
{
    station_testing::arithmetic::station_rounded(kind, n, places, units)
}
