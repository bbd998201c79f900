ghost use Rattle.std.specs.Prelude.{◌≡◌, min, true};
ghost use Rattle.panning.specs.Setup.{hall_with, table_right};
ghost use Rattle.panning.specs.Hall.{PannedIs};
ghost use Rattle.probes.specs.Taken.{table_if};

use panning::{Hall, Panned};
use store::hall_table;
use store::hall_table::HallTable;
use vectors::Vec3;

// In the 7.1.4 hall.
#[unsafe(no_mangle)]
pub extern "C" fn probe_pan(x: f32, y: f32, z: f32, gain: f32, size: f32) -> Panned
    ensures { PannedIs (hall_with 0) (record { x = x; y = y; z = z }) gain size result }
{
    panning::pan(&panning::HALL_714, Vec3 { x, y, z }, gain, size)
}

// In a hall whose speakers are sorted; a code above 3 is taken for 3.
fn pan_sorted(layout: u32, table: &HallTable, place: Vec3, gain: f32, size: f32) -> Panned
    requires { table_right table.now ≡ true }
    ensures { PannedIs (record { layout = min layout 3; table = table.now }) place gain size result }
{
    let hall = Hall::of(layout.min(3), &hall_table::places(table));
    panning::pan(&hall, place, gain, size)
}

// In the hall of a layout.
#[unsafe(no_mangle)]
pub extern "C" fn probe_pan_in(layout: u32, x: f32, y: f32, z: f32, gain: f32, size: f32) -> Panned
    ensures { PannedIs (hall_with (min layout 3)) (record { x = x; y = y; z = z }) gain size result }
{
    pan_sorted(layout, &hall_table::BUILT_IN, Vec3 { x, y, z }, gain, size)
}

// The table of these bytes; the built-in one where they are no table that is accepted.
fn table_of(bytes: &[u8]) -> HallTable
    ensures { result ≡ table_if bytes.now }
{
    if bytes.len() != 4 * hall_table::TABLE_WORDS {
        return hall_table::BUILT_IN;
    }
    let table = hall_table::table_words(bytes, 0);
    if hall_table::table_fault(&table).is_some() {
        return hall_table::BUILT_IN;
    }
    table
}

// In the hall of a layout and a table.
#[unsafe(no_mangle)]
pub extern "C" fn probe_pan_with(
    layout: u32,
    table: &[u8],
    x: f32,
    y: f32,
    z: f32,
    gain: f32,
    size: f32,
) -> Panned
    ensures { PannedIs (record { layout = min layout 3; table = table_if table.now }) (record { x = x; y = y; z = z }) gain size result }
{
    pan_sorted(layout, &table_of(table), Vec3 { x, y, z }, gain, size)
}
