// Books of cycles for programs in C: each entry calls the function of `book_api` that has its
// name, and promises the same. include/pcd.h declares them.
#![tactic(auto)]

ghost use Rattle.std.specs.Prelude.{◌≡◌};
ghost use Rattle.book.specs.Faults.{view_refusal};
ghost use Rattle.book_writer.specs.Promise.{WritePromise};
ghost use Rattle.book_api.specs.Books.{CheckCrossed, HeaderCrossed, EntryCrossed, BodyCrossed};
ghost use Rattle.book_api.specs.Comparing.{CompareCrossed};
ghost use Rattle.book_api.specs.Finding.{FindCrossed};
ghost use Rattle.orbit_temperatures.specs.Record.{temperatures_of};
ghost use Rattle.orbit_gyro_drift.specs.Record.{gyro_drift_of};
ghost use Rattle.orbit_attitude.specs.Record.{attitude_of};
ghost use Rattle.orbit_clock.specs.Record.{clock_of};
ghost use Rattle.orbit_ephemeris.specs.Record.{ephemeris_of};
ghost use Rattle.book_api.specs.Records.{TemperaturesCrossed, DriftCrossed, AttitudeCrossed, ClockCrossed, EphemerisCrossed};

#[unsafe(no_mangle)]
pub extern "C" fn pcd_book_write(year: u64, bodies: &[u8], out: &mut [u8]) -> u8
    ensures { WritePromise year bodies.now out.old out.new result }
{
    book_api::pcd_book_write(year, bodies, out)
}

#[unsafe(no_mangle)]
pub extern "C" fn pcd_book_view_refusal(book: &[u8]) -> u8
    ensures { result ≡ view_refusal book.now }
{
    book_api::pcd_book_view_refusal(book)
}

#[unsafe(no_mangle)]
pub extern "C" fn pcd_book_check(book: &[u8], out: &mut u64) -> u8
    ensures { CheckCrossed book.now result out.new }
{
    book_api::pcd_book_check(book, out)
}

#[unsafe(no_mangle)]
pub extern "C" fn pcd_book_header(book: &[u8], out: &mut [u64; 2]) -> u8
    ensures { HeaderCrossed book.now result out.old out.new }
{
    book_api::pcd_book_header(book, out)
}

#[unsafe(no_mangle)]
pub extern "C" fn pcd_book_entry(book: &[u8], i: u64, out: &mut [u64; 2]) -> u8
    ensures { EntryCrossed book.now i result out.old out.new }
{
    book_api::pcd_book_entry(book, i, out)
}

#[unsafe(no_mangle)]
pub extern "C" fn pcd_book_body(book: &[u8], i: u64, out: &mut [u64; 2]) -> u8
    ensures { BodyCrossed book.now i result out.old out.new }
{
    book_api::pcd_book_body(book, i, out)
}

#[unsafe(no_mangle)]
pub extern "C" fn pcd_book_compare(
    first: &[u8],
    second: &[u8],
    table: &mut [u64],
    lines: &mut u64,
) -> u8
    ensures { CompareCrossed first.now second.now result table.old table.new
        lines.old lines.new }
{
    book_api::pcd_book_compare(first, second, table, lines)
}

#[unsafe(no_mangle)]
pub extern "C" fn pcd_find(instants: &[u64], wanted: u64, out: &mut [u64; 2]) -> u8
    ensures { FindCrossed instants.now wanted result out.old out.new }
{
    book_api::pcd_find(instants, wanted, out)
}

#[unsafe(no_mangle)]
pub extern "C" fn pcd_temperatures(cycle: &[u8], year: u64, frame: u64, out: &mut [f64; 4]) -> u8
    ensures { TemperaturesCrossed (temperatures_of cycle.now year frame) result out.old out.new }
{
    book_api::pcd_temperatures(cycle, year, frame, out)
}

#[unsafe(no_mangle)]
pub extern "C" fn pcd_gyro_drift(
    cycle: &[u8],
    year: u64,
    instant: &mut u64,
    out: &mut [f64; 3],
) -> u8
    ensures { DriftCrossed (gyro_drift_of cycle.now year) result instant.old instant.new out.old out.new }
{
    book_api::pcd_gyro_drift(cycle, year, instant, out)
}

#[unsafe(no_mangle)]
pub extern "C" fn pcd_attitude(
    cycle: &[u8],
    year: u64,
    frame: u64,
    instant: &mut u64,
    out: &mut [i64; 4],
) -> u8
    ensures { AttitudeCrossed (attitude_of cycle.now year frame) result instant.old instant.new
        out.old out.new }
{
    book_api::pcd_attitude(cycle, year, frame, instant, out)
}

#[unsafe(no_mangle)]
pub extern "C" fn pcd_clock(cycle: &[u8], year: u64, updated: &mut f64, out: &mut [u64; 3]) -> u8
    ensures { ClockCrossed (clock_of cycle.now year) result updated.old updated.new out.old out.new }
{
    book_api::pcd_clock(cycle, year, updated, out)
}

#[unsafe(no_mangle)]
pub extern "C" fn pcd_ephemeris(
    cycle: &[u8],
    year: u64,
    frame: u64,
    instant: &mut u64,
    out: &mut [f64; 6],
) -> u8
    ensures { EphemerisCrossed (ephemeris_of cycle.now year frame) result instant.old instant.new
        out.old out.new }
{
    book_api::pcd_ephemeris(cycle, year, frame, instant, out)
}
