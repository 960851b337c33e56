// Word 72 and its codecs for programs in C: each entry calls the function of `word72_api` that has its
// name, and promises the same. include/pcd.h declares them.
#![tactic(auto)]

ghost use Rattle.time_code.specs.Promise.{EncodePromise as TimeWritten};
ghost use Rattle.float1750.specs.Promise.{EncodePromise as NumberWritten};
ghost use Rattle.word72_api.specs.LentPlaces.{time_code, TimeCrossed, NumberCrossed};
ghost use Rattle.std.specs.Prelude.{◌≡◌};
ghost use Rattle.subcom.specs.Parts.{part_refusal};
ghost use Rattle.word72_column.specs.Promise.{GatherPromise};
ghost use Rattle.word72_api.specs.Word72.{KindCrossed, CountCrossed, DescribeCrossed, ReadCrossed};

#[unsafe(no_mangle)]
pub extern "C" fn pcd_decode_time(year: u64, bytes: &[u8], out: &mut [u64; 2]) -> u8
    ensures { TimeCrossed year bytes.now result out.old out.new }
{
    word72_api::pcd_decode_time(year, bytes, out)
}

#[unsafe(no_mangle)]
pub extern "C" fn pcd_encode_time(year: u64, spacecraft: u64, instant: u64, out: &mut [u8]) -> u8
    ensures { TimeWritten year (time_code spacecraft instant) out.old out.new result }
{
    word72_api::pcd_encode_time(year, spacecraft, instant, out)
}

#[unsafe(no_mangle)]
pub extern "C" fn pcd_decode_number(bytes: &[u8], out: &mut f64) -> u8
    ensures { NumberCrossed bytes.now result out.old out.new }
{
    word72_api::pcd_decode_number(bytes, out)
}

#[unsafe(no_mangle)]
pub extern "C" fn pcd_encode_number(x: f64, out: &mut [u8]) -> u8
    ensures { NumberWritten x out.old out.new result }
{
    word72_api::pcd_encode_number(x, out)
}

#[unsafe(no_mangle)]
pub extern "C" fn pcd_gather(area: &[u8], column: &mut [u8]) -> u8
    ensures { GatherPromise area.now column.old column.new result }
{
    word72_api::pcd_gather(area, column)
}

#[unsafe(no_mangle)]
pub extern "C" fn pcd_kind(year: u64, column: &[u8], out: &mut u64) -> u8
    ensures { KindCrossed year column.now result out.old out.new }
{
    word72_api::pcd_kind(year, column, out)
}

#[unsafe(no_mangle)]
pub extern "C" fn pcd_item_count(kind: u64, out: &mut u64) -> u8
    ensures { CountCrossed kind result out.old out.new }
{
    word72_api::pcd_item_count(kind, out)
}

#[unsafe(no_mangle)]
pub extern "C" fn pcd_describe(kind: u64, item: u64, out: &mut [u64; 3]) -> u8
    ensures { DescribeCrossed kind item result out.old out.new }
{
    word72_api::pcd_describe(kind, item, out)
}

#[unsafe(no_mangle)]
pub extern "C" fn pcd_part_refusal(column: &[u8], kind: u64, item: u64) -> u8
    ensures { result ≡ part_refusal column.now kind item }
{
    word72_api::pcd_part_refusal(column, kind, item)
}

#[unsafe(no_mangle)]
pub extern "C" fn pcd_read(
    year: u64,
    column: &[u8],
    kind: u64,
    item: u64,
    out: &mut [u64; 9],
    number: &mut f64,
) -> u8
    ensures { ReadCrossed year column.now kind item result
        out.old out.new number.old number.new }
{
    word72_api::pcd_read(year, column, kind, item, out, number)
}
