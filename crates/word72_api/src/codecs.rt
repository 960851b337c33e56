// The codecs of word 72. The answer is the number of the refusal, 0 for none; a refusal writes nothing.
ghost use Rattle.time_code.specs.Promise.{EncodePromise as TimeWritten};
ghost use Rattle.float1750.specs.Promise.{EncodePromise as NumberWritten};
ghost use Rattle.word72_api.specs.LentPlaces.{time_code, TimeCrossed, NumberCrossed};

use base::refusal::{code, pass};

// Reads a time code of a year; `out` gets the spacecraft, then the instant.
pub fn pcd_decode_time(year: u64, bytes: &[u8], out: &mut [u64; 2]) -> u8
    ensures { TimeCrossed year bytes.now result out.old out.new }
{
    match time_code::decode(year, bytes) {
        Ok(t) => {
            *out = [t.spacecraft, t.instant];
            0
        }
        Err(refusal) => refusal.number(),
    }
}

// Writes the time code of a spacecraft and an instant of a year.
pub fn pcd_encode_time(year: u64, spacecraft: u64, instant: u64, out: &mut [u8]) -> u8
    ensures { TimeWritten year (time_code spacecraft instant) out.old out.new result }
{
    let t = time_code::TimeCode {
        spacecraft,
        instant,
    };
    code(time_code::encode(year, t, out))
}

// Reads a number of MIL-STD-1750.
pub fn pcd_decode_number(bytes: &[u8], out: &mut f64) -> u8
    ensures { NumberCrossed bytes.now result out.old out.new }
{
    pass(float1750::decode(bytes), out)
}

// Writes the six bytes of a double.
pub fn pcd_encode_number(x: f64, out: &mut [u8]) -> u8
    ensures { NumberWritten x out.old out.new result }
{
    code(float1750::encode(x, out))
}
