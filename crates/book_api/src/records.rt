// The records of a cycle. The answer is the number of the refusal, 0 for none; a refusal writes nothing.
ghost use Rattle.orbit_temperatures.specs.Record.{temperatures_of};
ghost use Rattle.orbit_gyro_drift.specs.Record.{gyro_drift_of};
ghost use Rattle.orbit_attitude.specs.Record.{attitude_of};
ghost use Rattle.orbit_clock.specs.Record.{clock_of};
ghost use Rattle.orbit_ephemeris.specs.Record.{ephemeris_of};
ghost use Rattle.book_api.specs.Records.{TemperaturesCrossed, DriftCrossed, AttitudeCrossed, ClockCrossed, EphemerisCrossed};

// The four temperatures of a major frame, in degrees Celsius.
pub fn pcd_temperatures(cycle: &[u8], year: u64, frame: u64, out: &mut [f64; 4]) -> u8
    ensures { TemperaturesCrossed (temperatures_of cycle.now year frame) result out.old out.new }
{
    match orbit::temperatures::read(cycle, year, frame) {
        Ok(t) => {
            *out = [t.temp1, t.temp2, t.temp3, t.temp4];
            0
        }
        Err(refusal) => refusal.number(),
    }
}

// The drift of the gyros, in radians per second, and its instant.
pub fn pcd_gyro_drift(cycle: &[u8], year: u64, instant: &mut u64, out: &mut [f64; 3]) -> u8
    ensures { DriftCrossed (gyro_drift_of cycle.now year) result instant.old instant.new out.old out.new }
{
    match orbit::gyro_drift::read(cycle, year) {
        Ok(g) => {
            *instant = g.instant;
            *out = [g.x, g.y, g.z];
            0
        }
        Err(refusal) => refusal.number(),
    }
}

// The Euler parameters of a major frame as counts, and their instant.
pub fn pcd_attitude(
    cycle: &[u8],
    year: u64,
    frame: u64,
    instant: &mut u64,
    out: &mut [i64; 4],
) -> u8
    ensures { AttitudeCrossed (attitude_of cycle.now year frame) result instant.old instant.new
        out.old out.new }
{
    match orbit::attitude::read(cycle, year, frame) {
        Ok(a) => {
            *instant = a.instant;
            *out = [a.epa1, a.epa2, a.epa3, a.epa4];
            0
        }
        Err(refusal) => refusal.number(),
    }
}

// The last update of the clock, in seconds, and the counts of its three terms.
pub fn pcd_clock(cycle: &[u8], year: u64, updated: &mut f64, out: &mut [u64; 3]) -> u8
    ensures { ClockCrossed (clock_of cycle.now year) result updated.old updated.new out.old out.new }
{
    match orbit::clock::read(cycle, year) {
        Ok(c) => {
            *updated = c.updated;
            *out = [
                u64::from(c.bias),
                u64::from(c.rate),
                u64::from(c.acceleration),
            ];
            0
        }
        Err(refusal) => refusal.number(),
    }
}

// The position and the velocity in a major frame, in metres and metres per millisecond, and their instant.
pub fn pcd_ephemeris(
    cycle: &[u8],
    year: u64,
    frame: u64,
    instant: &mut u64,
    out: &mut [f64; 6],
) -> u8
    ensures { EphemerisCrossed (ephemeris_of cycle.now year frame) result instant.old instant.new
        out.old out.new }
{
    match orbit::ephemeris::read(cycle, year, frame) {
        Ok(e) => {
            *instant = e.instant;
            *out = [e.x, e.y, e.z, e.vx, e.vy, e.vz];
            0
        }
        Err(refusal) => refusal.number(),
    }
}
