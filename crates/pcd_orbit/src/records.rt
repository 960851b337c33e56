// The records of a cycle, each as its lines.
ghost use Rattle.std.specs.Prelude.{◌≤◌};
ghost use Rattle.io.specs.Counts.{IsPrefixLen};

use base::refusal::Refusal;
use command::ErrorOutput;
use orbit_rows::{ATTITUDE, CLOCK, EPHEMERIS, GYRO_DRIFT, Row, TEMPERATURES, Value, put_row};

// Six lines, each with an exact double.
const LINES: usize = 8192;

const FRAMES: u64 = 4;

// A cycle of standard input: its bytes, its year, and how many were before it.
#[derive(Clone, Copy)]
pub(crate) struct Cycle<'a> {
    pub(crate) body: &'a [u8],
    pub(crate) year: u64,
    pub(crate) number: u64,
}

impl<'a> Cycle<'a> {
    // Writes its records, first those of the whole cycle and then those of each major frame; true where all could be written.
    pub(crate) fn show(self, rt: &(impl Print + ErrorOutput)) -> bool {
        let mut space = [0u8; LINES];
        self.show_in(rt, &mut space)
    }

    fn show_in(self, rt: &(impl Print + ErrorOutput), out: &mut [u8]) -> bool {
        let drift = self.put_gyro_drift(&mut *out);
        if !show(rt, out, drift) {
            return false;
        }
        let clock = self.put_clock(&mut *out);
        if !show(rt, out, clock) {
            return false;
        }
        for frame in 0..FRAMES {
            if !self.show_frame(rt, frame, &mut *out) {
                return false;
            }
        }
        true
    }

    fn show_frame(self, rt: &(impl Print + ErrorOutput), frame: u64, out: &mut [u8]) -> bool {
        let ephemeris = self.put_ephemeris(frame, &mut *out);
        if !show(rt, out, ephemeris) {
            return false;
        }
        let attitude = self.put_attitude(frame, &mut *out);
        if !show(rt, out, attitude) {
            return false;
        }
        let temperatures = self.put_temperatures(frame, &mut *out);
        show(rt, out, temperatures)
    }

    fn row(self, frame: u64, instant: Option<u64>) -> Row {
        Row {
            cycle: self.number,
            frame,
            year: self.year,
            instant,
        }
    }

    fn put_gyro_drift(self, out: &mut [u8]) -> usize
        ensures { IsPrefixLen result out.new }
    {
        let answer = orbit::gyro_drift::read(self.body, self.year);
        let row = self.row(0, answer.map(|g| g.instant).ok());
        put_rows(out, 0, row, GYRO_DRIFT, answer.map(|g| [g.x, g.y, g.z]))
    }

    fn put_clock(self, out: &mut [u8]) -> usize
        ensures { IsPrefixLen result out.new }
    {
        let answer = orbit::clock::read(self.body, self.year);
        let row = self.row(0, None);
        let update = answer.map(|c| c.updated).map_err(Refusal::number);
        let updated = put_row(&mut *out, 0, row, CLOCK, update);
        let terms = answer.map(|c| [c.bias, c.rate, c.acceleration].map(i64::from));
        put_rows(out, updated, row, CLOCK + 1, terms)
    }

    fn put_ephemeris(self, frame: u64, out: &mut [u8]) -> usize
        ensures { IsPrefixLen result out.new }
    {
        let answer = orbit::ephemeris::read(self.body, self.year, frame);
        let row = self.row(frame, answer.map(|e| e.instant).ok());
        let values = answer.map(|e| [e.x, e.y, e.z, e.vx, e.vy, e.vz]);
        put_rows(out, 0, row, EPHEMERIS, values)
    }

    fn put_attitude(self, frame: u64, out: &mut [u8]) -> usize
        ensures { IsPrefixLen result out.new }
    {
        let answer = orbit::attitude::read(self.body, self.year, frame);
        let row = self.row(frame, answer.map(|a| a.instant).ok());
        let values = answer.map(|a| [a.epa1, a.epa2, a.epa3, a.epa4]);
        put_rows(out, 0, row, ATTITUDE, values)
    }

    fn put_temperatures(self, frame: u64, out: &mut [u8]) -> usize
        ensures { IsPrefixLen result out.new }
    {
        let answer = orbit::temperatures::read(self.body, self.year, frame);
        let values = answer.map(|t| [t.temp1, t.temp2, t.temp3, t.temp4]);
        put_rows(out, 0, self.row(frame, None), TEMPERATURES, values)
    }
}

// Writes the text that ends at `end`.
fn show(rt: &(impl Print + ErrorOutput), out: &[u8], end: usize) -> bool
    requires { IsPrefixLen end out.now }
{
    command::show(rt, b"pcd-orbit", &out[..end])
}

// The lines of a record's values behind the first `at` bytes, with the names from `first` on.
fn put_rows<V: Value, const N: usize>(
    out: &mut [u8],
    at: usize,
    row: Row,
    first: usize,
    values: Result<[V; N], Refusal>,
) -> usize
    requires { (first ≤ 20) × (N ≤ 6) × (IsPrefixLen at out.old) }
    ensures { IsPrefixLen result out.new }
{
    let mut end = at;
    for i in 0..N {
        let value = values.map(|v| v[i]).map_err(Refusal::number);
        end = put_row(&mut *out, end, row, first + i, value);
    }
    end
}
