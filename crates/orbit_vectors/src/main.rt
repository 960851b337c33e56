// Runs the records of a cycle on the records of standard input and writes lines for each answer: what tests/orbit_vectors.py makes, with the answers
// that it worked out by other means. One area, of a cycle and 128 bytes more, stays from record to record.
#![tactic(auto)]

use base::refusal::Refusal;
use base::{format, refusal};
use orbit::attitude::Attitude;
use orbit::clock::Clock;
use orbit::ephemeris::Ephemeris;
use orbit::gyro_drift::GyroDrift;
use orbit::temperatures::Temperatures;
use std::io;
use std::io::Input;
use vectors::{field, filled, number, put, put_double};

const ROOM: usize = 65_664;

fn main(rt: HostRuntime) -> io::Result<()> {
    let mut space = [0u8; ROOM];
    let area: &mut [u8] = &mut space;
    for _ in 0..vectors::MOST_RECORDS {
        if !turn(&rt, &mut *area)? {
            return Ok(());
        }
    }
    Ok(())
}

// Reads a record and runs it; false at the end of the input, and where a record goes beyond the area. A record: the operation, three bytes of
// nothing, a place or a length (4 bytes), a value or a year (8 bytes), and a major frame (8 bytes).
fn turn(rt: &(impl Input + Print), area: &mut [u8]) -> io::Result<bool> {
    let mut record = [0u8; 24];
    if !filled(rt, &mut record) {
        return Ok(false);
    }
    let n = number(&record[4..8]) as usize;
    let value = number(&record[8..16]);
    let k = number(&record[16..24]);
    // The operation stays a number: it is the record's format, which tests/orbit_vectors.py writes.
    match record[0] {
        1 => Ok(load(rt, area)),
        2 => Ok(set(area, n, (value % 256) as u8)),
        3 => ask(rt, area, n, value, k),
        _ => Ok(false),
    }
}

// Word 72 of the 512 minor frames follows.
fn load(rt: &impl Input, area: &mut [u8]) -> bool {
    let mut columns = [0u8; 512];
    if !filled(rt, &mut columns) {
        return false;
    }
    put_frames(area, &columns);
    true
}

// Sync bytes, numbers and word 72 of the minor frames.
fn put_frames(area: &mut [u8], columns: &[u8; 512]) {
    for (frame, &word) in columns.iter().enumerate() {
        let start = format::MINOR_FRAME * frame;
        set(area, start, format::SYNC_WORD_0);
        set(area, start + 1, format::SYNC_WORD_1);
        set(area, start + 2, format::SYNC_WORD_2);
        set(area, start + format::NUMBER_PLACE, (frame % 128) as u8);
        set(area, start + 72, word);
    }
}

// Puts a byte; false beyond the area.
fn set(area: &mut [u8], place: usize, value: u8) -> bool {
    match area.get_mut(place) {
        Some(byte) => {
            *byte = value;
            true
        }
        None => false,
    }
}

// All records of the first n bytes.
fn ask(rt: &impl Print, area: &[u8], n: usize, year: u64, k: u64) -> io::Result<bool> {
    let Some(body) = area.get(..n) else {
        return Ok(false);
    };
    put_temperatures(rt, orbit::temperatures::read(body, year, k))?;
    put_gyro_drift(rt, orbit::gyro_drift::read(body, year))?;
    put_attitude(rt, orbit::attitude::read(body, year, k))?;
    put_clock(rt, orbit::clock::read(body, year))?;
    put_ephemeris(rt, orbit::ephemeris::read(body, year, k))?;
    Ok(true)
}

fn put_temperatures(rt: &impl Print, answer: Result<Temperatures, Refusal>) -> io::Result<()> {
    field(rt, b"temperatures ", u64::from(refusal::code(answer)))?;
    put(rt, b"\n")?;
    put_doubles(rt, answer.map(|t| [t.temp1, t.temp2, t.temp3, t.temp4]))
}

fn put_gyro_drift(rt: &impl Print, answer: Result<GyroDrift, Refusal>) -> io::Result<()> {
    field(rt, b"gyro drift ", u64::from(refusal::code(answer)))?;
    field(rt, b" at ", answer.map(|g| g.instant).unwrap_or(0))?;
    put(rt, b"\n")?;
    put_doubles(rt, answer.map(|g| [g.x, g.y, g.z]))
}

fn put_attitude(rt: &impl Print, answer: Result<Attitude, Refusal>) -> io::Result<()> {
    field(rt, b"attitude ", u64::from(refusal::code(answer)))?;
    field(rt, b" at ", answer.map(|a| a.instant).unwrap_or(0))?;
    let values = answer.map(|a| [a.epa1, a.epa2, a.epa3, a.epa4]);
    for x in values.unwrap_or([0; 4]) {
        put_integer(rt, x)?;
    }
    put(rt, b"\n")
}

// An integer of 32 bits, by how far it lies above the least.
fn put_integer(rt: &impl Print, x: i64) -> io::Result<()> {
    if x < -2_147_483_648 {
        put(rt, b" below")?;
        return Ok(());
    }
    if 2_147_483_647 < x {
        put(rt, b" above")?;
        return Ok(());
    }
    field(rt, b" ", (x + 2_147_483_648) as u64)
}

fn put_clock(rt: &impl Print, answer: Result<Clock, Refusal>) -> io::Result<()> {
    field(rt, b"clock ", u64::from(refusal::code(answer)))?;
    let terms = answer.map(|c| [c.bias, c.rate, c.acceleration]);
    let [bias, rate, acceleration] = terms.unwrap_or([0; 3]);
    field(rt, b" bias ", u64::from(bias))?;
    field(rt, b" rate ", u64::from(rate))?;
    field(rt, b" acceleration ", u64::from(acceleration))?;
    put(rt, b"\n")?;
    put_doubles(rt, answer.map(|c| [c.updated]))
}

fn put_ephemeris(rt: &impl Print, answer: Result<Ephemeris, Refusal>) -> io::Result<()> {
    field(rt, b"ephemeris ", u64::from(refusal::code(answer)))?;
    field(rt, b" at ", answer.map(|e| e.instant).unwrap_or(0))?;
    put(rt, b"\n")?;
    put_doubles(rt, answer.map(|e| [e.x, e.y, e.z, e.vx, e.vy, e.vz]))
}

// A record's doubles; zeros of one that is refused.
fn put_doubles<const N: usize>(
    rt: &impl Print,
    values: Result<[f64; N], Refusal>,
) -> io::Result<()> {
    for x in values.unwrap_or([0.0; N]) {
        put_double(rt, x)?;
    }
    Ok(())
}
