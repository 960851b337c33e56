// What the records of a cycle share: when they are refused, and the instant that they have (DFCB 3.2.7.4.5, 3.2.7.4.8).
#![tactic(auto)]

ghost use Rattle.std.specs.Prelude.{◌≡◌, ◌≤◌, ◌<◌, ◌^◌};
ghost use Rattle.base.specs.Refusals.{answered, permitted};
ghost use Rattle.cycle.specs.Cycle.{instant_of};
ghost use Rattle.cycle_records.specs.Instants.{record_instant, SameInstants, is_writable};
ghost use Rattle.cycle_records.specs.Lines.{cycle_lines, dated_lines};

use base::refusal::Refusal;
use time_code::year;

const LAST_FRAME: u64 = 3;

// A major frame lasts 4.096 s, in sixteenths of a millisecond.
const MAJOR_FRAME_TIME: u64 = 65_536;

// The records of major frame 2 have the time code itself.
const TWO_FRAMES: u64 = 131_072;

const TICKS_PER_DAY: u64 = 1_382_400_000;

// Whether a record of major frame k is refused whatever it holds. 2: not 65,536 bytes. 13: the year is outside 1999 to 2099. 6: k is above 3.
// 17: no cycle of this year.
pub fn check_cycle(body: &[u8], year: u64, k: u64) -> Result<(), Refusal>
    ensures { result ≡ permitted (cycle_lines body.now year k) }
{
    if body.len() != cycle::CYCLE {
        return Err(Refusal::WrongLength);
    }
    if !year::in_span(year) {
        return Err(Refusal::YearOutsideSpan);
    }
    if LAST_FRAME < k {
        return Err(Refusal::NoSuchKind);
    }
    if !cycle::is_cycle(year, body) {
        return Err(Refusal::NotACycle);
    }
    Ok(())
}

// The instant of the records of major frame k. Refused as above, or 8: the instant leaves the days of the year.
pub fn instant_in_year(body: &[u8], year: u64, k: u64) -> Result<u64, Refusal>
    ensures { result ≡ answered Err (dated_lines body.now year k) (Ok (record_instant (instant_of year body.now) k)) }
{
    check_cycle(body, year, k)?;
    let instant = instant(body, year, k);
    if !is_writable(year, instant) {
        return Err(Refusal::TimeOutOfRange);
    }
    Ok(instant)
}

// The instant of the records of major frame k; of any above 3 that of the last.
pub fn instant(body: &[u8], year: u64, k: u64) -> u64
    ensures { result ≡ record_instant (instant_of year body.now) k }
{
    record_instant(cycle::instant(year, body), frame_of(k))
}

// k, or the last major frame, whose records have the same instant.
fn frame_of(k: u64) -> u64
    ensures { (result ≤ 3) × SameInstants result k }
{
    k.min(LAST_FRAME)
}

// k major frames on and two back; 0 where that would be below 0.
fn record_instant(t: u64, k: u64) -> u64
    requires { (t < 2 ^ 40) × (k ≤ 3) }
    ensures { result ≡ record_instant t k }
{
    (t + k * MAJOR_FRAME_TIME).saturating_sub(TWO_FRAMES)
}

// Whether an instant lies in the days of the year.
fn is_writable(year: u64, instant: u64) -> bool
    ensures { result ≡ is_writable year instant }
{
    let day = instant / TICKS_PER_DAY;
    (1 <= day) & (day <= year::last_day(year))
}
