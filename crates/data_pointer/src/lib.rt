// The sequence of the data pointer (PNTR) from frame to frame (DFCB 3.2.6.2.5, equations 1 and 2; paper 02, request 13).
#![tactic(auto)]

ghost use Rattle.data_pointer.specs.Promise.{NextPromise, PreviousPromise, AfterPromise, DistancePromise};

use base::refusal::Refusal;

const POINTERS: u64 = 85;

// A step on is by 38 modulo 85, a step back by 47. 38 × 47 is 1 modulo 85, so 47 steps on lead to the pointer that is one above.
const ON: u64 = 38;

const BACK: u64 = 47;

const MOST_FRAMES: u64 = (1 << 24) - 1;

// The pointer of the next frame. Refused 28: the pointer is above 84.
pub fn next(p: u64) -> Result<u64, Refusal>
    ensures { NextPromise p result }
{
    if POINTERS <= p {
        return Err(Refusal::NoSuchPointer);
    }
    if p < BACK {
        return Ok(p + ON);
    }
    Ok(p - BACK)
}

// The pointer of the frame before. Refused 28: the pointer is above 84.
pub fn previous(p: u64) -> Result<u64, Refusal>
    ensures { PreviousPromise p result }
{
    if POINTERS <= p {
        return Err(Refusal::NoSuchPointer);
    }
    if p < ON {
        return Ok(p + BACK);
    }
    Ok(p - ON)
}

// The pointer n frames on. Refused 28: the pointer is above 84. Refused 29: n is above 2^24 - 1.
pub fn after(p: u64, n: u64) -> Result<u64, Refusal>
    ensures { AfterPromise p n result }
{
    if POINTERS <= p {
        return Err(Refusal::NoSuchPointer);
    }
    if MOST_FRAMES < n {
        return Err(Refusal::TooManyFrames);
    }
    Ok((p + ON * n) % POINTERS)
}

// The smallest number of frames from p on to q, 0 to 84. Refused 28: either pointer is above 84.
pub fn distance(p: u64, q: u64) -> Result<u64, Refusal>
    ensures { DistancePromise p q result }
{
    if POINTERS <= p {
        return Err(Refusal::NoSuchPointer);
    }
    if POINTERS <= q {
        return Err(Refusal::NoSuchPointer);
    }
    Ok((q + POINTERS - p) * BACK % POINTERS)
}
