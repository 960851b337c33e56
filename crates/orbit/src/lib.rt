// The records of a cycle in step with their clock (DFCB 3.2.7.4.2 to 3.2.7.4.8), in the units of the book, with the instants of those that have
// one; each is read in a crate of its own. A cycle is four major frames, 65,536 bytes, as paper 02, request 7, describes it. Refused 2: another
// length. Refused 13: the year is outside 1999 to 2099. Refused 6: the major frame is above 3. Refused 17: no cycle of this year. After these, as a
// record has it, 8: its instant leaves the days of the year; 9: the upper four bits of a temperature are not 0; 10: the time of the clock update is
// not normalised.
#![tactic(auto)]

pub mod attitude;
pub mod clock;
pub mod ephemeris;
pub mod gyro_drift;
pub mod temperatures;
