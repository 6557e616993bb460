//! Tests of runs and censuses over simulated units, through public calls alone.
mod bench;
mod censuses;
mod losses;
mod runs;
