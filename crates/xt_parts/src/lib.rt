//! Tests of the parts of the machine, of machines of several cores, of boards with workers, and of the texts that are read and written, each
//! by its public calls. The crate has nothing for others to use.
//!
//! A module tells what answers otherwise than its tables say, by a row's place from 0, and few tests compare that with nothing.
#![tactic(auto)]

#[cfg(test)]
mod boards;
#[cfg(test)]
mod counting;
#[cfg(test)]
mod ends;
#[cfg(test)]
mod events;
#[cfg(test)]
mod listings;
#[cfg(test)]
mod machines;
#[cfg(test)]
mod meetings;
#[cfg(test)]
mod memory;
#[cfg(test)]
mod parts;
#[cfg(test)]
mod pool;
#[cfg(test)]
mod ports;
#[cfg(test)]
mod registers;
#[cfg(test)]
mod stimuli;
#[cfg(test)]
mod texts;
#[cfg(test)]
mod windows;
