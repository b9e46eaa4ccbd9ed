//! Tests of what no call of a program shows, by the public calls of the libraries. They are few and go over tables, since
//! each function of a test is proved over all that it stands on. A failed assertion names its row. What a call of a
//! program shows is tested by `tests/calls/`.
//!
//! - `application`: from a text to its accepted application, and texts that several tests take. `fixtures`: channels of
//!   one instance, values of scans, and what asserts that no row of a table is wrong.
//! - `machines`: turns of each channel over given bytes, by the rows of `turns_a`, `turns_b` and `turns_c`. `channel_a`,
//!   `channel_b`: scans, regions and spoiled bytes. `codes`: the codes of channel C.
//! - `evaluator`: the plain evaluator over the tables of `worked`. `rows`: channel B's rows.
//! - `world`: scans of a world of two channels in several orders of turns. `left`: the world that a call of the program
//!   leaves.
//! - `parts`: what is cut of an application for a rule. `trying`: runs that are tried.
//! - `sources`, `readers`, `outside`: tokens and sources, texts that are read in pieces, files and outputs.
#![tactic(auto)]

#[cfg(test)]
mod application;
#[cfg(test)]
mod channel_a;
#[cfg(test)]
mod channel_b;
#[cfg(test)]
mod codes;
#[cfg(test)]
mod evaluator;
#[cfg(test)]
mod fixtures;
#[cfg(test)]
mod left;
#[cfg(test)]
mod machines;
#[cfg(test)]
mod outside;
#[cfg(test)]
mod parts;
#[cfg(test)]
mod readers;
#[cfg(test)]
mod rows;
#[cfg(test)]
mod sources;
#[cfg(test)]
mod trying;
#[cfg(test)]
mod turns_a;
#[cfg(test)]
mod turns_b;
#[cfg(test)]
mod turns_c;
#[cfg(test)]
mod worked;
#[cfg(test)]
mod world;
