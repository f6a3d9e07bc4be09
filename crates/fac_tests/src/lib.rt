//! Tests of what no contract says, most of them of the lower libraries.
//!
//! - `values`: the small types of `fac_lang` grow and are copied where there is memory.
//! - `memory_forms`: sources, sinks and files in memory do what they are told to, and fail where they are told to.
//! - `real_forms`: real files and streams move the bytes that they are given, also where the system moves few at a time or fails.
//! - `lines`: a source in memory is cut into lines, also at the most bytes of a line and behind a read that fails.
//! - `marks`: the checker's marks that no program of today makes.
//! - `pieces`: work in pieces comes in the order of its list, and threads do it.
//! - `gates`: the top call has words checked, and their code made, in pieces, and threads do both.
//! - `sizes`: a value of the machine takes 16 bytes.
//!
//! Integers, the machine, and the tool with all that it stands on are tested by programs: `fac_number_cases`, `fac_image_cases` and
//! `fac_cases`. So no library that others stand on has tests of its own, and each is proved once.
#![tactic(auto)]

#[cfg(test)]
mod gates;
#[cfg(test)]
mod lines;
#[cfg(test)]
mod marks;
#[cfg(test)]
mod memory_forms;
#[cfg(test)]
mod pieces;
#[cfg(test)]
mod real_forms;
#[cfg(test)]
mod sizes;
#[cfg(test)]
mod values;
