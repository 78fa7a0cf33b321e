//! The unit tests: what no script of the debugger reaches. There is nothing else in this crate, so that
//! no other is proved a second time for its tests.
#![tactic(auto)]

#[cfg(test)]
mod call_lists;
#[cfg(test)]
mod calls;
#[cfg(test)]
mod cases;
#[cfg(test)]
mod channel_programs;
#[cfg(test)]
mod fault;
#[cfg(test)]
mod held;
#[cfg(test)]
mod instructions;
#[cfg(test)]
mod marks;
#[cfg(test)]
mod packed;
#[cfg(test)]
mod plans;
#[cfg(test)]
mod refused;
#[cfg(test)]
mod rows;
#[cfg(test)]
mod same;
#[cfg(test)]
mod scripts;
#[cfg(test)]
mod sessions;
#[cfg(test)]
mod slate;
#[cfg(test)]
mod storage;
#[cfg(test)]
mod without_memory;
