//! What only calls can ask of tasks, of serving a script by one worker and by several, and of the program: replies that a task
//! does not wait for, reads, readers and writers that are refused, which numbers seats draw, seeds of one's own. There is
//! nothing here but tests. Whole runs are rows of tests/program.
#![tactic(auto)]

#[cfg(test)]
mod changing;
#[cfg(test)]
mod draws;
#[cfg(test)]
mod given;
#[cfg(test)]
mod runs;
#[cfg(test)]
mod service;
#[cfg(test)]
mod serving;
#[cfg(test)]
mod tasks;
#[cfg(test)]
mod workers;
