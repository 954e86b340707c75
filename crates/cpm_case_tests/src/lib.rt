//! Makes random system calls on random disks of both formats, and compares them with a plain model of the files.
#![tactic(auto)]

#[cfg(test)]
mod asked;
#[cfg(test)]
mod cases;
#[cfg(test)]
mod filled;
#[cfg(test)]
mod machine;
#[cfg(test)]
mod model;
#[cfg(test)]
mod player;
#[cfg(test)]
mod records;
