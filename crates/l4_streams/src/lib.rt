//! What a job reads from and writes to.
//!
//! `streams` has sources, sinks, and folders that open files. It assumes what the system's files and
//! streams do. `.ci/command-lines` tries it, also with streams that fail.
#![tactic(auto)]

pub mod streams;
