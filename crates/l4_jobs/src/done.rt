//! What a job comes to, before anything of it is written.

/// The list that is recorded of a run.
#[derive(Debug, Drop)]
pub struct Kept<'a> {
    /// The name of the file that it goes to.
    pub name: &'a str,
    /// Its text. A replay of it repeats the run.
    pub text: Vec<u8>,
}

/// What a job comes to.
#[derive(Debug, Drop)]
pub struct Done<'a> {
    /// What goes to the output.
    pub lines: Vec<u8>,
    /// The list that is recorded, where a record is asked for.
    pub list: Option<Kept<'a>>,
    /// What goes to the faults behind the lines: a step of a trace that is not possible, or the
    /// expectations that do not hold. Empty where there is nothing to say.
    pub said: Vec<u8>,
    /// The exit status, where all of this can be written.
    pub status: u8,
}
