/// What the words of a command line ask for.
#[derive(Clone, Copy, Debug, PartialEq, Eq)]
pub enum Asked<'a> {
    /// The report of the bundle on standard input.
    Bundle(Options),
    /// The report of a script that is run over directories.
    Run(RunWords<'a>),
    /// The lines of a class file.
    Read {
        /// Where the file is, as the words have it.
        path: &'a str,
    },
}

/// How a script is served, and what is printed of it.
#[derive(Clone, Copy, Debug, PartialEq, Eq)]
pub struct Options {
    /// How many workers serve: one in the script's order, more by threads.
    pub workers: u32,
    /// Whether the answers alone are printed.
    pub answers: bool,
}

/// Where a configuration and a script are, as the words have it.
#[derive(Clone, Copy, Debug, PartialEq, Eq)]
pub struct RunWords<'a> {
    pub config: &'a str,
    pub script: &'a str,
    pub options: Options,
}
