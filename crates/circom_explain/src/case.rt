use watched_io::Asked;

/// What the program was asked, and what came of it.
#[derive(Clone, Copy)]
pub struct Case<'a> {
    /// The words behind the program's name.
    pub words: &'a [String],
    /// What was put on standard output.
    pub printed: &'a [u8],
    pub status: u8,
    /// The calls of the store, the earliest first.
    pub asked: &'a [Asked],
    /// The bytes of the file that `file_to_show` names.
    pub source: Option<&'a [u8]>,
    /// What the system says when the call that failed is made again.
    pub system: Option<&'a str>,
}
