//! The names of the folders and files that a command's words may give.

/// The words that name a table's folder and the files and folders beside it.
#[derive(Clone, Copy, Debug, PartialEq, Eq)]
pub struct Places<'a> {
    /// The table's folder: the second word.
    pub table: Option<&'a str>,
    /// The folder of the genuine table: the word after the first `--genuine`.
    pub genuine: Option<&'a str>,
    /// The keyring: the word after the first `--keys`.
    pub keys: Option<&'a str>,
    /// A file of table metadata: the word after the first `--metadata`.
    pub metadata: Option<&'a str>,
}
