// Places in a script.

/// A place in a script. Lines and columns count from 1, columns in bytes, and both stay at
/// 4,294,967,295 from there on; 0:0 is no place in the script.
#[derive(Clone, Copy, Debug, PartialEq, Eq, Drop)]
pub struct Place {
    pub line: u32,
    pub column: u32,
}
