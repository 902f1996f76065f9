// Rows, as they are read from a table.

/// What stands between two bars: bare words as they are written, and then a text, of which each
/// quoted piece is unescaped and repeated as often as it says.
#[derive(Drop)]
pub struct Arg<'a> {
    pub word: &'a [u8],
    pub text: Vec<u8>,
}

/// A line of a table.
#[derive(Drop)]
pub struct Row<'a> {
    /// How many bytes of the table stand from the row's first byte on.
    pub left: usize,
    /// The line is indented: it goes on with what the last line that is not begins.
    pub is_step: bool,
    /// The call and its arguments.
    pub args: Vec<Arg<'a>>,
    pub answer: Option<Arg<'a>>,
}

impl Arg<'_> {
    /// Whether the bytes are what the answer says: its words, its text, or both with a space between.
    pub fn says(&self, came: &[u8]) -> bool {
        let text = self.text.as_slice();
        let Some(rest) = came.strip_prefix(self.word) else {
            return false;
        };
        if self.word.is_empty() || text.is_empty() {
            return rest == text;
        }
        match rest {
            [b' ', rest @ ..] => rest == text,
            _ => false,
        }
    }
}
