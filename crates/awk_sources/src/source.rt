// A text of a script.

/// A text that is a script, or a part of one, with the name that messages have for it.
#[derive(Drop)]
pub struct Source {
    pub name: String,
    pub text: Vec<u8>,
}
