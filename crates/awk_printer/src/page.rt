// What is printed so far.

/// A text that grows until memory for it is refused once. What comes behind that is lost, so that
/// a printer asks once at its end, and not behind each piece.
#[derive(Drop)]
pub struct Page {
    pub text: Vec<u8>,
    pub is_cut: bool,
}

pub fn put(text: &[u8], out: &mut Page) {
    if out.is_cut {
        return;
    }
    if out.text.extend_from_slice(text).is_err() {
        out.is_cut = true;
    }
}

/// Gives up: nothing that is printed from here on counts.
pub fn cut(out: &mut Page) {
    out.is_cut = true;
}
