// Names.

use awk_text::octets::Octets;
use awk_text::place::Place;

/// A name where it stands in a script.
#[derive(Drop)]
pub struct Name {
    pub text: Octets,
    pub place: Place,
}

/// `in`, and the array after it.
#[derive(Drop)]
pub struct Member {
    /// The place of the word `in`.
    pub place: Place,
    pub array: Name,
}
