// Places of a script.
use awk_text::place::Place;

/// What stands from this place on.
pub fn text_at(script: &[u8], place: Place) -> &[u8] {
    let mut rest = script;
    for _ in 1..place.line {
        let Some(newline) = rest.iter().position(|b| *b == b'\n') else {
            return &[];
        };
        rest = rest.get(newline.saturating_add(1)..).unwrap_or(&[]);
    }
    let before = place.column.saturating_sub(1) as usize;
    rest.get(before..).unwrap_or(&[])
}
