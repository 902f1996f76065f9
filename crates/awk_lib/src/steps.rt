// How look-ups go through the places of a map. A loop over the keys takes one place after the other; a
// loop by numbers may go backwards, leave some out, or begin again at the end. So the next place is
// guessed from the last step. No clause rests on a guess: whoever takes one looks at the place.

/// The place that was found last, and the step that led there, modulo the number of places.
#[derive(Clone, Copy)]
pub(crate) struct Steps {
    last: usize,
    step: usize,
    /// Whether the step was the same as the one before it. Only then it is worth a guess.
    is_steady: bool,
}

impl Steps {
    /// No look-ups so far.
    pub(crate) fn new() -> Steps {
        Steps {
            last: 0,
            step: 0,
            is_steady: false,
        }
    }

    /// The place that the same step leads to, of so many.
    pub(crate) fn guess(&self, len: usize) -> Option<usize> {
        if !self.is_steady {
            return None;
        }
        let next = self.last.wrapping_add(self.step);
        Some(if next < len {
            next
        } else {
            next.wrapping_sub(len)
        })
    }

    /// The steps with one more, to a place of so many.
    pub(crate) fn to(&self, place: usize, len: usize) -> Steps {
        let ahead = place.wrapping_sub(self.last);
        let step = if place < self.last {
            ahead.wrapping_add(len)
        } else {
            ahead
        };
        Steps {
            last: place,
            step,
            is_steady: step == self.step,
        }
    }
}
