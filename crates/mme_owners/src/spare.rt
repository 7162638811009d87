//! Boxes of steps that others have replaced, for the next ones.

use emm_state::Draft;

/// At most two boxes: one for a state that has a security context, and one for a state that has none, which would have to overwrite
/// the keys of another phone's context in its box. What the boxes have means nothing.
pub(crate) struct Spares {
    with_context: Option<Box<Draft>>,
    without: Option<Box<Draft>>,
}

impl Drop for Spares {
    fn drop(self) {
        let Spares {
            with_context,
            without,
        } = self;
        free_if_any(with_context);
        free_if_any(without);
    }
}

/// A box that nobody needs any more: the keys in it are overwritten before it is freed.
pub(crate) fn free(left: Box<Draft>) {
    let mut left = left;
    left.solo.forget();
}

fn free_if_any(left: Option<Box<Draft>>) {
    if let Some(left) = left {
        free(left);
    }
}

// The box of the first place, or else that of the second.
fn first_of(first: &mut Option<Box<Draft>>, second: &mut Option<Box<Draft>>) -> Option<Box<Draft>> {
    match first.take() {
        Some(spare) => Some(spare),
        None => second.take(),
    }
}

impl Spares {
    /// No box.
    pub fn new() -> Spares {
        Spares {
            with_context: None,
            without: None,
        }
    }

    /// The box that fits a state with a context or without one, or else the other one, if there is one.
    pub fn take(&mut self, has_context: bool) -> Option<Box<Draft>> {
        if has_context {
            first_of(&mut self.with_context, &mut self.without)
        } else {
            first_of(&mut self.without, &mut self.with_context)
        }
    }

    /// A box is kept in the place that fits it, or in the other one; where both are taken, it is freed.
    pub fn keep(&mut self, left: Box<Draft>) {
        let has_context = left.solo.context.is_some();
        if self.with_context.is_none() && (has_context || self.without.is_some()) {
            self.with_context = Some(left);
        } else if self.without.is_none() {
            self.without = Some(left);
        } else {
            free(left);
        }
    }
}
