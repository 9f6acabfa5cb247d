//! The incidents as sentences, in the descriptions of drawings.

use crate::clock::TimeStyle;
use crate::naming::LETTERS;
use crate::view::View;
use std::alloc::AllocError;

impl View<'_> {
    /// Appends the incidents that are named, as sentences.
    pub fn push_description(&self, text: &mut String) -> Result<(), AllocError> {
        if self.naming.named.is_empty() {
            return text.push_str("No slow time.");
        }
        for (at, (named, letter)) in self.naming.named.iter().zip(LETTERS).enumerate() {
            let Some(incident) = self.verdict.incidents.get(named.heaviest) else {
                continue;
            };
            if at > 0 {
                text.push_str(" ")?;
            }
            text.push_str(letter)?;
            text.push_str(": ")?;
            text.push_str(self.kind_of(incident).phrase())?;
            text.push_str(" from ")?;
            self.clock
                .push(text, incident.heaviest.start, TimeStyle::Full)?;
            text.push_str(".")?;
        }
        Ok(())
    }
}
