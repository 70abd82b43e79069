//! What was compared, and how much of it differs.
use cell::Way;
use std::fmt;

/// Cells of each way, payloads that were compared on links, cells that their hop recognised, and differences. Counted by hand,
/// since what a cell adds depends on what became of it.
#[derive(Clone, Copy, Default)]
pub struct Tally {
    forward: u32,
    backward: u32,
    links: u32,
    recognised: u32,
    differ: u32,
}

impl Tally {
    pub fn cell(&mut self, way: Way) {
        match way {
            Way::Forward => self.forward = self.forward.saturating_add(1),
            Way::Backward => self.backward = self.backward.saturating_add(1),
        }
    }

    /// A payload on a link, beside the one given.
    pub fn link(&mut self, found: &[u8], given: &[u8]) {
        self.links = self.links.saturating_add(1);
        self.beside(found, given);
    }

    /// A payload that its hop recognised, beside the one that was sealed.
    pub fn recognised(&mut self, found: &[u8], sealed: &[u8]) {
        self.recognised = self.recognised.saturating_add(1);
        self.beside(found, sealed);
    }

    fn beside(&mut self, found: &[u8], due: &[u8]) {
        if found != due {
            self.differs();
        }
    }

    /// A hop recognised what is not its own, or did not recognise what is.
    pub fn differs(&mut self) {
        self.differ = self.differ.saturating_add(1);
    }

    pub fn differences(&self) -> u32 {
        self.differ
    }
}

impl fmt::Display for Tally {
    fn fmt<W: fmt::Write>(&self, f: &mut fmt::Formatter<W>) -> fmt::Result {
        write!(
            f,
            "{} cells forward, {} backward; {} payloads on links compared, {} cells recognised where they should be, {} differ",
            self.forward, self.backward, self.links, self.recognised, self.differ
        )
    }
}
