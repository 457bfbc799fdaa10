// How writes and answers are printed.
use crate::steps::Answer;
use sets::RankSet;
use std::fmt;
use store::slot::Slot;

// The ranks of a set, rising, with spaces between them; a dash where there are none.
#[derive(Drop)]
struct Ranks<'a>(&'a RankSet);

impl fmt::Display for Ranks<'_> {
    fn fmt<W: fmt::Write>(&self, f: &mut fmt::Formatter<W>) -> fmt::Result {
        if self.0.lowest().is_none() {
            return f.write_str("-");
        }
        f.write_joined(self.0.ranks(), " ")
    }
}

// A number at a set.
#[derive(Drop)]
pub struct Shown<'a>(pub &'a Slot<RankSet>);

impl fmt::Display for Shown<'_> {
    fn fmt<W: fmt::Write>(&self, f: &mut fmt::Formatter<W>) -> fmt::Result {
        write!(f, "{} at {}", self.0.number, Ranks(&self.0.key))
    }
}

// Numbers at sets, with commas between them.
#[derive(Drop)]
pub struct Listed<'a>(pub &'a [Slot<RankSet>]);

impl fmt::Display for Listed<'_> {
    fn fmt<W: fmt::Write>(&self, f: &mut fmt::Formatter<W>) -> fmt::Result {
        if self.0.is_empty() {
            return f.write_str("nothing");
        }
        f.write_joined(self.0.iter().map(Shown), ", ")
    }
}

impl fmt::Display for Answer {
    fn fmt<W: fmt::Write>(&self, f: &mut fmt::Formatter<W>) -> fmt::Result {
        let word = if self.granted { "written" } else { "refused" };
        write!(f, "{word}, standing {}", self.count)?;
        if let Some(lowest) = &self.lowest {
            write!(f, ", lowest {}", Shown(lowest))?;
        }
        if let Some(highest) = &self.highest {
            write!(f, ", highest {}", Shown(highest))?;
        }
        Ok(())
    }
}
