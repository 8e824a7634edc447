//! How replies are written.

use refusal::{Refusal, Report};
use script::{Answer, Outcome};
use std::fmt;

/// The numbers of a list, each after a space.
#[derive(Clone, Copy)]
pub(crate) struct Numbers<'a>(pub(crate) &'a [u16]);

impl fmt::Display for Numbers<'_> {
    fn fmt<W: fmt::Write>(&self, f: &mut fmt::Formatter<W>) -> fmt::Result {
        for number in self.0 {
            write!(f, " {number}")?;
        }
        Ok(())
    }
}

/// What a refusal tells. The steps are told where there was an inversion.
#[derive(Clone, Copy)]
pub(crate) struct Refused(pub(crate) Refusal);

impl fmt::Display for Refused {
    fn fmt<W: fmt::Write>(&self, f: &mut fmt::Formatter<W>) -> fmt::Result {
        let Report {
            number,
            entry,
            steps,
        } = Report::from(self.0);
        write!(f, "refused {number} entry {entry}")?;
        if let Refusal::NoInverse { .. } = self.0 {
            write!(f, " steps {steps}")?;
        }
        Ok(())
    }
}

/// The reply to a call: what came of it, and the sheet after it if the call was made.
#[derive(Clone, Copy)]
pub(crate) struct Reply<'a>(pub(crate) &'a Answer);

impl fmt::Display for Reply<'_> {
    fn fmt<W: fmt::Write>(&self, f: &mut fmt::Formatter<W>) -> fmt::Result {
        let sheet = Numbers(&self.0.sheet);
        match &self.0.outcome {
            Outcome::NotAllowed => write!(f, "not allowed"),
            Outcome::Refused(refusal) => write!(f, "{} |{sheet}", Refused(*refusal)),
            Outcome::Accepted => write!(f, "accepted |{sheet}"),
            Outcome::Closed { steps } => write!(f, "accepted steps {steps} |{sheet}"),
            Outcome::Drawn { quotient } => {
                write!(f, "accepted quotient{} |{sheet}", Numbers(quotient))
            }
        }
    }
}
