//! The rows of a table that fail.
use std::alloc::{AllocError, Global};
use std::test::Fail;

/// The rows whose answer is not the wanted one, a line each.
#[derive(Drop)]
pub struct Failures {
    lines: String,
}

impl Failures {
    pub fn new(alloc: Global) -> Failures {
        Failures {
            lines: String::new(alloc),
        }
    }

    /// Adds the row where its answer is not the wanted one.
    pub fn row(
        &mut self,
        alloc: Global,
        row: &str,
        told: &str,
        wanted: &str,
    ) -> Result<(), AllocError> {
        if told != wanted {
            let line = format!(in alloc; "{row:?}: {told:?}, and not {wanted:?}; ")?;
            self.lines.push_str(line.as_str())?;
        }
        Ok(())
    }

    /// Adds the row where its answer is not the wanted text. Fails where there is no answer.
    pub fn told(
        &mut self,
        alloc: Global,
        row: &str,
        told: Result<String, Fail>,
        wanted: &str,
    ) -> Result<(), Fail> {
        let told = told?;
        Ok(self.row(alloc, row, told.as_str(), wanted)?)
    }

    /// Adds the row where it does not hold.
    pub fn holds(&mut self, alloc: Global, row: &str, holds: bool) -> Result<(), AllocError> {
        if !holds {
            let line = format!(in alloc; "{row:?} does not hold; ")?;
            self.lines.push_str(line.as_str())?;
        }
        Ok(())
    }

    /// Adds the row where the answer is that it does not hold. Fails where there is no answer.
    pub fn held(
        &mut self,
        alloc: Global,
        row: &str,
        holds: Result<bool, Fail>,
    ) -> Result<(), Fail> {
        let holds = holds?;
        Ok(self.holds(alloc, row, holds)?)
    }

    /// Fails with all rows that were added.
    pub fn end(self) -> Result<(), Fail> {
        if self.lines.is_empty() {
            Ok(())
        } else {
            Err(Fail::new(self.lines))
        }
    }
}
