// How many cases there were, and where the program is among the lines.
#[derive(Clone, Copy, Default)]
pub(crate) struct Tally {
    pub(crate) cases: u64,
    // not as expected
    pub(crate) wrong: u64,
    // the number of the line
    pub(crate) line: u64,
}

impl Tally {
    pub(crate) fn next_line(&mut self) {
        self.line = self.line.wrapping_add(1);
    }

    pub(crate) fn next_case(&mut self, fine: bool) {
        self.cases = self.cases.wrapping_add(1);
        if !fine {
            self.wrong = self.wrong.wrapping_add(1);
        }
    }
}
