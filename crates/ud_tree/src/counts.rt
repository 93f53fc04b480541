//! The numbers of files, by their fates.

/// The fate of a file.
#[derive(Clone, Copy, Debug, PartialEq, Eq)]
pub(crate) enum Fate {
    /// It has the output now, or would get it.
    Changed,
    /// The output is its own text.
    Same,
    /// It was left as it is because of a fault.
    Faulty,
}

/// The numbers of edits, in one file or several.
#[derive(Clone, Copy, Debug, PartialEq, Eq)]
pub(crate) struct Edits {
    /// The number of conditions of the output that lost operands.
    pub conditions: usize,
    /// The number of lines, counted by newlines, that the output has fewer than the text.
    pub lines: usize,
}

impl Edits {
    ghost use Rattle.std.specs.Prelude.{◌≡◌, ◌+◌, ◌<◌, ◌^◌};
    ghost use Rattle.ud_tree.specs.Fates.{no_edits};

    /// Returns no edits.
    pub(crate) fn none() -> Edits
        ensures { result ≡ no_edits }
    {
        Edits {
            conditions: 0,
            lines: 0,
        }
    }

    /// Adds the edits of another text.
    fn add(&mut self, more: Edits)
        ensures conditions { self.old.conditions + more.conditions < 2 ^ 64 →
            self.new.conditions ≡ self.old.conditions + more.conditions }
        ensures lines { self.old.lines + more.lines < 2 ^ 64 →
            self.new.lines ≡ self.old.lines + more.lines }
    {
        self.conditions = self.conditions.saturating_add(more.conditions);
        self.lines = self.lines.saturating_add(more.lines);
    }
}

/// The numbers of files by their fates, and of their edits.
#[derive(Clone, Copy, Debug, PartialEq, Eq)]
pub(crate) struct Counts {
    pub changed: usize,
    pub unchanged: usize,
    pub faulty: usize,
    pub edits: Edits,
}

impl Counts {
    ghost use Rattle.std.specs.Prelude.{◌≡◌, ◌+◌, ◌<◌, ◌^◌, if◌then◌else◌};
    ghost use Rattle.ud_tree.specs.Fates.{is_changed, is_same, is_faulty, no_edits};

    /// Returns the counts of no files.
    pub(crate) fn new() -> Counts
        ensures changed { result.changed ≡ 0 }
        ensures unchanged { result.unchanged ≡ 0 }
        ensures faulty { result.faulty ≡ 0 }
        ensures edits { result.edits ≡ no_edits }
    {
        Counts {
            changed: 0,
            unchanged: 0,
            faulty: 0,
            edits: Edits::none(),
        }
    }

    /// Counts a file, and its edits.
    pub(crate) fn add(&mut self, fate: Fate, edits: Edits)
        requires { self.old.changed + self.old.unchanged + self.old.faulty + 1 < 2 ^ 64 }
        ensures changed { self.new.changed ≡
            self.old.changed + (if is_changed fate then 1 else 0) }
        ensures unchanged { self.new.unchanged ≡
            self.old.unchanged + (if is_same fate then 1 else 0) }
        ensures faulty { self.new.faulty ≡ self.old.faulty + (if is_faulty fate then 1 else 0) }
        ensures one_more { self.new.changed + self.new.unchanged + self.new.faulty ≡
            self.old.changed + self.old.unchanged + self.old.faulty + 1 }
        ensures conditions { self.old.edits.conditions + edits.conditions < 2 ^ 64 →
            self.new.edits.conditions ≡ self.old.edits.conditions + edits.conditions }
        ensures lines { self.old.edits.lines + edits.lines < 2 ^ 64 →
            self.new.edits.lines ≡ self.old.edits.lines + edits.lines }
    {
        self.edits.add(edits);
        match fate {
            Fate::Changed => self.changed += 1,
            Fate::Same => self.unchanged += 1,
            Fate::Faulty => self.faulty += 1,
        }
    }
}
