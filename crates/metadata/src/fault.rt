// What a metadata file breaks, and where.
ghost use Rattle.std.specs.Prelude.{◌≡◌};
ghost use Rattle.metadata.specs.Faults.{number_of, at_line};

// The rules for a metadata file, each with the number of its reason in its name. (The reasons themselves are one enum, record's; this crate
// stands on laws and field alone.)
#[derive(Clone, Copy, Debug, PartialEq, Eq)]
pub enum Rule {
    // A line is past the 2,048th, or longer than 256 bytes.
    LongLine80,
    // A line is neither section, key line nor empty line, or the last has no end mark.
    OddLine81,
    // The version is missing, or is not 1.
    OtherVersion82,
    // The list names an unknown or misplaced file, or lacks one that has records.
    OtherList83,
    // A key that a file needs is absent, or comes twice.
    OtherKeys84,
    // The count differs from the file's, or is no number.
    OtherCount85,
    // The size differs from the file's, or is no number.
    OtherSize86,
}

impl Rule {
    // The number of the reason that a break of the rule is told by.
    pub fn number(self) -> u8
        ensures { result ≡ number_of self }
    {
        match self {
            Rule::LongLine80 => 80,
            Rule::OddLine81 => 81,
            Rule::OtherVersion82 => 82,
            Rule::OtherList83 => 83,
            Rule::OtherKeys84 => 84,
            Rule::OtherCount85 => 85,
            Rule::OtherSize86 => 86,
        }
    }

    // The fault at a line.
    pub(crate) fn at(self, line: usize) -> Fault
        ensures { result ≡ at_line self line }
    {
        Fault { rule: self, line }
    }
}

// The rule that is broken, and the line, counted from 1; line 0 is the file as a whole, which is how document 02 tells it.
#[derive(Clone, Copy, Debug, PartialEq, Eq)]
pub struct Fault {
    pub rule: Rule,
    pub line: usize,
}
