// Reasons, breaks and findings: the one answer of every layer.
ghost use Rattle.std.specs.Prelude.{◌≡◌};
ghost use Rattle.record.specs.Breaks.{number_of};

// The reasons of documents 01 and 02, each with its number in its name.
#[derive(Clone, Copy)]
pub enum Reason {
    // The file is longer than 16,384 records' bytes.
    LongFile10,
    // The file's length is no multiple of the record length.
    RaggedFile11,
    // The record doesn't end in 0D 0A.
    BadEnd20,
    // No bar after the field.
    NoBar21,
    // An N field is neither all digits nor all blanks.
    NotNumber22,
    // An A field breaks the A rule.
    NotText23,
    // Missing where it may not be, or blank while a partner isn't.
    Missing24,
    // Outside its domain.
    Outside25,
    // The key equals an earlier record's: that record's number.
    SameKey30(usize),
    // A reference names no record.
    NoRecord40,
    // The code is catalogued under another type: its letter.
    OtherType41(u8),
    // The order is 0, or over 1 and its line has no order one less.
    OrderGap50,
    // The order is 1 and its line has no order 2.
    OrderAlone51,
    // The line's first vertex lies elsewhere than the start node.
    StartElsewhere52,
    // The line's last vertex lies elsewhere than the end node.
    EndElsewhere53,
    // The node has the place of an earlier node: that record's number.
    SamePlace54(usize),
    // The point object lies elsewhere than its node.
    PointElsewhere55,
    // The node is used by nothing.
    IdleNode56,
    // The linear object is named by no tramo.
    IdleObject57,
    // The node's TIPO disagrees with what the node is.
    NodeType58,
    // The tramo's line has no vertex of highest order.
    NoLastVertex59,
    // The file number is outside 1 to 8.
    NoFile60,
    // The lent room is shorter than the record, or than the grid.
    ShortRoom61,
    // The value is too large for its digits.
    TooLarge62,
    // The text is too long, has a byte outside the A set, or begins or ends in a blank.
    BadText63,
    // Missing where it may not be, in writing.
    Missing64,
    // Outside its domain, in writing.
    Outside65,
    // The record number is 0 or above the whole records in hand.
    NoSuchRecord66,
    // A cell of two grids' sum is over 9,999,999,999.
    TooMany67,
    // The season is unknown.
    UnknownSeason68,
    // The composite is named by no object.
    IdleComposite70,
    // A line of the metadata is past the 2,048th, or longer than 256 bytes.
    LongLine80,
    // A line is neither section, key line nor empty line, or the last has no end mark.
    OddLine81,
    // The version is missing, or is not 1.
    OtherVersion82,
    // The list names an unknown or misplaced file, or lacks one that has records.
    OtherList83,
    // A key that a file needs is absent, or comes twice.
    OtherKeys84,
    // The count differs from the file's, or is no number.
    OtherCount85,
    // The size differs from the file's, or is no number.
    OtherSize86,
}

// A reason and its place. Files, records and fields are counted from 1; field 0 is the record, and record 0 the file. File 0 is the
// metadata, and its record the line.
#[derive(Clone, Copy)]
pub struct Break {
    pub reason: Reason,
    pub file: usize,
    pub record: usize,
    pub field: usize,
}

impl Reason {
    // Document 01's number.
    pub fn number(self) -> u8
        ensures { result ≡ number_of self }
    {
        match self {
            Reason::LongFile10 => 10,
            Reason::RaggedFile11 => 11,
            Reason::BadEnd20 => 20,
            Reason::NoBar21 => 21,
            Reason::NotNumber22 => 22,
            Reason::NotText23 => 23,
            Reason::Missing24 => 24,
            Reason::Outside25 => 25,
            Reason::SameKey30(_) => 30,
            Reason::NoRecord40 => 40,
            Reason::OtherType41(_) => 41,
            Reason::OrderGap50 => 50,
            Reason::OrderAlone51 => 51,
            Reason::StartElsewhere52 => 52,
            Reason::EndElsewhere53 => 53,
            Reason::SamePlace54(_) => 54,
            Reason::PointElsewhere55 => 55,
            Reason::IdleNode56 => 56,
            Reason::IdleObject57 => 57,
            Reason::NodeType58 => 58,
            Reason::NoLastVertex59 => 59,
            Reason::NoFile60 => 60,
            Reason::ShortRoom61 => 61,
            Reason::TooLarge62 => 62,
            Reason::BadText63 => 63,
            Reason::Missing64 => 64,
            Reason::Outside65 => 65,
            Reason::NoSuchRecord66 => 66,
            Reason::TooMany67 => 67,
            Reason::UnknownSeason68 => 68,
            Reason::IdleComposite70 => 70,
            Reason::LongLine80 => 80,
            Reason::OddLine81 => 81,
            Reason::OtherVersion82 => 82,
            Reason::OtherList83 => 83,
            Reason::OtherKeys84 => 84,
            Reason::OtherCount85 => 85,
            Reason::OtherSize86 => 86,
        }
    }
}
