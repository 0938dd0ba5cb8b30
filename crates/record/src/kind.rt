// The kinds of file: constants and functions of a kind.
//
// The rows of specs/Table.antt, as files and fields are numbered. Every number here and in table.rt is proved to be that table's; a
// further kind is one variant, one line here, and one arm in each match.
//
//   1 CATALOGO, 133 bytes: 1 CODIGO A7, 2 TIPO A1, 3 NOMBRE_C A60, 4 DEFINICI A60
//   2 OB_PUN, 149 bytes: 1 own id N10, 2 composite id N10, 3 node id N10, 4 CODIGO A7, 5 name A60, 6 orientation N5, 7 M N3, 8
//     sign A1, 9 X N9, 10 sign A1, 11 Y N10, 12 sign A1, 13 Z N8
//   3 OB_TEX, 144 bytes: 1 own id N10, 2 composite id N10, 3 CODIGO A7, 4 LITERAL A60, 5 height N3, 6 width N3, 7 orientation
//     N5, 8 justification N1, 9 sign A1, 10 X N9, 11 sign A1, 12 Y N10, 13 sign A1, 14 Z N8
//   4 OB_LIN, 128 bytes: 1 own id N10, 2 composite id N10, 3 CODIGO A7, 4 name A60, 5 sign A1, 6 X N9, 7 sign A1, 8 Y N10, 9
//     sign A1, 10 Z N8
//   5 TRAMO, 77 bytes: 1 own id N10, 2 linear object N10, 3 perimeter id N10, 4 line id N10, 5 CODIGO A7, 6 start node N10, 7
//     end node N10, 8 sense A1
//   6 VERTICE, 54 bytes: 1 line id N10, 2 order N5, 3 sign A1, 4 X N9, 5 sign A1, 6 Y N10, 7 sign A1, 8 Z N8
//   7 NODO, 50 bytes: 1 own id N10, 2 TIPO A1, 3 sign A1, 4 X N9, 5 sign A1, 6 Y N10, 7 sign A1, 8 Z N8
//   8 OB_COMP, 117 bytes: 1 own id N10, 2 CODIGO A7, 3 name A60, 4 sign A1, 5 X N9, 6 sign A1, 7 Y N10, 8 sign A1, 9 Z N8
ghost use Rattle.std.specs.Prelude.{◌≡◌, ◌≤◌};
ghost use Rattle.record.specs.Table.{fields_of, most_fields, length_of, keys_of, file_of, letter_of, x_field, which_of, is_n, is_code};

// How many kinds there are.
pub const FILES: usize = 8;

// At most so many records a file.
pub const LIMIT: usize = 16384;

// Where no file has more records than this, short arrays do.
pub const FEW: usize = 512;

// Of all rows: the bytes of the longest record, the fields of the record with most, the bytes of the widest field.
pub const LONGEST: usize = 149;

pub const MOST_FIELDS: usize = 14;

pub const WIDEST: usize = 60;

#[derive(Clone, Copy)]
pub enum Kind {
    Catalogo,
    ObPun,
    ObTex,
    ObLin,
    Tramo,
    Vertice,
    Nodo,
    ObComp,
}

// What a field holds: words, a CODIGO, a coordinate's sign; a number, the size of a coordinate.
#[derive(Clone, Copy)]
pub enum Form {
    Words,
    Code,
    Sign,
    Number,
    Size,
}

// What a field may say, where its bytes are sound: anything; of words P, X, L, T or C; + or -; A, C, E, I or H; of numbers degrees and
// minutes; 1 to 9.
#[derive(Clone, Copy)]
pub enum Domain {
    Any,
    ObjectType,
    PlusMinus,
    NodeType,
    Orientation,
    Justification,
}

// What a field refers to: nothing; a record of a file that is not there; the records of a kind, by a field of theirs.
#[derive(Clone, Copy)]
pub enum Target {
    Free,
    Nowhere,
    To(Kind, usize),
}

impl Form {
    // Whether the field is an N field.
    pub fn is_n(self) -> bool
        ensures { result ≡ is_n self }
    {
        matches!(self, Form::Number | Form::Size)
    }

    pub fn is_code(self) -> bool
        ensures { result ≡ is_code self }
    {
        matches!(self, Form::Code)
    }
}

// The kind of a file's number, where there is one.
pub fn kind_of(file: usize) -> Option<Kind>
    ensures { result ≡ which_of file }
{
    match file {
        1 => Some(Kind::Catalogo),
        2 => Some(Kind::ObPun),
        3 => Some(Kind::ObTex),
        4 => Some(Kind::ObLin),
        5 => Some(Kind::Tramo),
        6 => Some(Kind::Vertice),
        7 => Some(Kind::Nodo),
        8 => Some(Kind::ObComp),
        _ => None,
    }
}

impl Kind {
    // The file's number.
    pub fn number(self) -> usize
        ensures { result ≡ file_of self }
    {
        match self {
            Kind::Catalogo => 1,
            Kind::ObPun => 2,
            Kind::ObTex => 3,
            Kind::ObLin => 4,
            Kind::Tramo => 5,
            Kind::Vertice => 6,
            Kind::Nodo => 7,
            Kind::ObComp => 8,
        }
    }

    // The letter of its objects' catalogue type, 0 where it has none, as the definition letter_of has it.
    pub fn letter(self) -> u8
        ensures { result ≡ letter_of self }
    {
        match self {
            Kind::Catalogo => 0,
            Kind::ObPun => 80,
            Kind::ObTex => 88,
            Kind::ObLin => 76,
            Kind::Tramo => 84,
            Kind::Vertice => 0,
            Kind::Nodo => 0,
            Kind::ObComp => 67,
        }
    }

    // Of how many fields, the first ones, its key is made.
    pub fn keys(self) -> usize
        ensures { result ≡ keys_of self }
    {
        match self {
            Kind::Catalogo => 1,
            Kind::ObPun => 1,
            Kind::ObTex => 1,
            Kind::ObLin => 1,
            Kind::Tramo => 1,
            Kind::Vertice => 2,
            Kind::Nodo => 1,
            Kind::ObComp => 1,
        }
    }

    // The number of fields.
    pub fn fields(self) -> usize
        ensures { result ≡ fields_of self }
    {
        match self {
            Kind::Catalogo => 4,
            Kind::ObPun => 13,
            Kind::ObTex => 14,
            Kind::ObLin => 10,
            Kind::Tramo => 8,
            Kind::Vertice => 8,
            Kind::Nodo => 8,
            Kind::ObComp => 9,
        }
    }

    // The bytes of a record.
    pub fn length(self) -> usize
        ensures { result ≡ length_of self }
    {
        match self {
            Kind::Catalogo => 133,
            Kind::ObPun => 149,
            Kind::ObTex => 144,
            Kind::ObLin => 128,
            Kind::Tramo => 77,
            Kind::Vertice => 54,
            Kind::Nodo => 50,
            Kind::ObComp => 117,
        }
    }

    // The field of X, 0 where it has none, as the definition x_field has it; Y is two fields after it, Z four.
    pub fn x_field(self) -> usize
        ensures value { result ≡ x_field self }
        ensures small { result ≤ most_fields }
    {
        match self {
            Kind::Catalogo => 0,
            Kind::ObPun => 9,
            Kind::ObTex => 10,
            Kind::ObLin => 6,
            Kind::Tramo => 0,
            Kind::Vertice => 4,
            Kind::Nodo => 4,
            Kind::ObComp => 5,
        }
    }
}
