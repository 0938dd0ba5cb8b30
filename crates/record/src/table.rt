// The tables of fields: one number for a kind and an attribute of its places, with four bits for each place, place 0 the lowest. (An array
// would be built anew at each read; a match on the kind is a table.) kind.rt has the fields' names and widths in plain words.
ghost use Rattle.std.specs.Prelude.{◌≡◌, ◌+◌, ◌*◌, ◌/◌, ◌%◌, ◌<◌, get_or};
ghost use Rattle.laws.specs.Row.{pick};
ghost use Rattle.record.specs.Table.{whole, offset_in, required, form_at, width_at, must_at, back_at, ahead_at, domain_at, target_of, own_at, offset_at};
ghost use Rattle.record.specs.machinery.Packed.{digit_of, digit_at, packed_of, form_digit, form_of, domain_digit, domain_of, target_file, target_field, target_by};

use crate::kind::{Domain, Form, Kind, Target, kind_of};

// The digit of a place in a kind's number,
fn digit(n: u64, f: usize) -> usize
    requires { f < 16 }
    ensures { result ≡ digit_of n f }
{
    ((n >> (4 * f)) % 16) as usize
}

// and 0 past the sixteenth.
fn digit_at(n: u64, f: usize) -> usize
    ensures value { result ≡ digit_at n f }
    ensures small { result < 16 }
{
    if f < 16 { digit(n, f) } else { 0 }
}

// (No From: these digits are this file's alone, and one of no form is read as words.)
fn form_of(n: usize) -> Form
    ensures { result ≡ form_of n }
{
    match n {
        1 => Form::Code,
        2 => Form::Sign,
        3 => Form::Number,
        4 => Form::Size,
        _ => Form::Words,
    }
}

// (Nor here.)
fn domain_of(n: usize) -> Domain
    ensures { result ≡ domain_of n }
{
    match n {
        1 => Domain::ObjectType,
        2 => Domain::PlusMinus,
        3 => Domain::NodeType,
        4 => Domain::Orientation,
        5 => Domain::Justification,
        _ => Domain::Any,
    }
}

// A target from its file and its field: 15 is a file that is not there.
fn target_by(file: usize, field: usize) -> Target
    ensures { result ≡ target_by file field }
{
    if file == 15 {
        return Target::Nowhere;
    }
    match kind_of(file) {
        None => Target::Free,
        Some(k) => Target::To(k, field),
    }
}

impl Kind {
    // The digits of the forms, as form_of has them,
    fn forms(self) -> u64
        ensures { result ≡ packed_of (λ cs f. form_digit (get_or cs f whole).form) self }
    {
        match self {
            Kind::Catalogo => 0x0000000000000010,
            Kind::ObPun => 0x0042424233013330,
            Kind::ObTex => 0x0424242333301330,
            Kind::ObLin => 0x0000042424201330,
            Kind::Tramo => 0x0000000033133330,
            Kind::Vertice => 0x0000000424242330,
            Kind::Nodo => 0x0000000424242030,
            Kind::ObComp => 0x0000004242420130,
        }
    }

    // the widths, by their two digits to the base 16,
    fn widths_high(self) -> u64
        ensures { result ≡ packed_of (λ cs f. (get_or cs f whole).width / 16) self }
    {
        match self {
            Kind::Catalogo => 0x0000000000033000,
            Kind::ObPun => 0x0000000000300000,
            Kind::ObTex => 0x0000000000030000,
            Kind::ObLin => 0x0000000000030000,
            Kind::Tramo => 0x0000000000000000,
            Kind::Vertice => 0x0000000000000000,
            Kind::Nodo => 0x0000000000000000,
            Kind::ObComp => 0x0000000000003000,
        }
    }

    // and the lower ones,
    fn widths_low(self) -> u64
        ensures { result ≡ packed_of (λ cs f. (get_or cs f whole).width % 16) self }
    {
        match self {
            Kind::Catalogo => 0x00000000000cc170,
            Kind::ObPun => 0x0081a19135c7aaa0,
            Kind::ObTex => 0x081a1911533c7aa0,
            Kind::ObLin => 0x0000081a191c7aa0,
            Kind::Tramo => 0x00000001aa7aaaa0,
            Kind::Vertice => 0x000000081a1915a0,
            Kind::Nodo => 0x000000081a1911a0,
            Kind::ObComp => 0x00000081a191c7a0,
        }
    }

    // where the places begin in the record,
    fn offsets_high(self) -> u64
        ensures { result ≡ packed_of (λ cs f. offset_in cs f / 16) self }
    {
        match self {
            Kind::Catalogo => 0x8888888888840000,
            Kind::ObPun => 0x9988777766221000,
            Kind::ObTex => 0x8887766665511000,
            Kind::ObLin => 0x7777777665511000,
            Kind::Tramo => 0x4444444433221000,
            Kind::Vertice => 0x3333333221111000,
            Kind::Nodo => 0x3333333221100000,
            Kind::ObComp => 0x7777776655551000,
        }
    }

    // and the lower digits,
    fn offsets_low(self) -> u64
        ensures { result ≡ packed_of (λ cs f. offset_in cs f % 16) self }
    {
        match self {
            Kind::Catalogo => 0x444444444447a800,
            Kind::ObPun => 0x44b9ec20c6916b00,
            Kind::ObTex => 0xf6497db93fbe6b00,
            Kind::ObLin => 0xfffff6497dbe6b00,
            Kind::Tramo => 0xcccccccaf4c16b00,
            Kind::Vertice => 0x5555555cafd31b00,
            Kind::Nodo => 0x111111186b9fdb00,
            Kind::ObComp => 0x444444b9ec203b00,
        }
    }

    // 1 where the place may not be missing,
    fn musts(self) -> u64
        ensures { result ≡ packed_of (λ cs f. pick (required (get_or cs f whole).must) 1 0) self }
    {
        match self {
            Kind::Catalogo => 0x0000000000000110,
            Kind::ObPun => 0x0000111100010010,
            Kind::ObTex => 0x0001111100101010,
            Kind::ObLin => 0x0000000000001010,
            Kind::Tramo => 0x0000000011100110,
            Kind::Vertice => 0x0000000001111110,
            Kind::Nodo => 0x0000000001111010,
            Kind::ObComp => 0x0000000000000110,
        }
    }

    // how many fields before the place are its partners,
    fn backs(self) -> u64
        ensures { result ≡ packed_of (λ cs f. (get_or cs f whole).back) self }
    {
        match self {
            Kind::Catalogo => 0x0000000000000000,
            Kind::ObPun => 0x0010101000000000,
            Kind::ObTex => 0x0101010000000000,
            Kind::ObLin => 0x0000010321000000,
            Kind::Tramo => 0x0000000000000000,
            Kind::Vertice => 0x0000000101010000,
            Kind::Nodo => 0x0000000101010000,
            Kind::ObComp => 0x0000001032100000,
        }
    }

    // and how many after it,
    fn aheads(self) -> u64
        ensures { result ≡ packed_of (λ cs f. (get_or cs f whole).ahead) self }
    {
        match self {
            Kind::Catalogo => 0x0000000000000000,
            Kind::ObPun => 0x0001010100000000,
            Kind::ObTex => 0x0010101000000000,
            Kind::ObLin => 0x0000001234500000,
            Kind::Tramo => 0x0000000000000000,
            Kind::Vertice => 0x0000000010101000,
            Kind::Nodo => 0x0000000010101000,
            Kind::ObComp => 0x0000000123450000,
        }
    }

    // the digits of the domains, as domain_of has them,
    fn domains(self) -> u64
        ensures { result ≡ packed_of (λ cs f. domain_digit (get_or cs f whole).domain) self }
    {
        match self {
            Kind::Catalogo => 0x0000000000000100,
            Kind::ObPun => 0x0002020204000000,
            Kind::ObTex => 0x0020202540000000,
            Kind::ObLin => 0x0000002020200000,
            Kind::Tramo => 0x0000000200000000,
            Kind::Vertice => 0x0000000020202000,
            Kind::Nodo => 0x0000000020202300,
            Kind::ObComp => 0x0000000202020000,
        }
    }

    // the file that the place refers to, as target_by has it,
    fn target_files(self) -> u64
        ensures { result ≡ packed_of (λ cs f. target_file (get_or cs f whole).refers) self }
    {
        match self {
            Kind::Catalogo => 0x0000000000000000,
            Kind::ObPun => 0x0000000000017800,
            Kind::ObTex => 0x0000000000001800,
            Kind::ObLin => 0x0000000000001800,
            Kind::Tramo => 0x000000007716f400,
            Kind::Vertice => 0x0000000000000050,
            Kind::Nodo => 0x0000000000000000,
            Kind::ObComp => 0x0000000000000100,
        }
    }

    // and the field by which,
    fn target_fields(self) -> u64
        ensures { result ≡ packed_of (λ cs f. target_field (get_or cs f whole).refers) self }
    {
        match self {
            Kind::Catalogo => 0x0000000000000000,
            Kind::ObPun => 0x0000000000011100,
            Kind::ObTex => 0x0000000000001100,
            Kind::ObLin => 0x0000000000001100,
            Kind::Tramo => 0x0000000011110100,
            Kind::Vertice => 0x0000000000000040,
            Kind::Nodo => 0x0000000000000000,
            Kind::ObComp => 0x0000000000000100,
        }
    }

    // 1 where the record's own id stands for a blank.
    fn owns(self) -> u64
        ensures { result ≡ packed_of (λ cs f. pick (get_or cs f whole).own 1 0) self }
    {
        match self {
            Kind::Catalogo => 0x0000000000000000,
            Kind::ObPun => 0x0000000000000000,
            Kind::ObTex => 0x0000000000000000,
            Kind::ObLin => 0x0000000000000000,
            Kind::Tramo => 0x0000000000010000,
            Kind::Vertice => 0x0000000000000000,
            Kind::Nodo => 0x0000000000000000,
            Kind::ObComp => 0x0000000000000000,
        }
    }

    // What a field holds; place 0 and those past the last field are words of no bytes.
    pub fn form(self, f: usize) -> Form
        ensures { result ≡ form_at self f }
    {
        form_of(digit_at(self.forms(), f))
    }

    // The width of a field, and 0 of any other place.
    pub fn width(self, f: usize) -> usize
        ensures value { result ≡ width_at self f }
        ensures small { result < 256 }
    {
        digit_at(self.widths_high(), f) * 16 + digit_at(self.widths_low(), f)
    }

    // Where a field begins in the record; past the last stands its end.
    pub fn offset(self, f: usize) -> usize
        ensures value { result ≡ offset_at self f }
        ensures small { result < 256 }
    {
        if f < 16 {
            digit(self.offsets_high(), f) * 16 + digit(self.offsets_low(), f)
        } else {
            self.length() - 1
        }
    }

    // Whether a field may not be missing.
    pub fn must(self, f: usize) -> bool
        ensures { result ≡ required (must_at self f) }
    {
        digit_at(self.musts(), f) == 1
    }

    // How many fields before a field are its partners,
    pub fn back(self, f: usize) -> usize
        ensures value { result ≡ back_at self f }
        ensures small { result < 256 }
    {
        digit_at(self.backs(), f)
    }

    // and how many after it.
    pub fn ahead(self, f: usize) -> usize
        ensures value { result ≡ ahead_at self f }
        ensures small { result < 256 }
    {
        digit_at(self.aheads(), f)
    }

    pub fn domain(self, f: usize) -> Domain
        ensures { result ≡ domain_at self f }
    {
        domain_of(digit_at(self.domains(), f))
    }

    // What a field refers to.
    pub fn target(self, f: usize) -> Target
        ensures { result ≡ target_of self f }
    {
        target_by(
            digit_at(self.target_files(), f),
            digit_at(self.target_fields(), f),
        )
    }

    // Whether the record's own id stands for a field that is blank.
    pub fn own(self, f: usize) -> bool
        ensures { result ≡ own_at self f }
    {
        digit_at(self.owns(), f) == 1
    }
}
