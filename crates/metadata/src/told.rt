// What a line of a metadata file says.
ghost use Rattle.std.specs.Prelude.{◌≡◌};
ghost use Rattle.metadata.specs.Rules.{is_nothing, is_file, is_head, gives, file_told, same_file, place, rank};
ghost use Rattle.metadata.specs.Searches.{is_key};

// The files that a list may name, each with its number in its name.
#[derive(Clone, Copy, Debug, PartialEq, Eq)]
pub enum File {
    Catalogo1,
    ObPun2,
    ObTex3,
    ObLin4,
    Tramo5,
    Vertice6,
    Nodo7,
    ObComp8,
}

pub(crate) const FILES: [File; 8] = [
    File::Catalogo1,
    File::ObPun2,
    File::ObTex3,
    File::ObLin4,
    File::Tramo5,
    File::Vertice6,
    File::Nodo7,
    File::ObComp8,
];

impl File {
    // Its place in a list by files.
    pub(crate) fn place(self) -> usize
        ensures { result ≡ place self }
    {
        match self {
            File::Catalogo1 => 0,
            File::ObPun2 => 1,
            File::ObTex3 => 2,
            File::ObLin4 => 3,
            File::Tramo5 => 4,
            File::Vertice6 => 5,
            File::Nodo7 => 6,
            File::ObComp8 => 7,
        }
    }

    // Its place in section 5.5's order, from 1 on.
    pub(crate) fn rank(self) -> usize
        ensures { result ≡ rank self }
    {
        match self {
            File::Catalogo1 => 1,
            File::ObComp8 => 2,
            File::ObPun2 => 3,
            File::ObTex3 => 4,
            File::ObLin4 => 5,
            File::Tramo5 => 8,
            File::Vertice6 => 9,
            File::Nodo7 => 10,
        }
    }
}

#[derive(Clone, Copy, Debug, PartialEq, Eq)]
pub enum Told {
    // Neither a section, a key line nor an empty line.
    Nothing,
    Empty,
    // A section of another name than FICHERO and digits, and such a one.
    Section,
    Fichero,
    // A key that is passed over.
    Other,
    // VERSION_DE_MIGRA, and whether it is 1.
    Version(bool),
    // NOMBRE_MIGRA, and the file, where it names one.
    Name(Option<File>),
    // NUMERO_DE_REGISTROS and TAMAÑO_EN_BYTES, and the number, where it is one that a file may have.
    Count(Option<u64>),
    Size(Option<u64>),
}

impl Told {
    pub(crate) fn is_nothing(self) -> bool
        ensures { result ≡ is_nothing self }
    {
        matches!(self, Told::Nothing)
    }

    // A section of a file, and any section.
    pub(crate) fn is_file(self) -> bool
        ensures { result ≡ is_file self }
    {
        matches!(self, Told::Fichero)
    }

    pub(crate) fn is_head(self) -> bool
        ensures { result ≡ is_head self }
    {
        matches!(self, Told::Section | Told::Fichero)
    }

    // The file that a name names.
    pub(crate) fn file(self) -> Option<File>
        ensures { result ≡ file_told self }
    {
        if let Told::Name(file) = self {
            file
        } else {
            None
        }
    }

    // Whether it names the file.
    pub(crate) fn names(self, file: File) -> bool
        ensures { result ≡ same_file (file_told self) file }
    {
        match self {
            Told::Name(Some(f)) => f == file,
            _ => false,
        }
    }

    // Whether the line gives the number: as a count or as a size.
    pub(crate) fn gives(self, x: u64) -> bool
        ensures { result ≡ gives self x }
    {
        match self {
            Told::Count(Some(n)) | Told::Size(Some(n)) => n == x,
            _ => false,
        }
    }
}

// The keys that a section of a file needs.
#[derive(Clone, Copy)]
pub(crate) enum Key {
    Name,
    Count,
    Size,
}

impl Key {
    // Whether a line is the key's.
    pub(crate) fn has(self, t: Told) -> bool
        ensures { result ≡ is_key self t }
    {
        match self {
            Key::Name => matches!(t, Told::Name(_)),
            Key::Count => matches!(t, Told::Count(_)),
            Key::Size => matches!(t, Told::Size(_)),
        }
    }
}
