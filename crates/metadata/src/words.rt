// Words in any letter case.
ghost use Rattle.std.specs.Prelude.{◌≡◌};
ghost use Rattle.metadata.specs.Words.{small, is_word, file_named};

use crate::told::File;

// A byte; of a capital letter of ASCII or of ISO 8859-1 its small one.
#[tactic(auto, unfolding(crate::specs::Words::small))]
fn small_of(b: u8) -> u8
    ensures { result ≡ small b }
{
    if ((65 <= b) & (b <= 90)) | ((192 <= b) & (b <= 222) & (b != 215)) {
        b + 32
    } else {
        b
    }
}

// Whether the bytes are the word, which is in small letters.
pub fn is_word(word: &[u8], t: &[u8]) -> bool
    ensures { result ≡ is_word word.now t.now }
{
    if t.len() != word.len() {
        return false;
    }
    for (i, w) in word.iter().enumerate() {
        if small_of(t[i]) != *w {
            return false;
        }
    }
    true
}

// The file that the bytes name, where they name one. The accent is ISO 8859-1's.
#[tactic(auto, unfolding(crate::specs::Words::file_named))]
pub fn file_named(t: &[u8]) -> Option<File>
    ensures { result ≡ file_named t.now }
{
    if is_word(b"catalogo_de_elementos", t) | is_word(b"cat\xE1logo_de_elementos", t) {
        return Some(File::Catalogo1);
    }
    if is_word(b"objeto_puntual", t) {
        return Some(File::ObPun2);
    }
    if is_word(b"objeto_textual", t) {
        return Some(File::ObTex3);
    }
    if is_word(b"objeto_lineal", t) {
        return Some(File::ObLin4);
    }
    if is_word(b"tramo", t) {
        return Some(File::Tramo5);
    }
    if is_word(b"vertice", t) {
        return Some(File::Vertice6);
    }
    if is_word(b"nodo", t) {
        return Some(File::Nodo7);
    }
    if is_word(b"objeto_compuesto", t) {
        return Some(File::ObComp8);
    }
    None
}
