/// The language of a source's instruction words, and of the letters of its addresses.
#[derive(Clone, Copy, Debug, PartialEq, Eq)]
pub enum Language {
    English,
    German,
}
