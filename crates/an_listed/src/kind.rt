/// Of which kind lists are: by what they have a row.
#[derive(Clone, Copy, Debug)]
pub enum Kind {
    /// By its manifest, its class and each of its terms.
    Words,
    /// By its class and each of its terms, whatever manifest it is on.
    Anywhere,
    /// By its manifest and its class, whatever terms it has.
    Whole,
}
