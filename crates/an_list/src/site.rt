ghost use Rattle.std.specs.Prelude.{◌≡◌, IsTrue};
ghost use Rattle.std.specs.List.{list_all};
ghost use Rattle.an_base.specs.Outcome.{Gives};
ghost use Rattle.an_list.specs.Site.{goes_on_from, is_base_sign, is_base, is_size};
ghost use Rattle.an_list.specs.Site.{size_of, site_of};

use an_base::{Text, read_decimal};
use std::alloc::Global;
use std::marker::Model;

/// How many bytes the start of an IRI has at most.
const MAX_BASE: usize = 200;

/// How many items a page has at most.
const MAX_SIZE: u32 = 100;

/// Where the server stands, and how many items a page has.
#[derive(Debug, Drop)]
pub struct Site {
    /// The start of every IRI of the server: `http://` or `https://` and more, at most 200 bytes of
    /// letters, digits and `-._~:/`, of which the last isn't `/`.
    pub base: Text,
    /// From 1 to 100.
    pub size: u32,
}

impl Model for Site {
    ghost use Rattle.std.specs.Prelude.{IsTrue};
    ghost use Rattle.an_list.specs.Site.{Site, is_base, is_size};

    ghost Value = { Site };

    ghost view = { λ s. record { base = s.base; size = s.size } };

    ghost invariant = { λ s. IsTrue (is_base s.base) × IsTrue (is_size s.size) };
}

/// Why two words give no site.
#[derive(Clone, Copy, Debug, PartialEq, Eq)]
pub enum SiteError {
    /// The first is no start of an IRI.
    Base,
    /// The second is no decimal number from 1 to 100 without leading zeros.
    Size,
    Memory,
}

impl Site {
    pub fn base(&self) -> &str
        ensures value { result.now ≡ self.now.base }
        ensures form { IsTrue (is_base self.now.base) }
    {
        self.base.as_str()
    }

    pub fn size(&self) -> u32
        ensures value { result ≡ self.now.size }
        ensures form { IsTrue (is_size self.now.size) }
    {
        self.size
    }
}

/// The site that two words give, or the first of the refusals in their order.
pub fn read_site(alloc: Global, base: &str, size: &str) -> Result<Site, SiteError>
    ensures site { Gives (λ s. s) SiteError.Memory result (site_of base.now size.now) }
{
    if !is_base(base.as_bytes()) {
        return Err(SiteError::Base);
    }
    match size_of(size) {
        None => Err(SiteError::Size),
        Some(size) => match Text::new(alloc, base) {
            Ok(base) => Ok(Site { base, size }),
            Err(_) => Err(SiteError::Memory),
        },
    }
}

#[tactic(auto, unfolding(crate::specs::Site::is_base))]
fn is_base(bytes: &[u8]) -> bool
    ensures { result ≡ is_base bytes.now }
{
    (goes_on_from("http://", bytes) || goes_on_from("https://", bytes))
        && bytes.len() <= MAX_BASE
        && has_base_signs(bytes)
        && !bytes.ends_with("/".as_bytes())
}

fn goes_on_from(start: &str, bytes: &[u8]) -> bool
    ensures { result ≡ goes_on_from start.now bytes.now }
{
    bytes.starts_with(start.as_bytes()) && start.len() < bytes.len()
}

fn has_base_signs(bytes: &[u8]) -> bool
    ensures { result ≡ list_all is_base_sign bytes.now }
{
    bytes.iter().all(|b| is_base_sign(*b))
}

fn is_base_sign(byte: u8) -> bool
    ensures { result ≡ is_base_sign byte }
{
    byte.is_ascii_alphanumeric() || matches!(byte, b'-' | b'.' | b'_' | b'~' | b':' | b'/')
}

fn size_of(text: &str) -> Option<u32>
    ensures { result ≡ size_of text.now }
{
    match read_decimal(text, MAX_SIZE) {
        Some(size) => if 1 <= size { Some(size) } else { None },
        None => None,
    }
}
