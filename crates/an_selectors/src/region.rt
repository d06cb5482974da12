ghost use Rattle.std.specs.Prelude.{◌≡◌, [], ◌∷◌, MatchOption};
ghost use Rattle.an_selectors.specs.Region.{coordinate, parts_of, region_of};
ghost use Rattle.an_selectors.specs.Region.{region_of_numbers, region_of_parts, size, without_unit};

use an_base::{after_front, read_decimal};

/// A rectangle of an image, in pixels: its upper left corner, its width and its height.
#[derive(Clone, Copy, Debug, PartialEq, Eq)]
pub struct Xywh {
    pub x: u32,
    pub y: u32,
    pub w: u32,
    pub h: u32,
}

/// The region that a fragment is (Media Fragments URI 1.0, section 4.2.2): `xywh=x,y,w,h` or
/// `xywh=pixel:x,y,w,h`, with decimal numbers without leading zeros, `w` and `h` at least 1. Takes
/// no memory.
pub fn read_xywh(fragment: &str) -> Option<Xywh>
    ensures region { result ≡ region_of fragment.now }
{
    match after_front("xywh=", fragment) {
        Some(numbers) => read_region_numbers(without_unit(numbers)),
        None => None,
    }
}

/// The region that four numbers `x,y,w,h` are. Takes no memory.
pub fn read_region_numbers(text: &str) -> Option<Xywh>
    ensures region { result ≡ region_of_numbers text.now }
{
    let (x, rest) = cut(text)?;
    let (y, rest) = cut(rest)?;
    let (w, h) = cut(rest)?;
    match cut(h) {
        Some(_) => None,
        None => region(x, y, w, h),
    }
}

/// The parts of a text before and behind its first comma.
fn cut(text: &str) -> Option<(&str, &str)>
    ensures { MatchOption result (parts_of text.now ≡ text.now ∷ [])
        (λ parts. parts_of text.now ≡ parts.0.now ∷ parts_of parts.1.now) }
{
    text.split_once(',')
}

fn region(x: &str, y: &str, w: &str, h: &str) -> Option<Xywh>
    ensures { result ≡ region_of_parts (x.now ∷ y.now ∷ w.now ∷ h.now ∷ []) }
{
    let x = coordinate(x)?;
    let y = coordinate(y)?;
    let w = size(w)?;
    let h = size(h)?;
    Some(Xywh { x, y, w, h })
}

fn coordinate(text: &str) -> Option<u32>
    ensures { result ≡ coordinate text.now }
{
    read_decimal(text, u32::MAX)
}

fn size(text: &str) -> Option<u32>
    ensures { result ≡ size text.now }
{
    match coordinate(text) {
        Some(n) => if 1 <= n { Some(n) } else { None },
        None => None,
    }
}

fn without_unit(text: &str) -> &str
    ensures { result.now ≡ without_unit text.now }
{
    match after_front("pixel:", text) {
        Some(rest) => rest,
        None => text,
    }
}
