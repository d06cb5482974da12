ghost use Rattle.std.specs.Prelude.{◌≡◌};
ghost use Rattle.std.specs.List.{list_any};
ghost use Rattle.an_pages.specs.Canvas.{cross, overlap, meets, is_kept_in};

use an_model::KeptTarget;
use an_selectors::Xywh;

/// Whether one of the targets is on the canvas and, where a region is asked for, meets that.
pub(crate) fn has_target_in(targets: &[KeptTarget], canvas: &str, asked: Option<Xywh>) -> bool
    ensures { result ≡ list_any (is_kept_in canvas.now asked) targets.now }
{
    targets
        .iter()
        .any(|target| is_target_in(target, canvas, asked))
}

fn is_target_in(target: &KeptTarget, canvas: &str, asked: Option<Xywh>) -> bool
    ensures { result ≡ is_kept_in canvas.now asked target.now }
{
    target.source.as_str() == canvas && meets(asked, target.region)
}

/// Whether a target with this region is about the region that is asked for, if one is. A target
/// without a region is about the whole canvas.
fn meets(asked: Option<Xywh>, region: Option<Xywh>) -> bool
    ensures { result ≡ meets asked region }
{
    match (asked, region) {
        (Some(asked), Some(region)) => overlap(asked, region),
        _ => true,
    }
}

/// Whether two regions have a pixel in common. Those that touch have none.
fn overlap(one: Xywh, other: Xywh) -> bool
    ensures { result ≡ overlap one other }
{
    cross(one.x, one.w, other.x, other.w) && cross(one.y, one.h, other.y, other.h)
}

/// Whether two stretches, each from its start and of its size, have a pixel in common.
fn cross(start: u32, size: u32, other: u32, other_size: u32) -> bool
    ensures { result ≡ cross start size other other_size }
{
    u64::from(start) < u64::from(other) + u64::from(other_size)
        && u64::from(other) < u64::from(start) + u64::from(size)
}
