// What elements of an SVG are made of.
ghost use Rattle.std.specs.Prelude.{◌≡◌, ◌++◌, OnOk};
ghost use Rattle.plan_drawing.specs.Svg.{attribute, band, class_attribute, left_of, point, points, points_begin, rectangle, text_at};

use crate::columns::push_number;
use std::alloc::AllocError;

#[tactic(auto, unfolding(crate::specs::Svg::attribute))]
fn push_attribute(out: &mut Vec<u8>, name: &str, value: u64) -> Result<(), AllocError>
    ensures { OnOk result (out.new.items ≡ out.old.items ++ attribute name.now value) }
{
    out.push(b' ')?;
    out.extend_from_slice(name.as_bytes())?;
    out.extend_from_slice(b"=\"")?;
    push_number(out, value)?;
    out.push(b'"')?;
    Ok(())
}

#[tactic(auto, unfolding(crate::specs::Svg::text_at))]
pub fn push_text_at(out: &mut Vec<u8>, x: u64, y: u64, content: &[u8]) -> Result<(), AllocError>
    ensures { OnOk result (out.new.items ≡ out.old.items ++ text_at x y content.now) }
{
    out.extend_from_slice(b"<text")?;
    push_attribute(out, "x", x)?;
    push_attribute(out, "y", y)?;
    out.push(b'>')?;
    out.extend_from_slice(content)?;
    out.extend_from_slice(b"</text>")
}

#[tactic(auto, unfolding(crate::specs::Svg::rectangle))]
pub fn push_box(
    out: &mut Vec<u8>,
    class: &[u8],
    x: u64,
    y: u64,
    width: u64,
    height: u64,
) -> Result<(), AllocError>
    ensures { OnOk result (out.new.items ≡ out.old.items ++ rectangle class.now x y width height) }
{
    out.extend_from_slice(b"<rect")?;
    push_class(out, class)?;
    push_attribute(out, "x", x)?;
    push_attribute(out, "y", y)?;
    push_attribute(out, "width", width)?;
    push_attribute(out, "height", height)?;
    out.extend_from_slice(b"/>")
}

/// The left edge of a lane.
pub fn left_of(lane: u8) -> u64
    ensures { result ≡ left_of lane }
{
    20 + 80 * u64::from(lane)
}

#[tactic(auto, unfolding(crate::specs::Svg::class_attribute))]
fn push_class(out: &mut Vec<u8>, class: &[u8]) -> Result<(), AllocError>
    ensures { OnOk result (out.new.items ≡ out.old.items ++ class_attribute class.now) }
{
    out.extend_from_slice(b" class=\"")?;
    out.extend_from_slice(class)?;
    out.push(b'"')?;
    Ok(())
}

/// The band from a path's host lanes to its media lanes.
#[tactic(auto, unfolding(crate::specs::Svg::band))]
pub fn push_band(
    out: &mut Vec<u8>,
    class: &[u8],
    host: u64,
    host_end: u64,
    media: u64,
    media_end: u64,
) -> Result<(), AllocError>
    ensures { OnOk result (out.new.items ≡ out.old.items ++ band class.now host host_end media media_end) }
{
    out.extend_from_slice(b"<polygon")?;
    push_class(out, class)?;
    push_points_begin(out)?;
    push_points(out, host, host_end, media, media_end)?;
    out.extend_from_slice(b"/>")
}

#[tactic(auto, unfolding(crate::specs::Svg::points_begin))]
fn push_points_begin(out: &mut Vec<u8>) -> Result<(), AllocError>
    ensures { OnOk result (out.new.items ≡ out.old.items ++ points_begin) }
{
    out.extend_from_slice(b" opacity=\"0.4\" points=\"")
}

#[tactic(auto, unfolding(crate::specs::Svg::points))]
fn push_points(
    out: &mut Vec<u8>,
    host: u64,
    host_end: u64,
    media: u64,
    media_end: u64,
) -> Result<(), AllocError>
    ensures { OnOk result (out.new.items ≡ out.old.items ++ points host host_end media media_end) }
{
    push_point(out, host, 90, b' ')?;
    push_point(out, host_end, 90, b' ')?;
    push_point(out, media_end, 190, b' ')?;
    push_point(out, media, 190, b'"')
}

#[tactic(auto, unfolding(crate::specs::Svg::point))]
fn push_point(out: &mut Vec<u8>, x: u64, y: u64, end: u8) -> Result<(), AllocError>
    ensures { OnOk result (out.new.items ≡ out.old.items ++ point x y end) }
{
    push_number(out, x)?;
    out.push(b',')?;
    push_number(out, y)?;
    out.push(end)?;
    Ok(())
}
