// The drawing as an SVG.
ghost use Rattle.std.specs.Prelude.{◌≡◌, ◌++◌, ◌∷◌, [], ◌≤◌, flat_map, length, map, IfOk, OnOk};
ghost use Rattle.std.specs.List.{enumerate_from};
ghost use Rattle.text_lines.specs.Lines.{text_of};
ghost use Rattle.plan_certificate.specs.Plans.{IsAdmissible};
ghost use Rattle.plan_drawing.specs.Svg.{block_begin, control_element, escaped, head, head_begin, head_end, height_of, lane_elements, path_elements, shape_lines, sides, style, svg_lines, text_block};

use crate::elements::{left_of, push_band, push_box, push_text_at};
use crate::picture::label_of;
use applications::Advert;
use control_sets::bytes_of;
use field_tables::LaneNumber;
use itoa::Buffer;
use lane_planner::Problem;
use plan_certificate::{Path, Plan};
use std::alloc::{AllocError, Global};
use text_lines::HexByte;

/// The SVG of a plan, in which kept paths have a star, with a text below it.
pub fn svg_of(
    alloc: Global,
    problem: &Problem,
    plan: &Plan,
    text: &[u8],
) -> Result<Vec<u8>, AllocError>
    requires { IsAdmissible problem.now.advert.now plan.now }
    ensures { IfOk result (λ svg. svg.items ≡ text_of (svg_lines problem.now.advert.now problem.now.kept.now plan.now text.now)) }
{
    let mut out = Vec::new(alloc);
    push_head(&mut out, text)?;
    push_shapes(&mut out, problem, plan)?;
    push_text(&mut out, text)?;
    out.extend_from_slice(b"</svg>\n")?;
    Ok(out)
}

fn push_shapes(out: &mut Vec<u8>, problem: &Problem, plan: &Plan) -> Result<(), AllocError>
    requires { IsAdmissible problem.now.advert.now plan.now }
    ensures { OnOk result (out.new.items ≡ out.old.items ++ text_of (shape_lines problem.now.advert.now problem.now.kept.now plan.now)) }
{
    let (advert, kept) = (problem.advert, problem.kept);
    push_paths(out, advert, kept.paths.as_slice(), plan.paths.as_slice())?;
    push_lanes(out, &LaneNumber::all())?;
    push_control(out, &bytes_of(advert, plan))
}

// ---- lanes

fn push_lanes(out: &mut Vec<u8>, lanes: &[LaneNumber]) -> Result<(), AllocError>
    ensures { OnOk result (out.new.items ≡ out.old.items ++ text_of (map lane_elements lanes.now)) }
{
    for lane in lanes {
        push_lane(out, lane.number())?;
    }
    Ok(())
}

#[tactic(auto, unfolding(crate::specs::Svg::lane_elements))]
fn push_lane(out: &mut Vec<u8>, lane: u8) -> Result<(), AllocError>
    ensures { OnOk result (out.new.items ≡ out.old.items ++ (lane_elements lane ++ 10 ∷ [])) }
{
    let left = left_of(lane);
    push_box(out, b"lane", left, 30, 80, 60)?;
    push_box(out, b"lane", left, 190, 80, 40)?;
    let mut buffer = Buffer::new();
    let number = buffer.format(lane).as_bytes();
    push_text_at(out, left + 36, 22, number)?;
    push_text_at(out, left + 36, 248, number)?;
    out.push(b'\n')?;
    Ok(())
}

fn push_control(out: &mut Vec<u8>, control: &[u8]) -> Result<(), AllocError>
    requires { length control.now ≤ 8 }
    ensures { OnOk result (out.new.items ≡ out.old.items ++ text_of (map control_element (enumerate_from 1 control.now))) }
{
    for (index, byte) in control.iter().enumerate() {
        push_control_byte(out, index as u8 + 1, *byte)?;
    }
    Ok(())
}

#[tactic(auto, unfolding(crate::specs::Svg::control_element))]
fn push_control_byte(out: &mut Vec<u8>, lane: u8, byte: u8) -> Result<(), AllocError>
    ensures { OnOk result (out.new.items ≡ out.old.items ++ (control_element (lane, byte) ++ 10 ∷ [])) }
{
    let left = left_of(lane) + 8;
    match byte {
        0 => push_text_at(out, left, 80, b"-")?,
        _ => push_text_at(out, left, 80, &HexByte(byte).digits())?,
    }
    out.push(b'\n')?;
    Ok(())
}

// ---- paths

fn push_paths(
    out: &mut Vec<u8>,
    advert: &Advert,
    kept: &[Path],
    paths: &[Path],
) -> Result<(), AllocError>
    requires { length paths.now ≤ 8 }
    ensures { OnOk result (out.new.items ≡ out.old.items ++ text_of (map (path_elements advert.now kept.now) (enumerate_from 1 paths.now))) }
{
    for (index, path) in paths.iter().enumerate() {
        push_path(out, advert, kept, index as u8 + 1, *path)?;
    }
    Ok(())
}

#[tactic(auto, unfolding(crate::specs::Svg::path_elements, crate::specs::Svg::path_shapes))]
fn push_path(
    out: &mut Vec<u8>,
    advert: &Advert,
    kept: &[Path],
    number: u8,
    path: Path,
) -> Result<(), AllocError>
    requires { number ≤ 8 }
    ensures { OnOk result (out.new.items ≡ out.old.items ++ (path_elements advert.now kept.now (number, path) ++ 10 ∷ [])) }
{
    let app = path.application(advert);
    let class = [64 + number];
    let label = label_of(kept, number, path);
    let (host, media) = (left_of(path.host), left_of(path.media));
    let host_width = 80 * u64::from(app.host_lanes);
    let media_width = 80 * u64::from(app.media_lanes);
    push_band(
        out,
        &class,
        host,
        host + host_width,
        media,
        media + media_width,
    )?;
    push_box(out, &class, host, 30, host_width, 60)?;
    push_box(out, &class, media, 190, media_width, 40)?;
    push_text_at(out, host + 8, 54, &label)?;
    push_text_at(out, media + 8, 215, &label)?;
    out.push(b'\n')?;
    Ok(())
}

// ---- the head, and the text below

fn push_head(out: &mut Vec<u8>, text: &[u8]) -> Result<(), AllocError>
    ensures { OnOk result (out.new.items ≡ out.old.items ++ text_of (head (height_of text.now) ∷ style ∷ sides ∷ [])) }
{
    let lines = text.iter().filter(|byte| **byte == b'\n').count();
    push_size(out, 300 + 18 * lines as u128)?;
    push_style(out)?;
    push_sides(out)
}

#[tactic(auto, unfolding(crate::specs::Svg::head))]
fn push_size(out: &mut Vec<u8>, height: u128) -> Result<(), AllocError>
    ensures { OnOk result (out.new.items ≡ out.old.items ++ (head height ++ 10 ∷ [])) }
{
    push_head_begin(out)?;
    out.extend_from_slice(Buffer::new().format(height).as_bytes())?;
    push_head_end(out)?;
    out.push(b'\n')?;
    Ok(())
}

#[tactic(auto, unfolding(crate::specs::Svg::head_begin))]
fn push_head_begin(out: &mut Vec<u8>) -> Result<(), AllocError>
    ensures { OnOk result (out.new.items ≡ out.old.items ++ head_begin) }
{
    out.extend_from_slice(b"<svg xmlns=\"http://www.w3.org/2000/svg\" width=\"760\" height=\"")
}

#[tactic(auto, unfolding(crate::specs::Svg::head_end))]
fn push_head_end(out: &mut Vec<u8>) -> Result<(), AllocError>
    ensures { OnOk result (out.new.items ≡ out.old.items ++ head_end) }
{
    out.extend_from_slice(
        b"\" font-family=\"monospace\" font-size=\"14\" style=\"background:#fff\">",
    )
}

#[tactic(auto, unfolding(crate::specs::Svg::style))]
fn push_style(out: &mut Vec<u8>) -> Result<(), AllocError>
    ensures { OnOk result (out.new.items ≡ out.old.items ++ (style ++ 10 ∷ [])) }
{
    out.extend_from_slice(
        b"<style>.lane{fill:none;stroke:#999}.A{fill:#8ecae6}.B{fill:#ffb703}.C{fill:#a7c957}.D{fill:#f28482}.E{fill:#b8a1d9}.F{fill:#84dcc6}.G{fill:#f4a261}.H{fill:#cdb4db}</style>\n",
    )
}

#[tactic(auto, unfolding(crate::specs::Svg::sides))]
fn push_sides(out: &mut Vec<u8>) -> Result<(), AllocError>
    ensures { OnOk result (out.new.items ≡ out.old.items ++ (sides ++ 10 ∷ [])) }
{
    push_text_at(out, 6, 64, b"host")?;
    push_text_at(out, 6, 80, b"lanes")?;
    push_text_at(out, 6, 206, b"media")?;
    push_text_at(out, 6, 222, b"lanes")?;
    out.push(b'\n')?;
    Ok(())
}

#[tactic(auto, unfolding(crate::specs::Svg::text_block))]
fn push_text(out: &mut Vec<u8>, text: &[u8]) -> Result<(), AllocError>
    ensures { OnOk result (out.new.items ≡ out.old.items ++ (text_block text.now ++ 10 ∷ [])) }
{
    push_block_begin(out)?;
    push_escaped(out, text)?;
    out.extend_from_slice(b"</tspan></text>\n")
}

#[tactic(auto, unfolding(crate::specs::Svg::block_begin))]
fn push_block_begin(out: &mut Vec<u8>) -> Result<(), AllocError>
    ensures { OnOk result (out.new.items ≡ out.old.items ++ block_begin) }
{
    out.extend_from_slice(b"<text y=\"270\" xml:space=\"preserve\"><tspan x=\"10\" dy=\"18\"> ")
}

fn push_escaped(out: &mut Vec<u8>, text: &[u8]) -> Result<(), AllocError>
    ensures { OnOk result (out.new.items ≡ out.old.items ++ flat_map escaped text.now) }
{
    for byte in text {
        push_byte(out, *byte)?;
    }
    Ok(())
}

fn push_byte(out: &mut Vec<u8>, byte: u8) -> Result<(), AllocError>
    ensures { OnOk result (out.new.items ≡ out.old.items ++ escaped byte) }
{
    match byte {
        b'<' => out.extend_from_slice(b"&lt;"),
        b'>' => out.extend_from_slice(b"&gt;"),
        b'&' => out.extend_from_slice(b"&amp;"),
        b'\n' => out.extend_from_slice(b"</tspan>\n<tspan x=\"10\" dy=\"18\"> "),
        _ => {
            out.push(byte)?;
            Ok(())
        }
    }
}
