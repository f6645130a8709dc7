// A row of the picture.
ghost use Rattle.std.specs.Prelude.{◌≡◌, ◌++◌, ◌∷◌, [], OnOk, codes};
ghost use Rattle.hex.specs.Hex.{encode_lower};
ghost use Rattle.plan_drawing.specs.Picture.{cells, edge, inside, row_line, trimmed};

use arrayvec::ArrayVec;
use control_sets::ControlSet;
use std::alloc::AllocError;
use text_lines::HexByte;

/// What a row shows of each lane.
#[derive(Clone, Copy)]
pub enum Row {
    /// The lines above and below the boxes.
    Frame,
    /// Which path takes the lane.
    Names,
    /// The control bytes.
    Control,
}

/// What the rows tell: a label for each path, and the control byte of each host lane.
#[derive(Drop)]
pub struct RowContents {
    pub labels: ArrayVec<[u8; 7], 8>,
    pub control: ControlSet,
}

/// Adds a row of the lanes that these paths take, 0 for none.
#[tactic(auto, unfolding(crate::specs::Picture::row_line))]
pub fn push_row(
    out: &mut Vec<u8>,
    row: Row,
    contents: &RowContents,
    owners: &[u8],
) -> Result<(), AllocError>
    ensures { OnOk result (out.new.items ≡ out.old.items ++ (row_line row contents.now.labels.items contents.now.control owners.now ++ 10 ∷ [])) }
{
    let mut line = b"             ".to_vec(*out.allocator())?;
    push_cells(&mut line, row, contents, owners)?;
    push_trimmed(out, &line)
}

fn push_trimmed(out: &mut Vec<u8>, line: &[u8]) -> Result<(), AllocError>
    ensures { OnOk result (out.new.items ≡ out.old.items ++ (trimmed line.now ++ 10 ∷ [])) }
{
    out.extend_from_slice(line.trim_ascii_end())?;
    out.push(b'\n')?;
    Ok(())
}

#[tactic(auto, unfolding(crate::specs::Picture::cells))]
fn push_cells(
    out: &mut Vec<u8>,
    row: Row,
    contents: &RowContents,
    owners: &[u8],
) -> Result<(), AllocError>
    ensures { OnOk result (out.new.items ≡ out.old.items ++ cells row contents.now.labels.items contents.now.control 0 0 owners.now) }
{
    let mut before = 0;
    for (index, owner) in owners.iter().enumerate() {
        out.push(edge(row, before, *owner))?;
        out.extend_from_slice(&inside(row, contents, index, before, *owner))?;
        before = *owner;
    }
    out.push(edge(row, before, 0))?;
    Ok(())
}

fn edge(row: Row, before: u8, owner: u8) -> u8
    ensures { result ≡ edge row before owner }
{
    match row {
        Row::Frame if before != owner => b'+',
        Row::Frame if owner == 0 => b' ',
        Row::Frame => b'-',
        Row::Names | Row::Control => if before == owner { b' ' } else { b'|' },
    }
}

fn inside(row: Row, contents: &RowContents, index: usize, before: u8, owner: u8) -> [u8; 7]
    ensures { result ≡ inside row contents.now.labels.items contents.now.control index before owner }
{
    match row {
        Row::Frame => if owner == 0 { [b' '; 7] } else { [b'-'; 7] },
        Row::Names => if owner == 0 {
            *b"   -   "
        } else if before == owner {
            [b' '; 7]
        } else {
            let label = contents.labels.get(usize::from(owner) - 1);
            label.copied().unwrap_or([b' '; 7])
        },
        Row::Control => if owner == 0 {
            [b' '; 7]
        } else {
            byte(contents.control.get(index).copied().unwrap_or(0))
        },
    }
}

fn byte(value: u8) -> [u8; 7]
    ensures { result ≡ 32 ∷ encode_lower (value ∷ []) ++ codes "    " }
{
    let [high, low] = HexByte(value).digits();
    [b' ', high, low, b' ', b' ', b' ', b' ']
}
