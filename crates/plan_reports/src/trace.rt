ghost use Rattle.std.specs.Prelude.{◌≡◌, ◌++◌, ◌∷◌, [], IfOk, OnOk, codes};
ghost use Rattle.std.specs.Fmt.{decimal};
ghost use Rattle.text_lines.specs.Lines.{text_of};
ghost use Rattle.bus_model.specs.DeviceName.{device_name};
ghost use Rattle.report_entries.specs.Shown.{spaced_bytes};
ghost use Rattle.plan_reports.specs.Trace.{op_text, reply_text, step_line, step_text, trace_lines};

use bus_model::{Dev, Op, Reply, Step};
use itoa::Buffer;
use std::alloc::{AllocError, Global};
use text_lines::HexByte;

/// The steps made on a bus, a line each, numbered from 1.
pub fn trace_text(alloc: Global, steps: &[Step]) -> Result<Vec<u8>, AllocError>
    ensures { IfOk result (λ text. text.items ≡ text_of (trace_lines steps.now)) }
{
    let mut text = Vec::new(alloc);
    for (index, step) in steps.iter().enumerate() {
        push_step(&mut text, index + 1, step)?;
    }
    Ok(text)
}

#[tactic(auto, unfolding(crate::specs::Trace::step_line, crate::specs::Trace::step_text))]
fn push_step(text: &mut Vec<u8>, number: usize, step: &Step) -> Result<(), AllocError>
    ensures { OnOk result (text.new.items ≡ text.old.items ++ (step_line number step.now ++ 10 ∷ [])) }
{
    push_number(text, number)?;
    text.extend_from_slice(b" ")?;
    push_op(text, &step.op)?;
    text.extend_from_slice(b" =")?;
    push_reply(text, &step.reply)?;
    text.extend_from_slice(b"\n")?;
    Ok(())
}

fn push_op(text: &mut Vec<u8>, op: &Op) -> Result<(), AllocError>
    ensures { OnOk result (text.new.items ≡ text.old.items ++ op_text op.now) }
{
    match op {
        Op::Fetch { dev, offset, count } => {
            text.extend_from_slice(b"fetch ")?;
            push_place(text, *dev, *offset)?;
            text.extend_from_slice(b" ")?;
            push_number(text, usize::from(*count))
        }
        Op::Store { dev, offset, bytes } => {
            text.extend_from_slice(b"store ")?;
            push_place(text, *dev, *offset)?;
            push_bytes(text, bytes.as_slice())
        }
    }
}

// With a space before it.
fn push_reply(text: &mut Vec<u8>, reply: &Reply) -> Result<(), AllocError>
    ensures { OnOk result (text.new.items ≡ text.old.items ++ reply_text reply.now) }
{
    match reply {
        Reply::Bytes(bytes) => push_bytes(text, bytes.as_slice()),
        Reply::Done => text.extend_from_slice(b" done"),
        Reply::Refused => text.extend_from_slice(b" refused"),
    }
}

// A device and an address.
fn push_place(text: &mut Vec<u8>, dev: Dev, offset: u8) -> Result<(), AllocError>
    ensures { OnOk result (text.new.items ≡ text.old.items ++ (device_name dev ++ (codes " " ++ decimal offset))) }
{
    match dev {
        Dev::A0 => text.extend_from_slice(b"A0 ")?,
        Dev::A2 => text.extend_from_slice(b"A2 ")?,
    }
    push_number(text, usize::from(offset))
}

// In hexadecimal, each with a space before it.
#[tactic(auto, unfolding(report_entries::specs::Shown::spaced_bytes))]
fn push_bytes(text: &mut Vec<u8>, bytes: &[u8]) -> Result<(), AllocError>
    ensures { OnOk result (text.new.items ≡ text.old.items ++ spaced_bytes bytes.now) }
{
    for byte in bytes {
        let [high, low] = HexByte(*byte).digits();
        text.extend_from_slice(&[b' ', high, low])?;
    }
    Ok(())
}

fn push_number(text: &mut Vec<u8>, number: usize) -> Result<(), AllocError>
    ensures { OnOk result (text.new.items ≡ text.old.items ++ decimal number) }
{
    text.extend_from_slice(Buffer::new().format(number).as_bytes())
}
