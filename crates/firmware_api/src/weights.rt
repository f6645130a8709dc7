ghost use Rattle.std.specs.Prelude.{◌≡◌, ◌≢◌, ◌≤◌, Result, length};
ghost use Rattle.text_lines.specs.Lines.{lines_of};
ghost use Rattle.applications.specs.declared.weights.lines.WeightLinesFault.{WeightLinesFault};
ghost use Rattle.applications.specs.Weights.{TableWeights};
ghost use Rattle.applications.specs.WeightLines.{IsAnswer};
ghost use Rattle.firmware_api.specs.ReadWeights.{IsTold, line_of};
ghost use Rattle.firmware_api.specs.Statuses.{done};

use crate::status::{DONE, weights_status};
use applications::{WeightLinesFault, read_weight_lines};

/// Puts into `weights` what the lines of a text say, or into `line` the number of the first faulty one.
#[unsafe(no_mangle)]
pub extern "C" fn dovecounter_weights(
    text: &[u8],
    weights: &mut [u32; 256],
    line: &mut usize,
) -> u32
    ensures told { (read : Result TableWeights WeightLinesFault) × IsAnswer (lines_of text.now) read
        × IsTold read result weights.old weights.new line.old line.new }
    ensures short { result ≢ done → line.new ≤ length text.now }
{
    match read_weight_lines(text) {
        Ok(read) => {
            *weights = read;
            DONE
        }
        Err(fault) => {
            *line = line_of(fault);
            weights_status(fault)
        }
    }
}

fn line_of(fault: WeightLinesFault) -> usize
    ensures { result ≡ line_of fault }
{
    match fault {
        WeightLinesFault::BadLine(line) | WeightLinesFault::SameIdTwice(line) => line,
        WeightLinesFault::NoHost => 0,
    }
}
