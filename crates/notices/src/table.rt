//! The table of sentences, one line each.
ghost use Rattle.std.specs.Prelude.{◌≡◌, map, option_map, option_copied};
ghost use Rattle.notices.specs.Sentences.{row_of, row_by_code, sentences};

/// What a person is told of a fault: what is wrong, and what to do.
#[derive(Clone, Copy)]
pub struct Sentence {
    /// The code, as the line of the fault spells it. A code that stands for several causes has further rows, with a word for the
    /// cause after the code.
    pub code: &'static str,
    pub text: &'static str,
}

macro_rules! table {
    ($($code:literal $text:literal;)*) => {
        &[$(Sentence { code: $code, text: $text }),*]
    };
}

/// All sentences, in the order of docs/faults.md.
pub fn sentences() -> &'static [Sentence]
    ensures { map row_of result.now ≡ sentences }
{
    table! {
        "memory" "memory ran out: raise the limits of the process (ulimit -v, its control group), and call again";
        "IO" "standard input could not be read, or did not end: give a file by '< FILE', or a pipe that ends";
        "output" "standard output could not be written whole, so the answer may be cut off: is the disk full, or the other end of a pipe closed?";
        "PT1" "the command takes another number of parts, between lines '---': reports 1, plan and draw 2, check, provision and trace 3; with --keep one more";
        "PT2" "the input is longer than 1048576 bytes, and no input of a module is: is it the right file?";
        "IM1" "the image does not begin with the line 'module-image 1': if it is a dump of a module, 'tools/module-image FILE' makes an image of it";
        "IM1 empty" "nothing came on standard input: give an image by '< FILE', as 'tools/module-image' makes it of a port or of a dump";
        "IM1 mark" "a byte order mark stands before the first line: save the image as plain ASCII text, without that mark";
        "IM1 returns" "the lines end in CR LF, and those of an image in LF alone: take the CRs out, as 'dos2unix' does";
        "IM1 binary" "the input is a binary file, and an image is a text: 'tools/module-image FILE' makes an image of an eeprom file";
        "IM2" "the line is neither a page line nor 'end': write 'lower A0' or 'upper A0 BANK PAGE', a space and 256 hexadecimal digits in lower case, and nothing after them";
        "IM3" "the key of the line is not above that of the line before: put page lines in the order of their keys, and each key once";
        "IM4" "a 17th page line stands there, and an image has at most 16: leave out pages that the command does not need";
        "IM5" "the text ends before a line 'end', so it was cut off: make the image anew";
        "IM6" "a line stands after 'end': delete it, or put a line '---' before it if another part of the input begins there";
        "IM7" "a 65th page line stands there, and an image has at most 64: leave out pages that the command does not need";
        "RP1" "modules of this identifier (byte 0 of lower A0) are not read: docs/formats.md lists those that are";
        "RP2" "the list of transactions was full while the module was read: give it room for more";
        "RP3" "4096 transactions did not read the module: without --bus the same command names the half that the image lacks";
        "RP4" "only the revisions 4 and 5 of CMIS are read (byte 1 of lower A0)";
        "RP6" "the image lacks this half, which the report needs: read it too, and look at what tools/module-image says on standard error when it leaves one out";
        "SF1" "the identifier (byte 0 of lower A0) is of another standard: read the module by its own";
        "SF2" "the memory is flat, so the module has no limits that could be read";
        "SF3" "the image lacks this half, which the report needs: read it too, and look at what tools/module-image says on standard error when it leaves one out";
        "SF4" "the module has no diagnostics (byte 92 of lower A0, bit 6), so it measures nothing: 'inventory' works";
        "SF5" "the host has to calibrate the values of this module (byte 92 of lower A0, bit 4), which is not done here: 'flags' and 'inventory' work";
        "SF6" "the module wants an address change before its diagnostics are read (byte 92 of lower A0, bit 2), which is not done here: 'inventory' works";
        "AD1" "only modules of CMIS advertise Applications (identifier 18h, 19h or 1Eh, byte 0 of lower A0): 'inventory' reads other modules too";
        "AD2" "only the revisions 4 and 5 of CMIS are read (byte 1 of lower A0)";
        "AD3" "the memory is flat (byte 2 of lower A0, bit 7), so there is nothing to plan: 'inventory' works";
        "AD4" "the image lacks this half, which Applications and plans need: read it too, and look at what tools/module-image says on standard error when it leaves one out";
        "AD5" "the sum of this page is wrong: the image was damaged, or read while the module was starting, so read it again";
        "AD6" "plans are made for modules of eight lanes, and this one has another number: 'inventory', 'monitors' and 'flags' work";
        "WT1" "the weights are no TOML: write the line '[host]', and then lines KEY = NUMBER as '0Dh = 101', comments or empty lines, with each key once";
        "WT2" "the weights have no table 'host': put the line '[host]' above them";
        "WT3" "a key is not two hexadecimal digits and 'h': write 0Bh, and not Bh, 0x0B or a name; 'apps' prints the codes that the module knows, after 'host'";
        "WT3 media" "a key of 'media' is not two hexadecimal digits and 'h': write 1Ch, and not Ch, 0x1C or a name; 'apps' prints the codes that the module knows, after 'media'";
        "WT3 app" "a key of 'app' is no number of an Application, 1 to 15: write 3, and not 03, 3h or a name; 'apps' prints the numbers that the module has, after 'app'";
        "WT4" "the key stands there twice, in lower case and in upper case: keep one";
        "WT5" "the weight of this key is no whole number from 0 to 4294967295: write 400, and not 400.0 or '400'";
        "WT6" "the weights have more than 'stay', a whole number of at most 4294967295, and the tables 'host', 'media' and 'app': delete what else stands above '[host]', and other tables";
        "CT1" "the line has none of the forms of a certificate's lines, or one that may not stand there: write single spaces, numbers without leading zeros, and used media lanes as two digits in lower case";
        "CT2" "the state of the line is not above the one before: put states in rising order, by boundary and then by used media lanes, and each once";
        "CT3" "there is a ninth path, a ninth kept path or a state too many: eight lanes have at most eight paths";
        "CT4" "the text ends before a line 'end', so it was cut off: make the certificate anew";
        "VR1" "the path is not allowed on this module: compare it with what 'apps' prints (is the Application usable, may it begin there, are the lanes there and supported?)";
        "VR2" "the path shares a lane with an earlier one: compare the host lanes and the media lanes of both";
        "VR3" "the weight is not the plan's: is the certificate of these weights?";
        "VR4" "there is no entry for the state without decided and used lanes: add a line 'state 0 00 POTENTIAL'";
        "VR5" "a step from the state of this entry leads to a state that has no entry: add a line 'state' for that one";
        "VR6" "the potential of this entry is below the weight of a step and the potential of where it leads: it is too low, or the other one is too high";
        "VR7" "the potential of the state without decided and used lanes is not the weight, so the certificate does not show that this plan is best";
        "VR8" "the kept path is not allowed on this module, or shares a lane with an earlier kept one: compare it with what 'apps' prints";
        "VR9" "the kept path is not in the plan: add a line 'path' with the same three numbers, or have a certificate made that does not keep it";
        "VR10" "the certificate is for a module that pairs first lanes and is judged for one that does not, or the other way round: say 'paired' when it is made and when it is judged, or neither time";
        "KP1" "the line is no 'keep APP HOST MEDIA': write single spaces and three decimal numbers up to 255 without leading zeros";
        "KP2" "a ninth kept path stands there, and eight lanes have at most eight";
        "KP3" "the path is not allowed on this module, or shares a lane with an earlier one: compare it with what 'apps' prints";
        "BU1" "the bus's list of transactions is full: give it room for more";
        "BU2" "the operation has not the shape of a transaction: a half has 128 bytes, and a store at most eight";
        "BU3" "the line is no directive: write 'ok N', 'nack N' or 'tick N' with N from 1 to 65535, 'cut K' with K from 0 to 8, 'lpmode 0' or 'lpmode 1', with one space and nothing more";
        "BU4" "a script has at most 1024 directives: join equal ones, as 'ok 1' and 'ok 1' to 'ok 2'";
        "SM1" "the image lacks this half, which the simulated module needs: read it too, and look at what tools/module-image says on standard error when it leaves one out";
        "SM2" "the module does not say what it advertises, so it can't be simulated";
        "SM3" "a delay of the simulated module is 0 or above 1000";
        "SM4" "the active control bytes (bytes 206 to 213 of page 11h) are no data paths at this lane: the image was changed by hand, or read while the module changed them";
        "PV1" "the module rejected the configuration of this lane: the status says the cause (docs/states.md)";
        "PV2" "the staged control byte of this lane is another one than was stored: something else writes there, or the module does not keep what it took";
        "PV3" "the active control byte of this lane is another one than the plan's: something else has configured the module, it did not apply all lanes, or a path to keep is not active";
        "PV4" "4096 transactions were made without another answer: look at the end of what 'trace' prints; if the module is slow, wait between reads, and begin again";
        "PV5" "the bus made no further transaction";
        "PV6" "the module is in this state, and not in ModuleReady: while it powers up, wait and call again; in low power, byte 26 of lower A0 or the pin asks for it";
        "PV7" "the standard reserves the code that the module shows, of its state, of a path state or of a status: look at the last fetch that 'trace' prints";
    }
}

/// The sentence of this code.
pub fn sentence_by_code(code: &str) -> Option<&'static Sentence>
    ensures { option_map row_of (option_copied result) ≡ row_by_code code.now }
{
    sentences().iter().find(|sentence| sentence.code == code)
}
